// The trait of keepers, which load rows, commit changes and begin boots.
ghost use Rattle.std.specs.Prelude.{◌≡◌, ◌≢◌, ◌⊎◌, ◌-◌, ◌^◌, ◌<◌, ◌≤◌, ℕ, Bool, true, false, is_err, IfOk, OnOk, IsErrOf, Err};
ghost use Rattle.paxos_packets.specs.declared.rows.Rows.{Rows};
ghost use Rattle.paxos_acceptor.specs.Acceptor.{adopted};
ghost use Rattle.paxos_packets.specs.Rows.{last_boot, raised};
ghost use Rattle.store_keeper.specs.Keeper.{FindsOr, FindsNoMore};

use crate::fault::KeeperFault;
use paxos_packets::{Body, Change, Rows};

/// A store of one acceptor's rows: what a node has promised and voted, and how often it was started, found again after a crash
/// (Lamport 2001, section 2.5).
///
/// After a fault of `commit` or `boot` the keeper has failed: each call returns `Failed` until it is opened again. It finds rows then: those
/// that it held before that call, or those that it was to hold after it.
pub trait Keeper<B: Body> {
    // What a load returns.
    ghost holds: { Self → Rows B → Type 0 };

    // What it may find when it is opened again, if it stops at this moment.
    ghost finds: { Self → Rows B → Type 0 };

    // If it stops at this moment, and is opened again, it finds rows.
    ghost leaves_rows: { Self → Type 0 };

    // What lies below has returned what was written, so far.
    ghost is_faithful: { Self → Type 0 };

    // A commit or a boot has returned a fault.
    ghost is_failed: { Self → Bool };

    // How often what lies below refused a call for a cause other than memory.
    ghost failures: { Self → ℕ };

    /// Returns the committed rows. Changes nothing, whatever it returns.
    ///
    /// `Failed` on a failed keeper, and if no more failures can be counted; `Store` if what lies below failed; `Version` and `Damaged` if
    /// what is stored is not rows of this version, so neither if rows are held and what lies below returned what was written; `Memory` if
    /// memory runs out.
    fn load(&mut self) -> Result<Rows<B>, KeeperFault>
        ensures held { IfOk result (holds self.new) }
        ensures right { is_faithful self.new → (r : Rows B) → holds self.old r → IfOk result (λ x. x ≡ r) }
        ensures sound { is_faithful self.new → (r : Rows B) → holds self.old r → IsErrOf result KeeperFault.Damaged → ⊥ }
        ensures current { is_faithful self.new → (r : Rows B) → holds self.old r → IsErrOf result KeeperFault.Version → ⊥ }
        ensures same { (r : Rows B) → holds self.old r → holds self.new r }
        ensures found { FindsNoMore finds self.old self.new }
        ensures left { leaves_rows self.old → leaves_rows self.new }
        ensures stays { is_failed self.new ≡ is_failed self.old }
        ensures again { is_failed self.old ≡ true → result ≡ Err KeeperFault.Failed }
        ensures spent { IsErrOf result KeeperFault.Failed → (is_failed self.old ≡ true) ⊎ (failures self.old ≡ 2 ^ 64 - 1) }
        ensures store { IsErrOf result KeeperFault.Store → failures self.old < failures self.new }
        ensures counts { failures self.old ≤ failures self.new };

    /// Commits the change in one step. After Ok the rows are those with the change, and are found again. After a fault the keeper has
    /// failed, and rows are found: those that were held before, or those with the change.
    ///
    /// `Failed` on a failed keeper, and if no more failures can be counted; `Store` if what lies below failed; `Damaged` if the change has
    /// no place among the rows that are held; `Memory` if memory runs out.
    fn commit(&mut self, change: &Change<B>) -> Result<(), KeeperFault>
        ensures ok { OnOk result ((r : Rows B) → holds self.old r → holds self.new (adopted r change.now)) }
        ensures found { (r : Rows B) → holds self.old r → FindsOr finds self.old self.new (adopted r change.now) }
        ensures left { (r : Rows B) → holds self.old r → leaves_rows self.new }
        ensures fails { is_failed self.new ≡ is_err result }
        ensures again { is_failed self.old ≡ true → result ≡ Err KeeperFault.Failed }
        ensures unchanged { is_failed self.old ≡ true → FindsNoMore finds self.old self.new }
        ensures untouched { is_failed self.old ≡ true → leaves_rows self.old → leaves_rows self.new }
        ensures spent { IsErrOf result KeeperFault.Failed → (is_failed self.old ≡ true) ⊎ (failures self.old ≡ 2 ^ 64 - 1) }
        ensures store { IsErrOf result KeeperFault.Store → failures self.old < failures self.new }
        ensures counts { failures self.old ≤ failures self.new };

    /// Begins a boot: raises the boot number by one, commits that, and returns the rows with it. After a fault the keeper has failed, and
    /// rows are found: those that were held before, or those with the new boot number.
    ///
    /// `Boots` if the boot number is 2^48 - 1; beside that the faults of `load` and of `commit`, `Damaged` and `Version` only where `load`
    /// may return them.
    fn boot(&mut self) -> Result<Rows<B>, KeeperFault>
        ensures held { IfOk result (holds self.new) }
        ensures right { is_faithful self.new → (r : Rows B) → holds self.old r → IfOk result (λ x. x ≡ raised r) }
        ensures faithful { is_faithful self.new → is_faithful self.old }
        ensures sound { is_faithful self.new → (r : Rows B) → holds self.old r → IsErrOf result KeeperFault.Damaged → ⊥ }
        ensures current { is_faithful self.new → (r : Rows B) → holds self.old r → IsErrOf result KeeperFault.Version → ⊥ }
        ensures within { IfOk result (λ x. x.boot ≤ last_boot) }
        ensures last { is_faithful self.new → (r : Rows B) → holds self.old r → IsErrOf result KeeperFault.Boots → last_boot ≤ r.boot }
        ensures found { (r : Rows B) → holds self.old r → FindsOr finds self.old self.new (raised r) }
        ensures left { (r : Rows B) → holds self.old r → leaves_rows self.new }
        ensures fails { is_failed self.new ≡ is_err result }
        ensures again { is_failed self.old ≡ true → result ≡ Err KeeperFault.Failed }
        ensures unchanged { is_failed self.old ≡ true → FindsNoMore finds self.old self.new }
        ensures untouched { is_failed self.old ≡ true → leaves_rows self.old → leaves_rows self.new }
        ensures spent { IsErrOf result KeeperFault.Failed → (is_failed self.old ≡ true) ⊎ (failures self.old ≡ 2 ^ 64 - 1) }
        ensures store { IsErrOf result KeeperFault.Store → failures self.old < failures self.new }
        ensures counts { failures self.old ≤ failures self.new };

    /// Returns how often what lies below refused a call for a cause other than memory. Does not allocate.
    fn failures(&self) -> u64
        ensures { result ≡ failures self.now };

    // A store that holds rows leaves rows.
    ghost kept: { (k : Self) (r : Rows B) → holds k r → leaves_rows k };

    // A store finds what it holds, and nothing else.
    ghost only: { (k : Self) (r x : Rows B) → holds k r → finds k x → x ≡ r };
}
