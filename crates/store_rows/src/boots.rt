// The boot number of rows: its range, and how it is raised.
ghost use Rattle.std.specs.Prelude.{◌≡◌, ◌≤◌, ◌↔◌, true, OnOk, IfErr, IsErrOf};
ghost use Rattle.paxos_packets.specs.Rows.{last_boot, raised};
ghost use Rattle.store_rows.specs.Numbers.{are_numbers, numbers_in_rows};

use paxos_packets::Rows;
use store_keeper::KeeperFault;

// The greatest boot number.
const LAST_BOOT: u64 = (1 << 48) - 1;

/// Raises the boot number by one.
///
/// `Boots`, with nothing raised, exactly if it is 2^48 - 1; no other fault.
#[tactic(auto, unfolding(paxos_packets::specs::Rows::last_boot), using(crate::proofs::Within::raised_within))]
pub fn raise_boot<B>(rows: &mut Rows<B>) -> Result<(), KeeperFault>
    ensures raised { OnOk result (rows.new ≡ raised rows.old) }
    ensures within { OnOk result (rows.new.boot ≤ last_boot) }
    ensures last { IsErrOf result KeeperFault.Boots ↔ (last_boot ≤ rows.old.boot) }
    ensures numbers { are_numbers (numbers_in_rows rows.old) ≡ true → OnOk result (are_numbers (numbers_in_rows rows.new) ≡ true) }
    ensures fault { IfErr result (λ fault. (fault ≡ KeeperFault.Boots) × (rows.new ≡ rows.old)) }
{
    if rows.boot >= LAST_BOOT {
        return Err(KeeperFault::Boots);
    }
    rows.boot += 1;
    Ok(())
}
