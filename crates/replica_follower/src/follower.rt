//! A machine through the crashes and restarts of its node: how it follows the log, and how its sayings are handed out.

ghost use Rattle.std.specs.Prelude.{◌≡◌, ◌↔◌, ◌<◌, ◌^◌, ◌++◌, ◌||◌, List, length, true, false, Some, None, IsErr, IsErrOf, IsOkUnless, IfOk, IfSome, OnOk, OnErr, IsSomeAnd, []};
ghost use Rattle.paxos_packets.specs.declared.entry.Entry as log_entries;
ghost use Rattle.paxos_packets.specs.declared.transport.Transport.{Transport};
ghost use Rattle.replica_machine.specs.declared.fault.SaveFault.TheVariants as save;
ghost use Rattle.replica_machine.specs.Given.{AreGiven};
ghost use Rattle.replica_machine.specs.Log.{machine_from, first_log, cut_log, length_in, IsLogOf};
ghost use Rattle.replica_machine.specs.Snapshot.{kept_of, kept_after, kept_octets, loaded_log, IsLoaded};
ghost use Rattle.replica_follower.specs.Following.{Follows, LoadsAs, handed_to};
ghost use Rattle.replica_follower.specs.Handed.{said_in, tellings, TellAll};

use crate::handed::Handed;
use crate::telling::{Untold, copies, tell};
use crate::tellings::Tellings;
use paxos_packets::{Entry, Memory, Transport};
use replica_machine::{AppliedLog, LoadFault, Machine, SaveFault};
use std::alloc::Global;
use std::marker::Model;

/// The machine of one node, which stands where its node stands, and what the transports of that node were handed.
///
/// The node applies its log anew in each of its boots, and the machine is made anew with it. What the machine says to transports of other
/// nodes, or of other boots of this one, is dropped.
pub struct Follower<M: Machine> {
    alloc: Global,
    node: u8,
    applied: AppliedLog<M>,
    // How many of the applied entries the node has. More may be applied if the machine is given up.
    stands: usize,
    handed: Handed<M::Say>,
    given_up: bool,
}

impl<M: Machine> Drop for Follower<M> {
    fn drop(self) {
        let Follower {
            alloc: _,
            node: _,
            applied: _applied,
            stands: _,
            handed: _handed,
            given_up: _,
        } = self;
    }
}

impl<M: Machine> Model for Follower<M> {
    ghost use Rattle.replica_follower.specs.Following.{Followed, IsHeld, up_to};

    ghost Value = { Followed M.Body M M.Say };

    ghost view = { λ f. record { node = f.node; log = up_to f.stands f.applied; given_up = f.given_up; told = f.handed } };

    ghost invariant = { λ f. IsHeld f.stands f.applied f.given_up };
}

impl<M: Machine> Follower<M> {
    /// Returns the machine of this node, which has applied nothing yet. Does not allocate; `follow` will, from `alloc`.
    pub fn new(alloc: Global, node: u8, machine: M) -> Follower<M>
        ensures node { result.node ≡ node }
        ensures log { result.log ≡ first_log machine }
        ensures given_up { result.given_up ≡ false }
        ensures told { result.told ≡ [] }
        ensures follows { (first : M.Content) → M.content machine ≡ first
            → Follows M.content (machine_from M.steps first) [] result }
    {
        Follower {
            alloc,
            node,
            applied: AppliedLog::new(alloc, machine),
            stands: 0,
            handed: Handed::new(alloc),
            given_up: false,
        }
    }

    /// Returns the entries that its node has applied in its boot. Does not allocate.
    pub fn log(&self) -> &[Entry<M::Body>]
        ensures { result.now ≡ self.now.log.applied }
    {
        &self.applied.applied()[..self.stands]
    }

    /// Returns the machine. Does not allocate.
    pub fn machine(&self) -> &M
        ensures { result.now ≡ self.now.log.machine }
    {
        self.applied.machine()
    }

    /// Returns whether the machine is given up: it failed, memory ran out for what it had said, or it could not be made anew. Does not
    /// allocate.
    pub fn is_given_up(&self) -> bool
        ensures { result ≡ self.now.given_up }
    {
        self.given_up
    }

    /// Returns what the transport was handed, oldest first; nothing if it is another node's. Does not allocate, and takes a number of steps
    /// logarithmic in the number of transports that were handed something.
    pub fn said(&self, transport: Transport) -> &[M::Say]
        ensures { result.now ≡ said_in transport self.now.told }
    {
        self.handed.said(transport)
    }

    /// Returns the transports that were handed something, by boot and number, each with what it was handed, oldest first. Does not
    /// allocate.
    pub fn handed(&self) -> Tellings<'_, M::Say>
        ensures are { result ≡ tellings self.now.told }
        ensures all { TellAll self.now.told result }
    {
        self.handed.tellings()
    }

    /// Returns the octets of its log, as `AppliedLog::save` does. Fails with `Failed` if the machine is given up, too.
    pub fn saved(&self) -> Result<Vec<u8>, SaveFault>
        ensures failed { self.now.given_up ≡ false → (IsErrOf result save.Failed ↔ ((self.now.log.failed || M.has_failed self.now.log.machine) ≡ true)) }
        ensures given_up { self.now.given_up ≡ true → IsErrOf result save.Failed }
        ensures octets { IfOk result (λ octets. octets.items ≡ kept_octets M.saved (kept_of M.content self.now.log)) }
        ensures fault { self.now.given_up ≡ false → (self.now.log.failed || M.has_failed self.now.log.machine) ≡ false → IsOkUnless result save.Memory }
        ensures back { (first : M.Content) (under : List (log_entries.Entry M.Body))
            → IsLogOf M.steps M.content first under self.now.log → M.is_sound first
            → AreGiven (under ++ self.now.log.applied) → length_in self.now.log < 2 ^ 40
            → IfOk result (λ octets. loaded_log M.loaded octets.items ≡ Some (kept_of M.content self.now.log)) }
        ensures only { (first : M.Content) (under : List (log_entries.Entry M.Body))
            → IsLogOf M.steps M.content first under self.now.log → AreGiven (under ++ self.now.log.applied)
            → length_in self.now.log < 2 ^ 40
            → IfOk result (λ octets. IfSome (loaded_log M.loaded octets.items) (λ kept. kept ≡ kept_of M.content self.now.log)) }
        ensures alive { IfOk result (λ octets. self.now.given_up ≡ false) }
        ensures keeps { (first : M.Content) (under : List (log_entries.Entry M.Body))
            → Follows M.content (machine_from M.steps first) under self.now
            → IfOk result (λ octets. octets.items
            ≡ kept_octets M.saved (kept_after (machine_from M.steps first) (under ++ self.now.log.applied))) }
        ensures loads { (first : M.Content) (under : List (log_entries.Entry M.Body))
            → Follows M.content (machine_from M.steps first) under self.now
            → AreGiven (under ++ self.now.log.applied) → length (under ++ self.now.log.applied) < 2 ^ 40
            → IfOk result (λ octets. LoadsAs M.loaded (kept_after (machine_from M.steps first) (under ++ self.now.log.applied)) octets.items) }
    {
        if self.given_up {
            return Err(SaveFault::Failed);
        }
        self.applied.save()
    }

    /// Forgets the entries of its log, as its node does once it rests on a snapshot of that: the log's length is its floor from then on.
    /// What was handed out stays. Does not allocate.
    ///
    /// A log that is longer than there are slots is kept by no snapshot: its machine is given up.
    pub fn rest_on(&mut self)
        ensures node { self.new.node ≡ self.old.node }
        ensures told { self.new.told ≡ self.old.told }
        ensures applied { self.new.log.applied ≡ [] }
        ensures log { self.old.given_up ≡ false → length_in self.old.log < 2 ^ 40 → self.new.log ≡ cut_log self.old.log }
        ensures given_up { length_in self.old.log < 2 ^ 40 → self.new.given_up ≡ self.old.given_up }
        ensures stays_given_up { self.old.given_up ≡ true → self.new.given_up ≡ true }
        ensures follows { (first : M.Content) (under : List (log_entries.Entry M.Body))
            → Follows M.content (machine_from M.steps first) under self.old
            → Follows M.content (machine_from M.steps first) (under ++ self.old.log.applied) self.new }
    {
        self.stands = 0;
        if self.given_up {
            return;
        }
        self.applied.cut();
        self.given_up = !self.applied.applied().is_empty();
    }

    /// Applies these entries, which its node applies after its log in this boot: gives them to the machine, and hands to each transport of
    /// this boot what is said to it at them.
    ///
    /// On `Memory` nothing was handed out, and the log is as it was. If the machine had been given an entry by then, it is given up: each
    /// later call that has an entry for it returns `Memory`, until `renew`. Takes time in the entries and in what is said at them, times a
    /// logarithm of the number of transports, besides the machine's own; an entry is copied for the machine, a saying never.
    pub fn follow(&mut self, boot: u64, entries: &[Entry<M::Body>]) -> Result<(), Memory>
        ensures node { self.new.node ≡ self.old.node }
        ensures floor { self.new.log.floor ≡ self.old.log.floor }
        ensures ok_log { OnOk result (self.new.log.applied ≡ self.old.log.applied ++ entries.now) }
        ensures err_log { OnErr result (self.new.log.applied ≡ self.old.log.applied) }
        ensures follows { (first : M.Content) (under : List (log_entries.Entry M.Body))
            → Follows M.content (machine_from M.steps first) under self.old
            → Follows M.content (machine_from M.steps first) under self.new }
        ensures ok_handed { (first : M.Content) (under : List (log_entries.Entry M.Body))
            → Follows M.content (machine_from M.steps first) under self.old
            → OnOk result ((t : Transport) → said_in t self.new.told ≡ said_in t self.old.told
            ++ handed_to (machine_from M.steps first) t self.old.node boot (under ++ self.old.log.applied) entries.now) }
        ensures err_handed { OnErr result ((t : Transport) → said_in t self.new.told ≡ said_in t self.old.told) }
        ensures ok_alive { OnOk result (self.new.given_up ≡ self.old.given_up) }
        ensures spared { length entries.now ≡ 0 → self.new.given_up ≡ self.old.given_up }
        ensures stays_given_up { self.old.given_up ≡ true → self.new.given_up ≡ true }
        ensures refuses { self.old.given_up ≡ true → 0 < length entries.now → IsErr result }
    {
        if entries.is_empty() {
            return Ok(());
        }
        if self.given_up {
            return Err(Memory);
        }
        let copies = copies(self.alloc, entries)?;
        match tell(
            self.alloc,
            &mut self.applied,
            &mut self.handed,
            self.node,
            boot,
            copies,
        ) {
            Ok(()) => {
                self.stands = self.applied.applied().len();
                Ok(())
            }
            Err(Untold::Unheard) => Err(Memory),
            Err(Untold::Heard) => {
                self.given_up = true;
                Err(Memory)
            }
        }
    }

    /// Makes the machine anew from the octets of a log, and applies the entries after its floor, as its node does in this boot when it takes
    /// that log over: hands to each transport of this boot what is said to it at these entries. The machine is given up no more.
    ///
    /// It is whole or not at all: on `Memory`, and that is also returned if the octets are none that were saved, or the machine fails at an
    /// entry, nothing was handed out, and the machine that there was goes on. Takes time as `follow`, besides that of `AppliedLog::load`.
    pub fn take(
        &mut self,
        boot: u64,
        octets: &[u8],
        entries: &[Entry<M::Body>],
    ) -> Result<(), Memory>
        ensures node { self.new.node ≡ self.old.node }
        ensures ok_log { OnOk result (self.new.log.applied ≡ entries.now) }
        ensures ok_alive { OnOk result (self.new.given_up ≡ false) }
        ensures ok_follows { (first : M.Content) (under : List (log_entries.Entry M.Body)) → AreGiven under
            → LoadsAs M.loaded (kept_after (machine_from M.steps first) under) octets.now
            → OnOk result (Follows M.content (machine_from M.steps first) under self.new) }
        ensures ok_handed { (first : M.Content) (under : List (log_entries.Entry M.Body)) → AreGiven under
            → LoadsAs M.loaded (kept_after (machine_from M.steps first) under) octets.now
            → OnOk result ((t : Transport) → said_in t self.new.told ≡ said_in t self.old.told
            ++ handed_to (machine_from M.steps first) t self.old.node boot under entries.now) }
        ensures damaged { loaded_log M.loaded octets.now ≡ None → IsErr result }
        ensures err_log { OnErr result (self.new.log ≡ self.old.log) }
        ensures err_given_up { OnErr result (self.new.given_up ≡ self.old.given_up) }
        ensures err_handed { OnErr result ((t : Transport) → said_in t self.new.told ≡ said_in t self.old.told) }
        ensures err_follows { (first : M.Content) (under : List (log_entries.Entry M.Body))
            → Follows M.content (machine_from M.steps first) under self.old
            → OnErr result (Follows M.content (machine_from M.steps first) under self.new) }
    {
        let rest = copies(self.alloc, entries)?;
        let Ok(mut made) = AppliedLog::load(self.alloc, octets) else {
            return Err(Memory);
        };
        let Ok(()) = tell(
            self.alloc,
            &mut made,
            &mut self.handed,
            self.node,
            boot,
            rest,
        ) else {
            return Err(Memory);
        };
        self.applied = made;
        self.stands = self.applied.applied().len();
        self.given_up = false;
        Ok(())
    }

    /// Makes the machine anew from the octets of a log, as its node begins its next boot: no entry is applied after their floor then, and the
    /// machine is given up no more. What was handed out stays.
    ///
    /// If the octets are none that were saved, the machine is given up, with no entry in its log. On `Memory` all is as it was.
    pub fn renew(&mut self, octets: &[u8]) -> Result<(), Memory>
        ensures node { self.new.node ≡ self.old.node }
        ensures told { self.new.told ≡ self.old.told }
        ensures log { OnOk result (self.new.log.applied ≡ []) }
        ensures loaded { OnOk result (self.new.given_up ≡ false →
            IsSomeAnd (loaded_log M.loaded octets.now) (λ kept. IsLoaded M.content kept self.new.log)) }
        ensures damaged { OnOk result (self.new.given_up ≡ true → loaded_log M.loaded octets.now ≡ None) }
        ensures follows { (first : M.Content) (under : List (log_entries.Entry M.Body)) → AreGiven under
            → LoadsAs M.loaded (kept_after (machine_from M.steps first) under) octets.now
            → OnOk result (Follows M.content (machine_from M.steps first) under self.new) }
        ensures err { OnErr result (self.new ≡ self.old) }
    {
        match AppliedLog::load(self.alloc, octets) {
            Ok(applied) => {
                self.applied = applied;
                self.stands = 0;
                self.given_up = false;
                Ok(())
            }
            Err(LoadFault::Damaged) => {
                self.stands = 0;
                self.given_up = true;
                Ok(())
            }
            Err(LoadFault::Memory) => Err(Memory),
        }
    }
}
