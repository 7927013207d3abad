//! What a leader proposes, and what another node forwards. An entry *stands* if an equal one is proposed in the leader's ballot, in a slot
//! that is not applied yet.

ghost use Rattle.std.specs.Prelude.{◌≡◌, ◌≤◌, drop, ◌∷◌, [], ◌++◌, length, true, is_some, OnOk, IfOk, option_copied, take};
ghost use Rattle.paxos_packets.specs.Packet.{to_others};
ghost use Rattle.paxos_proposer.specs.Proposer.{submitted};
ghost use Rattle.paxos_proposer.specs.Proposing.{offer_of};
ghost use Rattle.paxos_planning.specs.Node.{log_length};
ghost use Rattle.paxos_planning.specs.Parts.{pending_with};
ghost use Rattle.paxos_planning.specs.Drafting.{in_role, listed};
ghost use Rattle.paxos_planning.specs.Front.{AllStand, FrontOf};
ghost use Rattle.paxos_planning.specs.Proposals.{stands, propose, propose_all, propose_new, propose_each, forwarded, push};
ghost use Rattle.paxos_planning.specs.Plan.{send, cast};
ghost use Rattle.paxos_packets.specs.declared.packet.Kind.TheVariants.{Accept};

use crate::draft::Draft;
use paxos_packets::{Body, Entries, Entry, Kind, Memory, Vote};
use paxos_proposer::Offer;
use std::alloc::Global;

impl<'a, B: Body> Draft<'a, B> {
    // Proposes the entry as a leader, and votes for it; does nothing if no slot is left.
    pub(crate) fn propose(&mut self, entry: &Entry<B>) -> Result<(), Memory>
        ensures of { self.new.of ≡ self.old.of }
        ensures plan { OnOk result (self.new.plan ≡ propose B.same self.old.of.members self.old.of.me entry.now self.old.plan) }
    {
        let Some(offer) = self.offer() else {
            return Ok(());
        };
        self.submit(entry)?;
        let Ok(copy) = entry.copy(self.alloc()) else {
            return Err(Memory);
        };
        self.propose_vote(&Vote {
            slot: offer.slot,
            ballot: offer.ballot,
            entry: copy,
        })?;
        Ok(())
    }

    // Asks the others for this vote, and casts it.
    fn propose_vote(&mut self, vote: &Vote<B>) -> Result<(), Memory>
        ensures of { self.new.of ≡ self.old.of }
        ensures plan { OnOk result (self.new.plan ≡ cast B.same self.old.of.members self.old.of.me vote.now
            (send (to_others self.old.of.members self.old.of.me (Accept vote.now)) self.old.plan)) }
    {
        let Ok(copy) = vote.copy(self.alloc()) else {
            return Err(Memory);
        };
        self.send_to_others(&Kind::Accept { vote: copy })?;
        self.cast(vote)?;
        Ok(())
    }

    // Proposes the entry, unless it stands.
    fn propose_new(&mut self, entry: &Entry<B>) -> Result<(), Memory>
        ensures of { self.new.of ≡ self.old.of }
        ensures plan { OnOk result (self.new.plan ≡ propose_new B.same self.old.of.members self.old.of.me entry.now self.old.plan) }
    {
        if self.stands(entry) {
            return Ok(());
        }
        self.propose(entry)?;
        Ok(())
    }

    // Proposes each of these entries, unless it stands.
    pub(crate) fn propose_each(&mut self, entries: &[Entry<B>]) -> Result<(), Memory>
        ensures of { self.new.of ≡ self.old.of }
        ensures plan { OnOk result (self.new.plan ≡ propose_each B.same self.old.of.members self.old.of.me entries.now self.old.plan) }
    {
        for entry in entries {
            self.propose_new(entry)?;
        }
        Ok(())
    }

    // Proposes these entries.
    pub(crate) fn propose_all(&mut self, entries: &[Entry<B>]) -> Result<(), Memory>
        ensures of { self.new.of ≡ self.old.of }
        ensures plan { OnOk result (self.new.plan ≡ propose_all B.same self.old.of.members self.old.of.me entries.now self.old.plan) }
    {
        for entry in entries {
            self.propose(entry)?;
        }
        Ok(())
    }

    /// Proposes what is pending as a leader, and forwards it as another node. The first `front` entries that were pending before stand, and
    /// are not looked at.
    pub fn push(&mut self, front: usize) -> Result<(), Memory>
        requires { FrontOf front self.old }
        ensures of { self.new.of ≡ self.old.of }
        ensures plan { OnOk result (self.new.plan ≡ push B.same self.old.of.members self.old.of.me self.old.plan) }
        ensures front { OnOk result (FrontOf front self.new) }
    {
        if !self.is_leading() {
            self.forward()?;
            return Ok(());
        }
        self.propose_each(self.behind(front))?;
        self.propose_added()?;
        Ok(())
    }

    /// Returns how many of the entries that were pending before stand at the front, given that the first `from` do. Looks only at those
    /// after them, up to the first that does not stand.
    pub fn front(&self, from: usize) -> usize
        requires { FrontOf from self.now }
        ensures front { FrontOf result self.now }
        ensures most { result ≤ length self.now.of.state.pending }
    {
        let pending = self.node.pending();
        if pending.len() < from {
            return 0;
        }
        from + self.count_standing(&pending[from..])
    }

    // Returns how many of the entries stand, up to the first that does not.
    fn count_standing(&self, entries: &[Entry<B>]) -> usize
        ensures stand { AllStand B.same (log_length self.now.plan.node) self.now.plan.node.proposer.role (take result entries.now) }
        ensures most { result ≤ length entries.now }
    {
        let mut count = 0;
        for entry in entries {
            if !self.stands(entry) {
                return count;
            }
            count += 1;
        }
        count
    }

    // Returns what was pending before, after the first `front`.
    fn behind(&self, front: usize) -> &'a [Entry<B>]
        ensures rest { result.now ≡ drop front self.now.of.state.pending }
        ensures pending { self.now.plan.node.pending ≡ pending_with self.now.of.added self.now.of.state.pending }
    {
        let pending = self.node.pending();
        &pending[front.min(pending.len())..]
    }

    // Proposes the entry that becomes pending, unless it stands.
    fn propose_added(&mut self) -> Result<(), Memory>
        ensures of { self.new.of ≡ self.old.of }
        ensures plan { OnOk result (self.new.plan
            ≡ propose_each B.same self.old.of.members self.old.of.me (listed self.old.of.added) self.old.plan) }
    {
        let Some(entry) = self.added() else {
            return Ok(());
        };
        self.propose_new(entry)?;
        Ok(())
    }

    // Sends the first pending entries to the node whose ballot is promised.
    fn forward(&mut self) -> Result<(), Memory>
        ensures of { self.new.of ≡ self.old.of }
        ensures plan { OnOk result (self.new.plan
            ≡ send (forwarded self.old.of.me self.old.plan.node.rows.promised self.old.plan.node.pending) self.old.plan) }
    {
        let Some(promised) = self.promised() else {
            return Ok(());
        };
        if promised.node == self.me() {
            return Ok(());
        }
        let entries = first_pending(self.alloc(), self.pending(), self.added())?;
        if entries.as_slice().is_empty() {
            return Ok(());
        }
        self.send_to(Kind::Forward { entries }, promised.node)?;
        Ok(())
    }

    // Returns where it would propose next, if it leads and a slot is left.
    fn offer(&self) -> Option<Offer>
        ensures { result ≡ offer_of self.now.plan.node.proposer.role }
    {
        self.proposing.offer()
    }

    // Returns whether the entry stands.
    fn stands(&self, entry: &Entry<B>) -> bool
        ensures { result ≡ stands B.same (log_length self.now.plan.node) self.now.plan.node.proposer.role entry.now }
    {
        self.proposing.stands(self.node.applied(), entry)
    }

    // Proposes the entry in a leader's next slot.
    fn submit(&mut self, entry: &Entry<B>) -> Result<(), Memory>
        requires { is_some (offer_of self.old.plan.node.proposer.role) ≡ true }
        ensures of { self.new.of ≡ self.old.of }
        ensures plan { OnOk result (self.new.plan ≡ in_role (submitted entry.now self.old.plan.node.proposer.role) self.old.plan) }
    {
        let Ok(()) = self.proposing.submit(entry) else {
            return Err(Memory);
        };
        Ok(())
    }

    // Returns what is pending, without the entry that becomes pending.
    fn pending(&self) -> &'a [Entry<B>]
        ensures { self.now.plan.node.pending ≡ pending_with self.now.of.added result.now }
    {
        self.node.pending()
    }

    // Returns the entry that becomes pending.
    fn added(&self) -> Option<&'a Entry<B>>
        ensures { option_copied result ≡ self.now.of.added }
    {
        self.added
    }
}

// Copies the first 64 pending entries.
fn first_pending<B: Body>(
    alloc: Global,
    pending: &[Entry<B>],
    added: Option<&Entry<B>>,
) -> Result<Entries<B>, Memory>
    ensures ok { IfOk result (λ entries. entries ≡ take 64 (pending_with (option_copied added.entry) pending.now)) }
{
    let mut entries = Entries::new(alloc);
    copy_first(alloc, &mut entries, first_64(pending))?;
    if pending.len() >= 64 {
        return Ok(entries);
    }
    match added {
        None => Ok(entries),
        Some(entry) => {
            push_copy(alloc, &mut entries, entry)?;
            Ok(entries)
        }
    }
}

// Returns the first 64 of them.
fn first_64<B>(entries: &[Entry<B>]) -> &[Entry<B>]
    ensures { result.now ≡ take 64 entries.now }
{
    if entries.len() < 64 {
        return entries;
    }
    &entries[..64]
}

// Appends copies of these.
fn copy_first<B: Body>(
    alloc: Global,
    entries: &mut Entries<B>,
    more: &[Entry<B>],
) -> Result<(), Memory>
    ensures ok { OnOk result (entries.new ≡ entries.old ++ more.now) }
{
    for entry in more {
        push_copy(alloc, entries, entry)?;
    }
    Ok(())
}

// Appends a copy of it.
fn push_copy<B: Body>(
    alloc: Global,
    entries: &mut Entries<B>,
    entry: &Entry<B>,
) -> Result<(), Memory>
    ensures ok { OnOk result (entries.new ≡ entries.old ++ entry.now ∷ []) }
{
    let Ok(copy) = entry.copy(alloc) else {
        return Err(Memory);
    };
    let Ok(()) = entries.push(copy) else {
        return Err(Memory);
    };
    Ok(())
}
