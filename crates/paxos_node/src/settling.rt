//! What was learned is applied at an event's end.

ghost use Rattle.std.specs.Prelude.{◌≡◌, ◌<◌, ◌≤◌, ◌+◌, ◌^◌, suc, false, length, true, None, Err, IfOk, OnOk, OnErr, take, if◌then◌else◌};
ghost use Rattle.paxos_learner.specs.Learner.{run_from};
ghost use Rattle.paxos_node.specs.declared.fault.NodeFault.TheVariants.{Memory as NoMemory};
ghost use Rattle.paxos_planning.specs.Node.{log_length};
ghost use Rattle.paxos_planning.specs.Drafting.{known};
ghost use Rattle.paxos_planning.specs.Front.{FrontOf};
ghost use Rattle.replica_machine.specs.Roll.{HasStandings};
ghost use Rattle.paxos_node.specs.Adopting.{Settled, front_behind};
ghost use Rattle.paxos_node.specs.Outcome.{with_added};
ghost use Rattle.paxos_node.specs.Applying.{standing_of, settle, is_own_lost, ends_boot, count_to_end, has_end};
ghost use Rattle.paxos_node.specs.Plans.{Answers, Answered};

use crate::fault::NodeFault;
use crate::node::Node;
use crate::outcome::Outcome;
use paxos_packets::{Body, Entries, Entry, Memory};
use paxos_planning::Draft;
use replica_machine::{Roll, Standing};

impl<B: Body> Node<B> {
    // Returns what the event makes of the node, once its own part is done: what it would then have learned is applied. The first `front`
    // entries that were pending stand before that.
    pub(crate) fn settle(
        &self,
        draft: Draft<'_, B>,
        done: Result<(), Memory>,
        front: usize,
    ) -> Result<Outcome<B>, NodeFault>
        requires up { self.now.state.up ≡ true }
        requires of { draft.of ≡ known self.now.me self.now.members self.now.state draft.of.added }
        requires front { OnOk done (FrontOf front draft) }
        requires most { front ≤ length draft.of.state.pending }
        ensures settled { OnOk done (Answers false false (settle self.now.me draft.entry.plan).disagrees
            (λ outcome. Settled self.now.me self.now.members self.now.state draft.entry.plan (with_added draft.entry.of.added outcome)) result) }
        ensures memory { OnErr done (result ≡ Err NoMemory) }
        ensures added { IfOk result (λ outcome. outcome.moves.added ≡ None) }
    {
        let run = match run_of(&draft, done) {
            Ok(run) => run,
            Err(fault) => {
                drop(draft);
                return Err(fault);
            }
        };
        Ok(ended(draft, run, self.roll(), front))
    }

    // Returns the same for an event by which no entry becomes pending.
    #[tactic(auto, using(paxos_planning::proofs::Standing::no_front))]
    pub(crate) fn finish(
        &self,
        draft: Draft<'_, B>,
        done: Result<(), Memory>,
    ) -> Result<Outcome<B>, NodeFault>
        requires up { self.now.state.up ≡ true }
        requires of { draft.of ≡ known self.now.me self.now.members self.now.state None }
        ensures answered { OnOk done (Answered self.now.me self.now.members self.now.state false false draft.entry.plan result) }
        ensures memory { OnErr done (result ≡ Err NoMemory) }
        ensures added { IfOk result (λ outcome. outcome.moves.added ≡ None) }
    {
        self.settle(draft, done, 0)
    }
}

// Returns what is to be applied at the event's end, once its own part is done.
fn run_of<B: Body>(draft: &Draft<'_, B>, done: Result<(), Memory>) -> Result<Entries<B>, NodeFault>
    ensures run { OnOk done (Answers false false draft.now.plan.disagrees
        (λ run. run ≡ run_from (suc (log_length draft.now.of.state)) draft.now.plan.node.learner.learned) result) }
    ensures memory { OnErr done (result ≡ Err NoMemory) }
{
    let Ok(()) = done else {
        return Err(NodeFault::Memory);
    };
    if draft.disagrees() {
        return Err(NodeFault::Disagree);
    }
    let Ok(run) = draft.run() else {
        return Err(NodeFault::Memory);
    };
    Ok(run)
}

// Returns what the event makes of the node, given what is to be applied.
fn ended<B: Body>(draft: Draft<'_, B>, run: Entries<B>, roll: &Roll, front: usize) -> Outcome<B>
    requires up { draft.of.state.up ≡ true }
    requires roll { HasStandings (standing_of draft.of.state) roll.now }
    requires agrees { draft.plan.disagrees ≡ false }
    requires run { run ≡ run_from (suc (log_length draft.of.state)) draft.plan.node.learner.learned }
    requires front { FrontOf front draft }
    requires most { front ≤ length draft.of.state.pending }
    ensures settled { Settled draft.entry.of.me draft.entry.of.members draft.entry.of.state draft.entry.plan
        (with_added draft.entry.of.added result) }
    ensures added { result.moves.added ≡ None }
{
    draft.begins();
    let standing = standing_in(&draft, roll);
    let (count, is_down) = until_lost(standing, draft.me(), draft.boot(), run.as_slice());
    let applied = first_of(run, count);
    let log = log_behind(draft.applied(), applied.as_slice(), is_down);
    let stand = front_behind(front, applied.as_slice());
    Outcome::with(draft.into_effects(), applied, is_down, log, stand)
}

// Returns how many of the first pending entries stand once this is applied; after entries are applied none is counted.
fn front_behind<B>(front: usize, applied: &[Entry<B>]) -> usize
    ensures { result ≡ front_behind front applied.now }
{
    if applied.is_empty() {
        return front;
    }
    0
}

// Returns the node's standing after its log.
fn standing_in<B>(draft: &Draft<'_, B>, roll: &Roll) -> Standing
    requires { HasStandings (standing_of draft.now.of.state) roll.now }
    ensures { result ≡ standing_of draft.now.of.state draft.now.of.me }
{
    roll.standing(draft.me())
}

// Returns the length of a log with what is applied to it, or 0 if the node is down.
pub(crate) fn log_behind<B>(log: u64, applied: &[Entry<B>], is_down: bool) -> u64
    requires { log < 2 ^ 40 }
    ensures { result ≡ (if is_down then 0 else log + length applied.now) }
{
    if is_down {
        return 0;
    }
    log + applied.len() as u64
}

// Returns the first `count` entries.
pub(crate) fn first_of<B: Drop>(entries: Entries<B>, count: usize) -> Entries<B>
    ensures { result ≡ take count entries }
{
    let mut list = entries.into_vec();
    list.truncate(count);
    Entries::of(list)
}

// Returns how many of the entries a node with this standing applies, and whether the last of them is the loss of its boot.
pub(crate) fn until_lost<B>(
    standing: Standing,
    me: u8,
    boot: u64,
    entries: &[Entry<B>],
) -> (usize, bool)
    ensures count { result.0 ≡ count_to_end me boot standing entries.now }
    ensures is_down { result.1 ≡ has_end me boot standing entries.now }
{
    let mut now = standing;
    let mut count = 0;
    for entry in entries {
        count += 1;
        if ends_boot(entry, me, boot, now) {
            return (count, true);
        }
        now = now.after(me, entry);
    }
    (count, false)
}

// Returns whether the entry is the loss of this boot of a node with this standing.
fn ends_boot<B>(entry: &Entry<B>, me: u8, boot: u64, standing: Standing) -> bool
    ensures { result ≡ ends_boot me boot standing entry.now }
{
    is_own_lost(entry, me, boot) && standing.is_live(boot)
}

// Returns whether the entry is the loss of this node in this boot.
fn is_own_lost<B>(entry: &Entry<B>, me: u8, own: u64) -> bool
    ensures { result ≡ is_own_lost me own entry.now }
{
    match entry {
        Entry::Lost { node, boot } => *node == me && *boot == own,
        Entry::Noop | Entry::Boot { .. } | Entry::Item { .. } => false,
    }
}
