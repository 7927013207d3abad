// What comes first as a node begins: judges the rows that its store has, and begins the next boot there.
ghost use Rattle.std.specs.Prelude.{◌≡◌, None, Some, Ok, Err, false, IfOk, IfErr, OnOk};
ghost use Rattle.store_keeper.specs.Keeper.{FindsOr};
ghost use Rattle.paxos_packets.specs.Rows.{raised};
ghost use Rattle.paxos_packets.specs.declared.rows.Rows.{Rows};
ghost use Rattle.node_actor.specs.Beginning.{Boots, IsEmpty, NoDamage, Starts};
ghost use Rattle.node_actor.specs.Preparing.{judge_of, Fits, Found, IsUnmade, Readied, Refuses};
ghost use Rattle.node_actor.specs.Snapshots.{IsFirstLog};
ghost use Rattle.actor_parts.specs.Snapshots.{is_no_log};

use crate::compare::{Fit, fit_of, is_later};
use crate::post::Post;
use actor_outboxes::Outboxes;
use actor_parts::{ActorFault, load_log};
use mail_table::MOST_EVENTS;
use paxos_packets::{Body, Members, Rows};
use replica_machine::{AppliedLog, LoadFault, Machine};
use std::alloc::Global;
use store_keeper::{Keeper, KeeperFault};

// What a node begins with: the rows of its new boot, empty outboxes, and whether the steps of the events whose commit failed come first.
#[derive(Drop)]
pub(crate) struct Ready<B> {
    pub(crate) rows: Rows<B>,
    pub(crate) outboxes: Outboxes<B>,
    pub(crate) meant: bool,
}

// Begins a boot, if the store has rows that the node may begin with, and a log is made of their snapshot, if they have one. Returns that log, or
// the empty one with this machine.
pub(crate) fn prepare<M: Machine, K: Keeper<M::Body>>(
    alloc: Global,
    post: &Post<M::Body>,
    machine: M,
    keeper: &mut K,
) -> Result<(Ready<M::Body>, AppliedLog<M>), ActorFault<M::Say>>
    ensures ok { IfOk result (λ it. Readied M.Body.same M.loaded K.holds K.finds K.is_faithful K.is_failed K.failures post.now
        keeper.old keeper.new it.0) }
    ensures log { IfOk result (λ it. IsFirstLog M.content M.loaded machine it.0.rows.snapshot it.1) }
    ensures err { IfErr result (Refuses M.Body.same M.loaded K.holds K.finds K.is_faithful K.failures post.now keeper.old keeper.new) }
{
    let (found, meant) = find::<M, K>(alloc, post, keeper)?;
    let log = first_log(alloc, machine, &found)?;
    let (rows, outboxes) = boot_up(alloc, post.me(), post.members(), keeper)?;
    if !is_later(&found, &rows) {
        return Err(ActorFault::Keeper(KeeperFault::Damaged));
    }
    let ready = Ready {
        rows,
        outboxes,
        meant,
    };
    Ok((ready, log))
}

// Loads the rows of the store, if the node may begin with them. Returns them, and whether they are those that the failed commit was to leave.
fn find<M: Machine, K: Keeper<M::Body>>(
    alloc: Global,
    post: &Post<M::Body>,
    keeper: &mut K,
) -> Result<(Rows<M::Body>, bool), ActorFault<M::Say>>
    ensures ok { IfOk result (λ it. Fits M.Body.same K.holds K.finds K.is_faithful K.failures post.now keeper.old keeper.new it.0 it.1) }
    ensures err { IfErr result (Refuses M.Body.same M.loaded K.holds K.finds K.is_faithful K.failures post.now keeper.old keeper.new) }
{
    match post.rows() {
        None => find_first::<M, K>(post, keeper),
        Some(kept) => find_again::<M, K>(alloc, post, kept, keeper),
    }
}

// Loads the rows of the store for a node that was never opened.
fn find_first<M: Machine, K: Keeper<M::Body>>(
    post: &Post<M::Body>,
    keeper: &mut K,
) -> Result<(Rows<M::Body>, bool), ActorFault<M::Say>>
    requires { post.now.rows ≡ None }
    ensures ok { IfOk result (λ it. Fits M.Body.same K.holds K.finds K.is_faithful K.failures post.now keeper.old keeper.new it.0 it.1) }
    ensures err { IfErr result (Refuses M.Body.same M.loaded K.holds K.finds K.is_faithful K.failures post.now keeper.old keeper.new) }
{
    if post.events() >= MOST_EVENTS {
        return Err(ActorFault::Worn);
    }
    match keeper.load() {
        Ok(rows) => Ok((rows, false)),
        Err(fault) => Err(ActorFault::Keeper(fault)),
    }
}

// Loads the rows of the store for a node that was opened, and had these rows.
fn find_again<M: Machine, K: Keeper<M::Body>>(
    alloc: Global,
    post: &Post<M::Body>,
    kept: &Rows<M::Body>,
    keeper: &mut K,
) -> Result<(Rows<M::Body>, bool), ActorFault<M::Say>>
    requires { post.now.rows ≡ Some kept.now }
    ensures ok { IfOk result (λ it. Found M.Body.same K.holds K.finds K.is_faithful K.failures post.now keeper.old keeper.new it.0 it.1) }
    ensures err { IfErr result (Refuses M.Body.same M.loaded K.holds K.finds K.is_faithful K.failures post.now keeper.old keeper.new) }
{
    let rows = match keeper.load() {
        Ok(rows) => rows,
        Err(fault) => return Err(ActorFault::Keeper(fault)),
    };
    match fit_of(alloc, post.change(), kept, &rows) {
        Err(_) => Err(ActorFault::Memory),
        Ok(fit) => judged(fit, post.events(), post.count(), rows),
    }
}

// Returns the rows, if the node may go on from them, and its word can count the events that are to come.
fn judged<B: Drop, Y: Drop>(
    fit: Fit,
    events: u64,
    count: u64,
    rows: Rows<B>,
) -> Result<(Rows<B>, bool), ActorFault<Y>>
    ensures ok { IfOk result (λ it. (it.0 ≡ rows) × (judge_of {Y = Y} fit events count ≡ Ok it.1)) }
    ensures err { IfErr result (λ fault. judge_of fit events count ≡ Err fault) }
{
    let meant = judge(fit, events, count)?;
    Ok((rows, meant))
}

// Returns whether the steps of the events whose commit failed come first.
fn judge<Y: Drop>(fit: Fit, events: u64, count: u64) -> Result<bool, ActorFault<Y>>
    ensures { result ≡ judge_of fit events count }
{
    match fit {
        Fit::Others => Err(ActorFault::Keeper(KeeperFault::Damaged)),
        Fit::Left => {
            if events < MOST_EVENTS {
                Ok(false)
            } else {
                Err(ActorFault::Worn)
            }
        }
        Fit::Meant => {
            if events.saturating_add(count) < MOST_EVENTS {
                Ok(true)
            } else {
                Err(ActorFault::Worn)
            }
        }
    }
}

// Returns the log with which a node begins over these rows: one that is made of their snapshot; without one the empty log, with this machine.
// `Damaged` if no log is made of the snapshot.
fn first_log<M: Machine>(
    alloc: Global,
    machine: M,
    rows: &Rows<M::Body>,
) -> Result<AppliedLog<M>, ActorFault<M::Say>>
    ensures ok { IfOk result (IsFirstLog M.content M.loaded machine rows.now.snapshot) }
    ensures readable { OnOk result (is_no_log M.loaded rows.now.snapshot ≡ false) }
    ensures err { IfErr result (IsUnmade M.loaded rows.now.snapshot) }
{
    match load_log(alloc, &rows.snapshot) {
        Ok(Some(made)) => {
            drop(machine);
            Ok(Box::into_inner(made))
        },
        Ok(None) => Ok(AppliedLog::new(alloc, machine)),
        Err(LoadFault::Damaged) => {
            drop(machine);
            Err(ActorFault::Keeper(KeeperFault::Damaged))
        },
        Err(LoadFault::Memory) => {
            drop(machine);
            Err(ActorFault::Memory)
        },
    }
}

// Creates empty outboxes, and begins a boot of the store. Returns its rows, and the outboxes.
fn boot_up<B: Body, K: Keeper<B>, Y: Drop>(
    alloc: Global,
    me: u8,
    members: Members,
    keeper: &mut K,
) -> Result<(Rows<B>, Outboxes<B>), ActorFault<Y>>
    ensures boots { IfOk result (λ up. Boots K.holds K.is_faithful keeper.old keeper.new up.0) }
    ensures whole { IfOk result (λ up. K.is_failed keeper.new ≡ false) }
    ensures empty { IfOk result (λ up. IsEmpty me members up.1) }
    ensures starts { IfErr result (λ fault. Starts K.holds K.finds K.failures keeper.old keeper.new fault) }
    ensures sound { IfErr result (λ fault. NoDamage K.holds K.is_faithful keeper.old keeper.new fault) }
    ensures unworn { IfErr result (λ fault. fault ≡ ActorFault.Worn → ⊥) }
    ensures found { (r : Rows B) → K.holds keeper.old r → FindsOr K.finds keeper.old keeper.new (raised r) }
    ensures faithful { K.is_faithful keeper.new → K.is_faithful keeper.old }
{
    let Ok(outboxes) = Outboxes::new(alloc, me, members) else {
        return Err(ActorFault::Memory);
    };
    match keeper.boot() {
        Err(fault) => Err(ActorFault::Keeper(fault)),
        Ok(rows) => Ok((rows, outboxes)),
    }
}
