// How an actor opens for the first time, and restarts from its post.
ghost use Rattle.std.specs.Prelude.{◌≡◌, false, None, IfOk, IfErr};
ghost use Rattle.paxos_packets.specs.Members.{IsMember};
ghost use Rattle.paxos_packets.specs.declared.rows.Rows.{Rows};
ghost use Rattle.paxos_node.specs.declared.view.Opened.TheVariants.{Never};
ghost use Rattle.actor_parts.specs.Snapshots.{is_no_log};
ghost use Rattle.mail_table.specs.Seats.{Owns};
ghost use Rattle.node_actor.specs.Posts.{LeftOf};
ghost use Rattle.node_actor.specs.Preparing.{HasOthers, Refuses};
ghost use Rattle.node_actor.specs.Restarts.{Opens, OpensFirst, Resumes, Shuts};
ghost use Rattle.node_actor.specs.Views.{View};

use crate::actor::Actor;
use crate::beginning::{Begun, begin};
use crate::post::Post;
use actor_parts::{ActorFault, Parts};
use mail_table::{Mail, NodeSeat};
use paxos_packets::Members;
use replica_machine::Machine;
use std::alloc::Global;
use store_keeper::{Keeper, KeeperFault};

impl<M: Machine, K: Keeper<M::Body>> Actor<M, K> {
    /// Opens a node that was never opened, at its seat: begins a boot in the store, and the node of this number, of these members, has the
    /// store's rows. The machine is to follow its log; if the rows have a snapshot, one that is made of this follows it instead. After a fault
    /// the store is handed back, and a post by which `restart` opens the node. Never `KeeperFault::Damaged` if the store holds rows whose
    /// snapshot a log is made of, if they have one, and returns what was written.
    pub fn open(
        alloc: Global,
        mail: &Mail<M::Body>,
        seat: NodeSeat<M::Body>,
        me: u8,
        members: Members,
        machine: M,
        keeper: K,
    ) -> Result<Actor<M, K>, (ActorFault<M::Say>, Post<M::Body>, K)>
        requires owned { Owns mail.now seat }
        requires member { IsMember members me }
        requires node { seat.part.me ≡ me }
        requires table { seat.members ≡ members }
        requires fresh { seat.part.seen.opened ≡ Never }
        requires machine { M.has_failed machine ≡ false }
        ensures opens { IfOk result (λ actor. Opens M.Body.same M.steps M.content M.loaded K.holds K.is_faithful
            (record { me = me; members = members; rows = None; failed = None; seat = seat }) machine keeper actor) }
        ensures first { IfOk result (OpensFirst K.holds me seat) }
        ensures refuses { IfErr result (λ left. Refuses M.Body.same M.loaded K.holds K.finds K.is_faithful K.failures
            (record { me = me; members = members; rows = None; failed = None; seat = seat }) keeper left.2 left.0) }
        ensures sound { (r : Rows M.Body) → K.holds keeper r → is_no_log M.loaded r.snapshot ≡ false → IfErr result (λ left.
            K.is_faithful left.2 → left.0 ≡ ActorFault.Keeper KeeperFault.Damaged → ⊥) }
        ensures shuts { IfErr result (λ left. Shuts M.Body.same K.holds K.finds K.is_faithful K.failures
            (record { me = me; members = members; rows = None; failed = None; seat = seat }) keeper left.0 left.1 left.2) }
        ensures owned { IfOk result (λ actor. Owns mail.now actor.seat) }
        ensures still_owned { IfErr result (λ left. Owns mail.now left.1.seat) }
    {
        let post = Post::of(me, members, None, None, seat);
        Actor::restart(alloc, mail, post, machine, keeper)
    }

    /// Goes on from what is left of an actor, with its store opened again and the machine in its first content. Opens the node if it was
    /// never opened; otherwise takes the steps of the events whose commit failed, if the store has the rows that it was to leave, and
    /// begins the next boot. The log is that of the snapshot in the rows, of which a machine is made before the boot begins; without one it is empty,
    /// and this machine follows it.
    ///
    /// `KeeperFault::Damaged` if the store has other rows than the node had, and than the failed commit was to leave, or if no log is made of
    /// their snapshot; no boot is begun then. Never otherwise if the store returns what was written. `Worn` if the node's word cannot count
    /// more events. After a fault the post and the store are handed back, and serve again.
    pub fn restart(
        alloc: Global,
        mail: &Mail<M::Body>,
        post: Post<M::Body>,
        machine: M,
        keeper: K,
    ) -> Result<Actor<M, K>, (ActorFault<M::Say>, Post<M::Body>, K)>
        requires owned { Owns mail.now post.seat }
        requires machine { M.has_failed machine ≡ false }
        ensures opens { IfOk result (λ actor.
            Opens M.Body.same M.steps M.content M.loaded K.holds K.is_faithful post machine keeper actor) }
        ensures resumes { (view : View M.Body) (r : Rows M.Body) → LeftOf M.Body.same post view → K.holds keeper r →
            IfOk result (λ actor. K.is_faithful actor.keeper → Resumes M.Body.same post view r actor) }
        ensures refuses { IfErr result (λ left.
            Refuses M.Body.same M.loaded K.holds K.finds K.is_faithful K.failures post keeper left.2 left.0) }
        ensures exact { (r : Rows M.Body) → K.holds keeper r → IfErr result (λ left.
            K.is_faithful left.2 → left.0 ≡ ActorFault.Keeper KeeperFault.Damaged → HasOthers M.Body.same M.loaded post r) }
        ensures shuts { IfErr result (λ left. Shuts M.Body.same K.holds K.finds K.is_faithful K.failures post keeper left.0 left.1 left.2) }
        ensures owned { IfOk result (λ actor. Owns mail.now actor.seat) }
        ensures still_owned { IfErr result (λ left. Owns mail.now left.1.seat) }
    {
        let mut keeper = keeper;
        match begin(alloc, mail, post, machine, &mut keeper) {
            Err((fault, post)) => Err((fault, post, keeper)),
            Ok((begun, log)) => {
                let Begun {
                    node,
                    outboxes,
                    seat,
                } = begun;
                Ok(Actor::of(Parts::of(alloc, node, outboxes, keeper, log), seat))
            },
        }
    }
}
