//! Laws of a world whose machines are realms, each the contract of a function that does nothing.
ghost use Rattle.std.specs.Prelude.{List};
ghost use Rattle.paxos_node.specs.declared.event.Event.{Event};
ghost use Rattle.realm_acts.specs.declared.act.Act.{Act};
ghost use Rattle.realm_acts.specs.Act.{same_act};
ghost use Rattle.realm_machine.specs.Config.{Config};
ghost use Rattle.realm_machine.specs.Laws.{live_realm};
ghost use Rattle.realm_machine.specs.Machine.{live_of};
ghost use Rattle.realm_snapshot.specs.Snapshot.{loaded};
ghost use Rattle.realm_snapshot.specs.Writing.{saved};
ghost use Rattle.cluster_world.specs.Saving.{played_of};
ghost use Rattle.cluster_world.specs.StandsAt.{ShowsAt, StandsAt};
ghost use Rattle.cluster_world.specs.World.{played};
ghost use Rattle.replicated_laws.specs.Replicated.{AreSoundAlongLogs, RepliesAnswerCallsAlongLogs, RealmsFollow, AnswersAreOfRealms};

use cluster_world::World;
use realm_snapshot::KeptRealm;

/// Along the log of each node the realm's laws hold: at each prefix there is at most one registration for each text and match, each has a
/// callee, and one under `single` has exactly one; everything else that every realm keeps, and what its open calls keep, holds there, too.
/// For each transport and request, every final reply comes after a CALL that took effect, and no two after the same one.
///
/// If all realms were made with one configuration, each realm that has not been given up has the content of the written realm after the log
/// that it has applied, which is its node's log while that is up; and each transport of the present boot of a node that is up was handed
/// what the written realm says to it along that node's log. Does not allocate.
pub fn replicated_realm(world: &World<KeptRealm>)
    ensures sound { (es : List (Event Act)) → ShowsAt same_act world.now es → AreSoundAlongLogs (played same_act world.now.members es) }
    ensures replies { (es : List (Event Act)) → ShowsAt same_act world.now es →
        RepliesAnswerCallsAlongLogs (played same_act world.now.members es) }
    ensures realms { (config : Config) (es : List (Event Act)) →
        StandsAt same_act live_of saved loaded (live_realm config) world.now es →
        RealmsFollow config world.now (played_of saved (live_realm config) same_act world.now.members es) }
    ensures answers { (config : Config) (es : List (Event Act)) →
        StandsAt same_act live_of saved loaded (live_realm config) world.now es →
        AnswersAreOfRealms config world.now (played_of saved (live_realm config) same_act world.now.members es) }
{
    let _ = world.members().count();
}
