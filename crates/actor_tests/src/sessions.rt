// Sessions of three actors with a realm, whose seats are gathered in the end.
ghost use Rattle.std.specs.Prelude.{◌≡◌};
ghost use Rattle.mail_table.specs.Seats.{Owns};

use crate::actors::{Life, all_turns, live, live_by_rounds, turn};
use crate::check::Check;
use crate::hearing::{Heard, Told, hear, is_log};
use crate::realms::{are_said, realm, said};
use mail_table::Mail;
use node_actor::{Actor, Keeper, Machine};
use realm_machine::{Act, Say};
use realm_snapshot::KeptRealm;
use std::alloc::Global;
use std::process::Abort;
use store_keeper::MemKeeper;
use test_checks::check;

type Serving = Actor<KeptRealm, MemKeeper<Act>>;

// What becomes of node 2.
#[derive(Clone, Copy)]
enum Fate {
    Stays,
    IsLost,
    Returns,
}

// What node 1 does.
#[derive(Clone, Copy)]
enum Does {
    Starts,
    SuspectsTwo,
}

fn first_does<M: Machine, K: Keeper<M::Body>>(
    rt: &impl Abort,
    mail: &Mail<M::Body>,
    one: &mut Actor<M, K>,
    heard: &mut Heard<M::Say>,
    does: Does,
)
    requires { Owns mail.now one.old.seat }
    ensures { Owns mail.now one.new.seat }
{
    let done = match does {
        Does::Starts => one.start(mail),
        Does::SuspectsTwo => one.suspect(mail, 2),
    };
    hear(rt, heard, 1, done);
}

// A client of node 2 does this.
fn takes<M: Machine, K: Keeper<M::Body>>(
    rt: &impl Abort,
    mail: &Mail<M::Body>,
    two: &mut Actor<M, K>,
    heard: &mut Heard<M::Say>,
    act: M::Body,
)
    requires { Owns mail.now two.old.seat }
    ensures { Owns mail.now two.new.seat }
{
    let done = two.take(mail, 1, act);
    hear(rt, heard, 2, done);
}

// Node 1 leads, and a client of node 2 connects and joins.
fn joins<M: Machine, K: Keeper<M::Body>>(
    rt: &impl Abort,
    mail: &Mail<M::Body>,
    one: &mut Actor<M, K>,
    two: &mut Actor<M, K>,
    three: &mut Actor<M, K>,
    heard: &mut Heard<M::Say>,
    connect: M::Body,
    hello: M::Body,
)
    requires one { Owns mail.now one.old.seat }
    requires two { Owns mail.now two.old.seat }
    requires three { Owns mail.now three.old.seat }
    ensures one { Owns mail.now one.new.seat }
    ensures two { Owns mail.now two.new.seat }
    ensures three { Owns mail.now three.new.seat }
{
    first_does(rt, mail, one, heard, Does::Starts);
    all_turns(rt, mail, one, two, three, heard);
    takes(rt, mail, two, heard, connect);
    takes(rt, mail, two, heard, hello);
    all_turns(rt, mail, one, two, three, heard);
}

const FOUR: &[Told] = &[
    ('b', 1, 1, 0),
    ('b', 2, 1, 0),
    ('i', 2, 1, 1),
    ('i', 2, 1, 2),
];

const FIVE: &[Told] = &[
    ('b', 1, 1, 0),
    ('b', 2, 1, 0),
    ('i', 2, 1, 1),
    ('i', 2, 1, 2),
    ('l', 2, 1, 0),
];

const SIX: &[Told] = &[
    ('b', 1, 1, 0),
    ('b', 2, 1, 0),
    ('i', 2, 1, 1),
    ('i', 2, 1, 2),
    ('l', 2, 1, 0),
    ('b', 2, 2, 0),
];

fn have_log<M: Machine, K: Keeper<M::Body>>(
    rt: &impl Abort,
    one: &Actor<M, K>,
    two: &Actor<M, K>,
    three: &Actor<M, K>,
    wants: &[Told],
) {
    is_log(rt, one.log(), wants);
    is_log(rt, two.log(), wants);
    is_log(rt, three.log(), wants);
}

// How often each node turns at most until node 2 is lost, and how often nodes 1 and 3 turn after that.
const MOST_ROUNDS: u32 = 1_000;

const TURNS_AFTER: u32 = 10;

// The node whose turn fails, and its fault: it is lost in its present boot.
const LOST: &[(u8, u8)] = &[(2, 73)];

// The nodes turn, one after another, until a turn of node 1 or 2 has failed, which is the last one then.
fn turn_until_one_fails<M: Machine, K: Keeper<M::Body>>(
    rt: &impl Abort,
    mail: &Mail<M::Body>,
    one: &mut Actor<M, K>,
    two: &mut Actor<M, K>,
    three: &mut Actor<M, K>,
    heard: &mut Heard<M::Say>,
)
    requires one { Owns mail.now one.old.seat }
    requires two { Owns mail.now two.old.seat }
    requires three { Owns mail.now three.old.seat }
    ensures one { Owns mail.now one.new.seat }
    ensures two { Owns mail.now two.new.seat }
    ensures three { Owns mail.now three.new.seat }
{
    for _ in 0..MOST_ROUNDS {
        turn(rt, mail, one, heard);
        turn(rt, mail, two, heard);
        if !heard.faults.is_empty() {
            return;
        }
        turn(rt, mail, three, heard);
    }
    panic!(rt; "node 2 goes on")
}

// Nodes 1 and 3 take ten turns each.
fn turn_on<M: Machine, K: Keeper<M::Body>>(
    rt: &impl Abort,
    mail: &Mail<M::Body>,
    one: &mut Actor<M, K>,
    three: &mut Actor<M, K>,
    heard: &mut Heard<M::Say>,
)
    requires one { Owns mail.now one.old.seat }
    requires three { Owns mail.now three.old.seat }
    ensures one { Owns mail.now one.new.seat }
    ensures three { Owns mail.now three.new.seat }
{
    for _ in 0..TURNS_AFTER {
        turn(rt, mail, one, heard);
        turn(rt, mail, three, heard);
    }
}

// One turn of node 2 reports its loss, once node 1 takes it to be lost; nodes 1 and 3 go on.
fn is_lost<M: Machine, K: Keeper<M::Body>>(
    rt: &impl Abort,
    mail: &Mail<M::Body>,
    one: &mut Actor<M, K>,
    two: &mut Actor<M, K>,
    three: &mut Actor<M, K>,
    heard: &mut Heard<M::Say>,
)
    requires one { Owns mail.now one.old.seat }
    requires two { Owns mail.now two.old.seat }
    requires three { Owns mail.now three.old.seat }
    ensures one { Owns mail.now one.new.seat }
    ensures two { Owns mail.now two.new.seat }
    ensures three { Owns mail.now three.new.seat }
{
    first_does(rt, mail, one, heard, Does::SuspectsTwo);
    turn_until_one_fails(rt, mail, one, two, three, heard);
    turn_on(rt, mail, one, three, heard);
    check!(rt; heard.faults.as_slice() == LOST);
    is_log(rt, one.log(), FIVE);
    is_log(rt, two.log(), &[]);
    is_log(rt, three.log(), FIVE);
}

// The session, and then, if so, the loss of node 2. Returns whether it begins again.
fn lives<M: Machine, K: Keeper<M::Body>>(
    rt: &impl Abort,
    mail: &Mail<M::Body>,
    one: &mut Actor<M, K>,
    two: &mut Actor<M, K>,
    three: &mut Actor<M, K>,
    heard: &mut Heard<M::Say>,
    connect: M::Body,
    hello: M::Body,
    fate: Fate,
) -> bool
    requires one { Owns mail.now one.old.seat }
    requires two { Owns mail.now two.old.seat }
    requires three { Owns mail.now three.old.seat }
    ensures one { Owns mail.now one.new.seat }
    ensures two { Owns mail.now two.new.seat }
    ensures three { Owns mail.now three.new.seat }
{
    joins(rt, mail, one, two, three, heard, connect, hello);
    have_log(rt, one, two, three, FOUR);
    check!(rt; heard.faults.is_empty());
    if let Fate::Stays = fate {
        return false;
    }
    is_lost(rt, mail, one, two, three, heard);
    matches!(fate, Fate::Returns)
}

// Node 2, which has begun again, reports its next boot, and learns what it lacks.
fn tells<M: Machine, K: Keeper<M::Body>>(
    rt: &impl Abort,
    mail: &Mail<M::Body>,
    one: &mut Actor<M, K>,
    two: &mut Actor<M, K>,
    three: &mut Actor<M, K>,
    heard: &mut Heard<M::Say>,
)
    requires one { Owns mail.now one.old.seat }
    requires two { Owns mail.now two.old.seat }
    requires three { Owns mail.now three.old.seat }
    ensures one { Owns mail.now one.new.seat }
    ensures two { Owns mail.now two.new.seat }
    ensures three { Owns mail.now three.new.seat }
{
    let done = two.tick(mail);
    hear(rt, heard, 2, done);
    all_turns(rt, mail, one, two, three, heard);
    have_log(rt, one, two, three, SIX);
}

const WELCOME: &[&str] = &["[2,1,{"];

const SHUTDOWN: &[&str] = &["[6,{},\"wamp.close.system_shutdown\"]", "close"];

// What becomes of node 2, the lengths of the logs in the end, and what is said to its client last.
const ENDS: &[(Fate, [u64; 7], &[&str])] = &[
    (Fate::Stays, [4, 4, 4, 0, 0, 0, 0], &[]),
    (Fate::IsLost, [5, 0, 5, 0, 0, 0, 0], SHUTDOWN),
    (Fate::Returns, [6, 6, 6, 0, 0, 0, 0], SHUTDOWN),
];

// A session, after which this becomes of node 2.
#[derive(Drop)]
struct Session<'a, R> {
    rt: &'a R,
    alloc: Global,
    fate: Fate,
    lengths: &'a [u64; 7],
    last: &'a [&'a str],
}

impl<R: Abort> Life<KeptRealm, MemKeeper<Act>> for Session<'_, R> {
    fn machine(&self) -> KeptRealm {
        realm(self.rt, self.alloc)
    }

    fn keeper(&self) -> MemKeeper<Act> {
        MemKeeper::new(self.alloc)
    }

    fn reopened(&self, keeper: MemKeeper<Act>) -> MemKeeper<Act> {
        keeper.reopen()
    }

    fn live(
        &mut self,
        mail: &Mail<Act>,
        one: &mut Serving,
        two: &mut Serving,
        three: &mut Serving,
        heard: &mut Heard<Say>,
    ) -> bool {
        let hello = said(self.rt, self.alloc, "[1,\"realm1\",{}]");
        lives(
            self.rt,
            mail,
            one,
            two,
            three,
            heard,
            Act::Connect,
            hello,
            self.fate,
        )
    }

    fn live_on(
        &mut self,
        mail: &Mail<Act>,
        one: &mut Serving,
        two: &mut Serving,
        three: &mut Serving,
        heard: &mut Heard<Say>,
    ) {
        tells(self.rt, mail, one, two, three, heard);
    }

    fn end(&self, heard: &Heard<Say>, lengths: &[u64; 7]) {
        check!(self.rt; lengths == self.lengths);
        are_said(self.rt, self.alloc, heard.says.as_slice(), WELCOME);
        are_said(self.rt, self.alloc, heard.lost.as_slice(), self.last);
    }
}

#[test]
fn logs_are_gathered_by_rounds(rt: HostRuntime) {
    for (fate, lengths, last) in ENDS {
        let mut session = Session {
            rt: &rt,
            alloc: rt.alloc(),
            fate: *fate,
            lengths,
            last,
        };
        live_by_rounds::<KeptRealm, MemKeeper<Act>, _>(&rt, rt.alloc(), &mut session);
    }
}

#[test]
fn logs_are_gathered(rt: HostRuntime) {
    for (fate, lengths, last) in ENDS {
        let mut session = Session {
            rt: &rt,
            alloc: rt.alloc(),
            fate: *fate,
            lengths,
            last,
        };
        live::<KeptRealm, MemKeeper<Act>, _>(&rt, rt.alloc(), &mut session);
    }
}
