// A realm, what its clients say, and what it says to them.
ghost use Rattle.std.specs.Prelude.{◌≡◌, false};
ghost use Rattle.realm_machine.specs.Machine.{has_failed};

use crate::check::Check;
use node_actor::Entry;
use realm_machine::{Act, Id, Limits, Out, Realm, Say, Shared, Transport};
use realm_snapshot::KeptRealm;
use replica_machine::AppliedLog;
use std::alloc::Global;
use std::panic::Expect;
use std::process::Abort;
use test_checks::check;
use wamp_messages::{Memory, read, write};

const LIMITS: Limits = Limits {
    sessions: 4,
    registrations: 4,
    subscriptions: 4,
    calls: 4,
};

/// A new realm.
pub fn realm(rt: &impl Abort, alloc: Global) -> KeptRealm
    ensures { has_failed result ≡ false }
{
    let name = String::from_str(alloc, "realm1").expect(rt, "memory for a name");
    KeptRealm::new(Realm::new(alloc, name, LIMITS))
}

/// The octets of a log of one entry, which a new realm has followed.
pub fn saved_realm(rt: &impl Abort, alloc: Global) -> Vec<u8> {
    let mut log = AppliedLog::new(alloc, realm(rt, alloc));
    let entries = vec![in alloc; Entry::Boot { node: 1, boot: 1 }].expect(rt, "room for an entry");
    drop(log.append(entries).expect(rt, "a log of one entry"));
    let octets = log.save().expect(rt, "room for octets");
    drop(log);
    octets
}

/// A client says this; the draw for it is 1.
pub fn said(rt: &impl Abort, alloc: Global, text: &str) -> Act {
    let draw = Id::new(1).expect(rt, "an id");
    let Ok(read) = read(alloc, text.as_bytes()) else {
        panic!(rt; "no memory for what is read")
    };
    match Shared::new(alloc, read) {
        Ok(read) => Act::Said { draw, read },
        Err(_) => panic!(rt; "no memory for what is said"),
    }
}

fn spelled(alloc: Global, out: &Out) -> Result<Vec<u8>, Memory> {
    match out {
        Out::Send(message) => write(alloc, message),
        Out::Close => Ok(Vec::from_slice(alloc, b"close")?),
    }
}

const AT_TWO: Transport = Transport {
    node: 2,
    boot: 1,
    number: 1,
};

// Whether this was said to the transport 1 of node 2 in its boot 1: how it begins.
fn is_said(rt: &impl Abort, alloc: Global, say: &Say, want: &str) -> bool {
    let Ok(text) = spelled(alloc, &say.out) else {
        panic!(rt; "no memory for what is said")
    };
    let begins = text.as_slice().starts_with(want.as_bytes());
    drop(text);
    begins && say.transport == AT_TWO
}

/// Asserts that these texts were said to the transport 1 of node 2 in its boot 1, and nothing else: how they begin.
pub fn are_said(rt: &impl Abort, alloc: Global, says: &[Say], wants: &[&str]) {
    check!(rt; says.len() == wants.len());
    for (say, want) in says.iter().zip(wants) {
        check!(rt; is_said(rt, alloc, say, want));
    }
}
