// A machine by its trait alone, one that adds up, and the fault of a failed one.
ghost use Rattle.std.specs.Prelude.{◌≡◌, OnOk, fold};

use crate::check::Check;
use paxos_packets::Transport;
use replica_machine::{Failed, Input, Machine};
use std::process::Abort;
use test_checks::check_eq;
use test_machines::{Count, Number};

// Applies inputs in order: from the trait alone, a machine folds `next` over them.
fn follow<M: Machine>(machine: &mut M, inputs: &[Input<M::Body>]) -> Result<(), Failed>
    ensures { OnOk result (M.content machine.new ≡ fold M.steps.next (M.content machine.old) inputs.now) }
{
    for input in inputs {
        machine.apply(input)?;
    }
    Ok(())
}

#[test]
fn a_failed_machine_is_48(rt: HostRuntime) {
    check_eq!(&rt; Failed.number(), 48);
    let told = format!(in rt.alloc(); "{}", Failed).expect(&rt, "room for a text");
    check_eq!(&rt; told.as_str(), "the machine has failed");
}

const FROM: Transport = Transport {
    node: 2,
    boot: 3,
    number: 4,
};

// Another item of the transport.
fn said(rt: &impl Abort, count: &mut Count) -> u64 {
    let said = count
        .apply(&Input::Item {
            transport: FROM,
            body: Number::new(7),
        })
        .expect(rt, "what is said");
    match said.as_slice() {
        [(transport, sum)] if *transport == FROM => *sum,
        _ => 0,
    }
}

fn adds_up(rt: &impl Abort, count: &mut Count) {
    follow(
        count,
        &[
            Input::Boot { node: 2, boot: 3 },
            Input::Item {
                transport: FROM,
                body: Number::new(5),
            },
        ],
    )
    .expect(rt, "a machine that goes on");
    check_eq!(rt; count.sum(), 5);
    check_eq!(rt; said(rt, count), 12);
    check_eq!(rt; Count::to(&(FROM, 12)), FROM);
}

#[test]
fn counts(rt: HostRuntime) {
    let mut count = Count::new(rt.alloc());
    adds_up(&rt, &mut count);
}
