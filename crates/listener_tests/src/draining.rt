// What is left in a ring once its reader has finished.
ghost use Rattle.std.specs.Prelude.{◌≡◌, IfOk};
ghost use Rattle.rtrb.specs.Ring.{IsFinishedOf, SameConsumer};

use crate::check::Check;
use crate::reading::{ASKED, letter, next_letter};
use crate::streams::AtOnce;
use client_listener::{FromClient, drain, read_transport};
use rtrb::{Consumer, Finished, RingBuffer};
use std::alloc::Global;
use std::panic::Expect;
use std::process::Abort;
use std::test::Fail;
use test_checks::{check, check_eq};

// The letters of items.
fn letters_of(rt: &impl Abort, alloc: Global, items: &[FromClient]) -> String {
    let mut letters = String::new(alloc);
    for item in items {
        letters.push(letter(item)).expect(rt, "room for a letter");
    }
    letters
}

// The letters of what is left.
fn letters_left(
    rt: &impl Abort,
    alloc: Global,
    consumer: &mut Consumer<FromClient>,
    finished: Finished<FromClient>,
) -> String
    requires { IsFinishedOf finished consumer.old }
{
    match drain(alloc, consumer, finished) {
        Ok(left) => {
            let letters = letters_of(rt, alloc, &left);
            drop(left);
            letters
        }
        Err(refused) => {
            drop(refused);
            rt.panic("no memory")
        }
    }
}

// The letters of the next three items.
fn three(consumer: &mut Consumer<FromClient>) -> [Option<char>; 3]
    ensures { SameConsumer consumer.old consumer.new }
{
    let first = next_letter(consumer);
    let second = next_letter(consumer);
    let third = next_letter(consumer);
    [first, second, third]
}

// A ring into which a client's frames were read to their end.
fn finished_ring(alloc: Global) -> Result<(Finished<FromClient>, Consumer<FromClient>), Fail>
    ensures { IfOk result (λ ring. IsFinishedOf ring.0 ring.1) }
{
    let (producer, consumer) = RingBuffer::new(alloc, 64)?;
    let mut asked = ASKED;
    let (_outcome, finished) = read_transport(&AtOnce, alloc, &mut asked, producer, 1000);
    match finished {
        Some(finished) => Ok((finished, consumer)),
        None => {
            drop(consumer);
            Err(Fail::from("the ring's other end is there"))
        }
    }
}

// Three items are taken, and then what is left.
fn drains(
    rt: &impl Abort,
    alloc: Global,
    consumer: &mut Consumer<FromClient>,
    finished: Finished<FromClient>,
)
    requires { IsFinishedOf finished consumer.old }
{
    let taken = three(consumer);
    let left = letters_left(rt, alloc, consumer, finished);
    check!(rt; taken == [Some('C'), Some('R'), Some('R')]);
    check_eq!(rt; left.as_str(), "RRPH");
    drop(left);
    check_eq!(rt; next_letter(consumer), None);
}

#[test]
fn what_is_left_comes_after_what_was_taken(rt: HostRuntime) -> Result<(), Fail> {
    let (finished, mut consumer) = finished_ring(rt.alloc())?;
    drains(&rt, rt.alloc(), &mut consumer, finished);
    drop(consumer);
    Ok(())
}
