// Rings between two threads: what one puts for a client's octets the other takes, and what one hands over the other writes.
use crate::check::Check;
use crate::reading::next_letter;
use crate::streams::{COUNT, FRAME, frames};
use crate::writing::message_of;
use client_listener::{FromClient, ToClient, read_transport, write_transport};
use rtrb::{Consumer, Producer, PushError, RingBuffer};
use std::alloc::Global;
use std::panic::Expect;
use std::thread;
use test_checks::{check, check_eq};

// How many messages come out of a ring, up to the last item.
fn count_messages(consumer: Consumer<FromClient>) -> u32 {
    let mut consumer = consumer;
    let mut messages: u32 = 0;
    for _ in 0..u64::MAX {
        match next_letter(&mut consumer) {
            Some('R') => messages = messages.saturating_add(1),
            Some('H') => break,
            Some(_) => {}
            None => thread::yield_now(),
        }
    }
    messages
}

#[test]
fn ten_thousand_messages_are_read_for_another_thread(rt: HostRuntime) {
    let octets = frames(&rt, rt.alloc());
    let mut asked = octets.as_slice();
    let (producer, consumer) = RingBuffer::new(rt.alloc(), 64).expect(&rt, "a ring");
    let (messages, outcome) = thread::join(
        &rt,
        move || count_messages(consumer),
        || read_transport(&rt, rt.alloc(), &mut asked, producer, u64::MAX).0,
    );
    check!(&rt; outcome == Ok(()));
    check_eq!(&rt; messages, COUNT);
    drop(octets);
}

// Hands an item over as soon as the ring has room for it.
fn hand<T: Drop>(producer: &mut Producer<T>, item: T) {
    let mut item = item;
    for _ in 0..u64::MAX {
        match producer.push(item) {
            Ok(()) => return,
            Err(PushError::Full(back)) => item = back,
        }
        thread::yield_now();
    }
}

// Hands a message over, if it could be made.
fn hand_message(alloc: Global, producer: &mut Producer<ToClient>) -> bool {
    match message_of(alloc, &FRAME[4..]) {
        Some(item) => {
            hand(producer, item);
            true
        }
        None => false,
    }
}

// Hands the messages over, and then the end. Returns how many messages there were.
fn hand_all(alloc: Global, producer: Producer<ToClient>) -> u32 {
    let mut producer = producer;
    let mut handed: u32 = 0;
    for _ in 0..COUNT {
        if hand_message(alloc, &mut producer) {
            handed = handed.saturating_add(1);
        }
    }
    hand(&mut producer, ToClient::Close);
    handed
}

#[test]
fn ten_thousand_messages_of_another_thread_are_written(rt: HostRuntime) {
    let alloc = rt.alloc();
    let mut written = Vec::new(alloc);
    let (producer, consumer) = RingBuffer::new(alloc, 64).expect(&rt, "a ring");
    let (handed, outcome) = thread::join(
        &rt,
        move || hand_all(alloc, producer),
        || write_transport(&rt, alloc, consumer, &mut written, 512, u64::MAX),
    );
    check!(&rt; outcome == Ok(()));
    check_eq!(&rt; handed, COUNT);
    let wanted = frames(&rt, alloc);
    check!(&rt; written.as_slice() == wanted.as_slice());
    drop(wanted);
    drop(written);
}
