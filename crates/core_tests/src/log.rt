// The applied log and the roll: which entries take effect, faults, and logs that are saved, loaded and cut, with their heads.
use crate::check::Check;
use replica_machine::{
    AppliedLog, Entry, Head, LearnFault, LoadFault, Machine, Roll, SaveFault, Slot, Standing,
};
use std::alloc::Global;
use std::process::Abort;
use test_checks::{check, check_eq};
use test_machines::{Count, Number, Refuses};

// The Boot of node 1, or its Item with this number, which holds ten times the number.
fn entry(seq: u32) -> Entry<Number> {
    if seq == 0 {
        Entry::Boot { node: 1, boot: 1 }
    } else {
        Entry::Item {
            node: 1,
            boot: 1,
            seq: u64::from(seq),
            transport: 1,
            body: Number::new(seq.saturating_mul(10)),
        }
    }
}

// A slot of a table, by its place from 0.
fn slot(rt: &impl Abort, place: usize) -> Slot {
    Slot::new((place as u64).saturating_add(1)).expect(rt, "a slot")
}

// Learns a table's entries in the slots 1 and on, the last one first, but for the first `from`.
fn learn_after<M: Machine<Body = Number>>(
    rt: &impl Abort,
    log: &mut AppliedLog<M>,
    table: &[u32],
    from: usize,
) {
    for place in (from..table.len()).rev() {
        log.learn(slot(rt, place), entry(table[place]))
            .expect(rt, "an entry that is learned");
    }
}

// A Boot, then Items 1, 1 again, 3, 2 and 3.
const OUT_OF_ORDER: [u32; 6] = [0, 1, 1, 3, 2, 3];

// The slot that is applied, whether its entry took effect, and the sum that was said; `None` if none is learned.
type Told = Option<(u64, bool, Option<u64>)>;

// Returns what the next step shows.
fn step(rt: &impl Abort, log: &mut AppliedLog<Count>) -> Told {
    let Some(step) = log.advance().expect(rt, "a step or none") else {
        return None;
    };
    Some((
        step.slot.get(),
        step.took,
        step.says.first().map(|say| say.1),
    ))
}

// The log goes on with these steps.
fn goes_on(rt: &impl Abort, log: &mut AppliedLog<Count>, rows: &[Told]) {
    for told in rows {
        check_eq!(rt; step(rt, log), *told);
    }
}

// What the entries out of order lead to, and then nothing.
const SKIPPED: &[Told] = &[
    Some((1, true, None)),
    Some((2, true, Some(10))),
    Some((3, false, None)),
    Some((4, false, None)),
    Some((5, true, Some(30))),
    Some((6, true, Some(60))),
    None,
];

// Goes along a log by reference: a function that owns it drops it at each of its exits.
fn skips(rt: &impl Abort, log: &mut AppliedLog<Count>) {
    learn_after(rt, log, &OUT_OF_ORDER, 1);
    goes_on(rt, log, &[None]);
    learn_after(rt, log, &[0], 0);
    goes_on(rt, log, SKIPPED);
    check_eq!(rt; (log.machine().sum(), log.applied().len()), (60, 6));
}

#[test]
fn items_out_of_order_are_skipped(rt: HostRuntime) {
    let mut log = AppliedLog::new(rt.alloc(), Count::new(rt.alloc()));
    skips(&rt, &mut log);
}

// Returns the number of the fault with which an entry is not learned in a slot, by its place from 0; 0 if it is learned.
fn refusal<M: Machine<Body = Number>>(
    rt: &impl Abort,
    log: &mut AppliedLog<M>,
    place: usize,
    seq: u32,
) -> u8 {
    match log.learn(slot(rt, place), entry(seq)) {
        Ok(()) => 0,
        Err(fault) => fault.number(),
    }
}

fn keeps_entries(rt: &impl Abort, log: &mut AppliedLog<Count>) {
    learn_after(rt, log, &[0, 1], 0);
    goes_on(rt, log, &[Some((1, true, None))]);
    // another entry, in a slot that is applied and in one that is not, and the same again
    for (place, seq, number) in [(0, 1, 46), (1, 2, 46), (0, 0, 0), (1, 1, 0)] {
        check_eq!(rt; refusal(rt, log, place, seq), number);
    }
    check_eq!(rt; log.applied().len(), 1);
    goes_on(rt, log, &[Some((2, true, Some(10)))]);
}

#[test]
fn one_entry_stands_in_a_slot(rt: HostRuntime) {
    let mut log = AppliedLog::new(rt.alloc(), Count::new(rt.alloc()));
    keeps_entries(&rt, &mut log);
}

#[test]
fn faults_have_their_numbers(rt: HostRuntime) {
    check_eq!(&rt; LearnFault::Disagree.number(), 46);
    check_eq!(&rt; LearnFault::Memory.number(), 47);
    check_eq!(&rt; LearnFault::Failed.number(), 48);
}

// Advances `times` times, and returns how often the log returned a step.
fn steps(log: &mut AppliedLog<Refuses>, times: u32) -> u32 {
    let mut told = 0u32;
    for _turn in 0..times {
        if let Ok(Some(_)) = log.advance() {
            told = told.saturating_add(1);
        }
    }
    told
}

// Returns the number of the fault with which the log does not advance; 0 if it advances.
fn stop(log: &mut AppliedLog<Refuses>) -> u8 {
    match log.advance() {
        Ok(_) => 0,
        Err(failed) => failed.number(),
    }
}

fn spoils(rt: &impl Abort, log: &mut AppliedLog<Refuses>) {
    learn_after(rt, log, &OUT_OF_ORDER, 0);
    // of the six slots the first, second and fifth take effect; the sixth is refused
    check_eq!(rt; steps(log, 5), 5);
    for _again in 0..3u8 {
        check_eq!(rt; stop(log), 48);
    }
    check_eq!(rt; refusal(rt, log, 0, 0), 48);
    check_eq!(rt; (log.applied().len(), log.machine().taken()), (5, 3));
}

#[test]
fn a_machine_that_refuses_spoils_the_log(rt: HostRuntime) {
    let mut log = AppliedLog::new(rt.alloc(), Refuses::new(rt.alloc(), 3));
    spoils(&rt, &mut log);
}

// The log of the entries out of order goes on with the steps from one place to another.
fn goes_between(rt: &impl Abort, log: &mut AppliedLog<Count>, from: usize, to: usize) {
    for (place, told) in SKIPPED.iter().enumerate() {
        if from <= place && place < to {
            check_eq!(rt; step(rt, log), *told);
        }
    }
}

// The log of the entries out of order after this many steps, saved.
fn saved(rt: &impl Abort, alloc: Global, taken: usize) -> Vec<u8> {
    let mut log = AppliedLog::new(alloc, Count::new(alloc));
    learn_after(rt, &mut log, &OUT_OF_ORDER, 0);
    goes_between(rt, &mut log, 0, taken);
    let octets = log.save().expect(rt, "the octets of a log");
    drop(log);
    octets
}

// A log that is loaded goes on as the one that was saved. It is told all entries again, and those up to its floor change nothing.
fn goes_on_from(rt: &impl Abort, log: &mut AppliedLog<Count>, floor: usize) {
    check_eq!(rt; (log.floor(), log.applied().len()), (floor as u64, 0));
    learn_after(rt, log, &OUT_OF_ORDER, 0);
    goes_between(rt, log, floor, 7);
    check_eq!(rt; (log.machine().sum(), log.applied().len()), (60, 6usize.saturating_sub(floor)));
}

#[test]
fn a_log_goes_on_as_it_was_saved(rt: HostRuntime) {
    for floor in 0..7usize {
        let octets = saved(&rt, rt.alloc(), floor);
        let mut log = AppliedLog::load(rt.alloc(), &octets).expect(&rt, "a log that was saved");
        drop(octets);
        goes_on_from(&rt, &mut log, floor);
        drop(log);
    }
}

// The log of the entries out of order: 6 slots; node 1 live in boot 1, 3 of its Items taken; the sum 60. The first 127 octets are its head.
const SAVED: &[u8] = &[
    0, 0, 0, 0, 0, 0, 0, 6, //
    0, 0, 0, 0, 0, 0, 0, 1, 1, 0, 0, 0, 0, 0, 0, 0, 3, //
    0, 0, 0, 0, 0, 0, 0, 0, 0, 0, 0, 0, 0, 0, 0, 0, 0, //
    0, 0, 0, 0, 0, 0, 0, 0, 0, 0, 0, 0, 0, 0, 0, 0, 0, //
    0, 0, 0, 0, 0, 0, 0, 0, 0, 0, 0, 0, 0, 0, 0, 0, 0, //
    0, 0, 0, 0, 0, 0, 0, 0, 0, 0, 0, 0, 0, 0, 0, 0, 0, //
    0, 0, 0, 0, 0, 0, 0, 0, 0, 0, 0, 0, 0, 0, 0, 0, 0, //
    0, 0, 0, 0, 0, 0, 0, 0, 0, 0, 0, 0, 0, 0, 0, 0, 0, //
    0, 0, 0, 0, 0, 0, 0, 60,
];

#[test]
fn a_log_is_saved_as_its_layout_says(rt: HostRuntime) {
    let octets = saved(&rt, rt.alloc(), 6);
    check_eq!(&rt; octets.as_slice(), SAVED);
    drop(octets);
}

// A place in these octets, and what stands there in octets that are no log: a floor, a boot and a count above the greatest, a flag that is
// none, no flag at a boot that counts Items, and a boot that is live at 0.
const DAMAGES: &[(usize, u8)] = &[(2, 1), (9, 1), (18, 1), (16, 2), (16, 0), (33, 1), (41, 1)];

// Returns the number of the fault with which octets are not loaded; 0 if they are.
fn refused(alloc: Global, octets: &[u8]) -> u8 {
    match AppliedLog::<Count>::load(alloc, octets) {
        Ok(log) => {
            drop(log);
            0
        },
        Err(fault) => fault.number(),
    }
}

fn damaged(rt: &impl Abort, alloc: Global, place: usize, octet: u8) -> u8 {
    let octets = altered(rt, alloc, place, octet);
    let number = refused(alloc, &octets);
    drop(octets);
    number
}

#[test]
fn damaged_octets_are_91(rt: HostRuntime) {
    check_eq!(&rt; refused(rt.alloc(), SAVED), 0);
    check_eq!(&rt; refused(rt.alloc(), &SAVED[..134]), 91);
    check_eq!(&rt; refused(rt.alloc(), &[]), 91);
    for (place, octet) in DAMAGES {
        check_eq!(&rt; damaged(&rt, rt.alloc(), *place, *octet), 91);
    }
}

// The octets of that log with another octet in this place.
fn altered(rt: &impl Abort, alloc: Global, place: usize, octet: u8) -> Vec<u8> {
    let mut octets = Vec::from_slice(alloc, SAVED).expect(rt, "room for octets");
    if let Some(there) = octets.get_mut(place) {
        *there = octet;
    }
    octets
}

// The head of that log with another octet in this place.
fn head_with(rt: &impl Abort, alloc: Global, place: usize, octet: u8) -> Option<Head> {
    let octets = altered(rt, alloc, place, octet);
    let head = Head::read(&octets);
    drop(octets);
    head
}

// A head of this floor, where nodes 1 and 2 stand so, and no other node is known.
const fn head(floor: u64, one: Standing, two: Standing) -> Head {
    Head {
        floor,
        standings: [
            one,
            two,
            Standing::Unknown,
            Standing::Unknown,
            Standing::Unknown,
            Standing::Unknown,
            Standing::Unknown,
        ],
    }
}

const LIVE: Standing = Standing::Live { boot: 1, taken: 3 };

#[test]
fn a_head_is_read_whatever_follows_it(rt: HostRuntime) {
    let wanted = Some(head(6, LIVE, Standing::Unknown));
    check_eq!(&rt; Head::read(SAVED), wanted);
    check_eq!(&rt; Head::read(&SAVED[..127]), wanted);
    check_eq!(&rt; Head::read(&SAVED[..126]), None);
    check_eq!(&rt; Head::read(&SAVED[..8]), None);
    check_eq!(&rt; Head::read(&[]), None);
    // of 61 in place of the sum, of no slot, of a node that is lost in boot 2
    check_eq!(&rt; head_with(&rt, rt.alloc(), 134, 61), wanted);
    check_eq!(&rt; head_with(&rt, rt.alloc(), 7, 0), Some(head(0, LIVE, Standing::Unknown)));
    check_eq!(&rt; head_with(&rt, rt.alloc(), 32, 2), Some(head(6, LIVE, Standing::Gone { boot: 2 })));
}

#[test]
fn damaged_octets_have_no_head(rt: HostRuntime) {
    for (place, octet) in DAMAGES {
        check_eq!(&rt; head_with(&rt, rt.alloc(), *place, *octet), None, *place);
    }
}

#[test]
fn one_octet_more_is_91(rt: HostRuntime) {
    let mut octets = saved(&rt, rt.alloc(), 6);
    octets.push(0).expect(&rt, "room for an octet");
    check_eq!(&rt; refused(rt.alloc(), &octets), 91);
    drop(octets);
}

// A log that is cut after three slots, and again at its end.
fn is_cut(rt: &impl Abort, log: &mut AppliedLog<Count>) {
    learn_after(rt, log, &OUT_OF_ORDER, 0);
    log.cut();
    check_eq!(rt; log.floor(), 0);
    goes_between(rt, log, 0, 3);
    log.cut();
    check_eq!(rt; (log.floor(), log.applied().len(), log.machine().sum()), (3, 0, 10));
    // another entry in a slot up to the floor, and in one above it
    for (place, seq, number) in [(0, 1, 0), (2, 5, 0), (3, 5, 46), (3, 3, 0)] {
        check_eq!(rt; refusal(rt, log, place, seq), number);
    }
    goes_between(rt, log, 3, 7);
    log.cut();
    check_eq!(rt; (log.floor(), log.applied().len(), log.machine().sum()), (6, 0, 60));
}

#[test]
fn a_log_that_is_cut_goes_on(rt: HostRuntime) {
    let mut log = AppliedLog::new(rt.alloc(), Count::new(rt.alloc()));
    is_cut(&rt, &mut log);
}

// A log whose machine has failed is not saved.
fn is_not_saved(rt: &impl Abort, log: &mut AppliedLog<Refuses>) {
    learn_after(rt, log, &OUT_OF_ORDER, 0);
    check_eq!(rt; steps(log, 6), 5);
    match log.save() {
        Ok(octets) => {
            drop(octets);
            check!(rt; false);
        },
        Err(fault) => check_eq!(rt; fault.number(), 48),
    }
}

#[test]
fn a_failed_log_is_not_saved(rt: HostRuntime) {
    let mut log = AppliedLog::new(rt.alloc(), Refuses::new(rt.alloc(), 3));
    is_not_saved(&rt, &mut log);
}

#[test]
fn faults_of_saving_have_their_numbers(rt: HostRuntime) {
    check_eq!(&rt; (SaveFault::Failed.number(), SaveFault::Memory.number()), (48, 92));
    check_eq!(&rt; (LoadFault::Damaged.number(), LoadFault::Memory.number()), (91, 92));
}

// An entry without a body: of a node in its boot.
#[derive(Clone, Copy)]
enum Taken {
    Noop,
    Boot(u8, u64),
    Lost(u8, u64),
}

// Entries, one after the other, and whether each takes effect.
const TAKEN: &[(Taken, bool)] = &[
    (Taken::Noop, false),
    (Taken::Boot(3, 2), true),
    (Taken::Boot(3, 2), false),
    (Taken::Lost(3, 1), false),
    (Taken::Lost(3, 2), true),
    (Taken::Boot(255, 9), true),
];

fn entry_of(taken: &Taken) -> Entry<Number> {
    match *taken {
        Taken::Noop => Entry::Noop,
        Taken::Boot(node, boot) => Entry::Boot { node, boot },
        Taken::Lost(node, boot) => Entry::Lost { node, boot },
    }
}

// The first item of node 255.
fn item() -> Entry<Number> {
    Entry::Item {
        node: 255,
        boot: 9,
        seq: 1,
        transport: 1,
        body: Number::new(1),
    }
}

// Whether the entry takes effect.
fn takes(roll: &mut Roll, taken: &Taken) -> bool {
    roll.take(&entry_of(taken))
}

fn goes_along(rt: &impl Abort, roll: &mut Roll) {
    check_eq!(rt; roll.live(3), None);
    for (taken, effective) in TAKEN {
        check_eq!(rt; takes(roll, taken), *effective);
    }
    check_eq!(rt; (roll.live(3), roll.live(255)), (None, Some(9)));
}

fn counts_items(rt: &impl Abort, roll: &mut Roll) {
    check!(rt; roll.take(&item()));
    check_eq!(rt; (roll.taken(255), roll.taken(3)), (1, 0));
}

#[test]
fn a_roll_goes_along_with_a_log(rt: HostRuntime) {
    let mut roll = Roll::new();
    goes_along(&rt, &mut roll);
    counts_items(&rt, &mut roll);
}

// Where nodes 1 to 7 stand in a roll that is made of standings.
const STANDINGS: [Standing; 7] = [
    Standing::Unknown,
    Standing::Live { boot: 2, taken: 3 },
    Standing::Gone { boot: 4 },
    Standing::Unknown,
    Standing::Live { boot: 5, taken: 0 },
    Standing::Gone { boot: 6 },
    Standing::Live { boot: 7, taken: 1 },
];

fn has_standings(rt: &impl Abort, roll: &Roll) {
    check_eq!(rt; roll.seven(), STANDINGS);
    for (place, standing) in STANDINGS.iter().enumerate() {
        check_eq!(rt; roll.standing((place as u8).saturating_add(1)), *standing, place);
    }
    for node in [0, 8, 255] {
        check_eq!(rt; roll.standing(node), Standing::Unknown, node);
    }
}

#[test]
fn a_roll_is_made_of_seven_standings(rt: HostRuntime) {
    let roll = Roll::of(STANDINGS);
    has_standings(&rt, &roll);
    check_eq!(&rt; Roll::new().seven(), [Standing::Unknown; 7]);
}
