// A mail table: fetches from empty boxes, seats that are gathered or handed back, and the faults' numbers.
ghost use Rattle.std.specs.Prelude.{◌≡◌, ◌≤◌, All};
ghost use Rattle.mail_table.specs.Seats.{Owns};

use crate::check::Check;
use mail_table::{Mail, Memory, NodeSeat, Office, Worn, found};
use paxos_packets::Members;
use std::process::Abort;
use std::test::Fail;
use test_checks::{check, check_eq};
use test_machines::Number;

// The last seat is node 3's, is the table's, and finds nothing in its boxes.
fn finds_nothing(rt: &impl Abort, mail: &Mail<Number>, seats: &mut Vec<NodeSeat<Number>>)
    requires owned { All (Owns mail.now) seats.old.items }
    requires single { mail.now.most ≡ 1 }
    requires members { 3 ≤ mail.now.members }
{
    let Some(mut seat) = seats.pop() else {
        panic!(rt; "no seat")
    };
    check_eq!(rt; seat.node(), 3);
    check!(rt; mail.owns(&seat));
    check!(rt; mail.fetch(&mut seat, 1).is_none());
    check!(rt; mail.fetch(&mut seat, 2).is_none());
}

#[test]
fn an_empty_box_gives_nothing(rt: HostRuntime) -> Result<(), Fail> {
    let members = Members::new(3).ok_or("3 members")?;
    let mut office = Office::new();
    let (mail, mut seats) = found(rt.alloc(), &mut office, members)?;
    check_eq!(&rt; seats.len(), 3);
    finds_nothing(&rt, &mail, &mut seats);
    Ok(())
}

#[test]
fn all_seats_are_gathered(rt: HostRuntime) -> Result<(), Fail> {
    let members = Members::new(3).ok_or("3 members")?;
    let mut office = Office::new();
    let (mail, seats) = found::<Number>(rt.alloc(), &mut office, members)?;
    let Ok(lengths) = mail.gather(seats) else {
        panic!(rt; "not gathered")
    };
    check!(&rt; lengths == [0; 7]);
    Ok(())
}

#[test]
fn a_missing_seat_hands_all_back(rt: HostRuntime) -> Result<(), Fail> {
    let members = Members::new(3).ok_or("3 members")?;
    let mut office = Office::new();
    let (mail, mut seats) = found::<Number>(rt.alloc(), &mut office, members)?;
    drop(seats.pop());
    let Err((_mail, seats)) = mail.gather(seats) else {
        panic!(rt; "gathered")
    };
    check_eq!(&rt; seats.len(), 2);
    Ok(())
}

// How many of the seats the table owns.
fn count_owned(mail: &Mail<Number>, seats: &[NodeSeat<Number>]) -> u64
    requires { All (λ s. s.office ≡ mail.now.office) seats.now }
{
    let mut count: u64 = 0;
    for seat in seats {
        if mail.owns(seat) {
            count = count.saturating_add(1);
        }
    }
    count
}

// The last seat is one of another table then.
fn swap_last(
    rt: &impl Abort,
    mail: &Mail<Number>,
    seats: &mut Vec<NodeSeat<Number>>,
    others: &mut Vec<NodeSeat<Number>>,
)
    requires own { All (λ s. s.office ≡ mail.now.office) seats.old.items }
    requires others { All (λ s. s.office ≡ mail.now.office) others.old.items }
    ensures { All (λ s. s.office ≡ mail.now.office) seats.new.items }
{
    drop(seats.pop());
    let Some(foreign) = others.pop() else {
        panic!(rt; "no seat of the other table")
    };
    check!(rt; seats.push(foreign).is_ok());
}

// A table and its seats, as `found` gives them.
type Founded = (Mail<Number>, Vec<NodeSeat<Number>>);

// All is handed back, with two seats of the table.
fn gather_mixed(rt: &impl Abort, mine: Founded, other: Founded)
    requires own { All (λ s. s.office ≡ mine.0.office) mine.1.items }
    requires others { All (λ s. s.office ≡ mine.0.office) other.1.items }
{
    let (mail, mut seats) = mine;
    let (_other, mut others) = other;
    swap_last(rt, &mail, &mut seats, &mut others);
    let Err((mail, seats)) = mail.gather(seats) else {
        panic!(rt; "gathered")
    };
    check_eq!(rt; seats.len(), 3);
    check_eq!(rt; count_owned(&mail, seats.as_slice()), 2);
}

#[test]
fn a_foreign_seat_hands_all_back(rt: HostRuntime) -> Result<(), Fail> {
    let members = Members::new(3).ok_or("3 members")?;
    let mut office = Office::new();
    let mine = found::<Number>(rt.alloc(), &mut office, members)?;
    let other = found::<Number>(rt.alloc(), &mut office, members)?;
    gather_mixed(&rt, mine, other);
    Ok(())
}

#[test]
fn faults_of_a_table_have_numbers(rt: HostRuntime) {
    check_eq!(&rt; Memory.number(), 67);
    check_eq!(&rt; Worn.number(), 68);
}
