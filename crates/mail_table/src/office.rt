//! The office in which tables are founded: it gives each a number, by which seats and tables are told apart at run time.
ghost use Rattle.std.specs.Prelude.{◌≡◌, ◌+◌, ◌==◌, ◌<◌, ◌≤◌, ◌^◌, ◌++◌, ◌∷◌};
ghost use Rattle.std.specs.Prelude.{[], length, slice_get, Some, IfSome, IsNone, OnSome, MatchBool};
ghost use mathlib.Core.List.{IsPrefix};
ghost use Rattle.mail_table.specs.Offices.{name_of, head_of};

use crate::name::Name;
use crate::plays::{Boxes, Token};
use logbook::{Gain, Offer, Plain, Play, Rule, Seen, Start, Word};
use paxos_packets::Body;
use std::marker::Model;

// How many tables one office may found.
const MOST_TABLES: u64 = 1 << 62;

// The rule of the office's book: its word is the number of its entries.
pub(crate) struct Law;

impl Rule<Name, u64> for Law {
    ghost use Rattle.std.specs.Prelude.{[]};
    ghost use base.Fml.{ftrue};
    ghost use Rattle.mail_table.specs.Offices.{IsCounted};

    ghost holds = { λ cells log. IsCounted cells log };

    ghost first = { [] };

    ghost hinted = { λ n log. Unit {0} };

    ghost shows = { λ log. [] };

    ghost keeps = { λ names log. ftrue };

    ghost moves = { λ ask before after answer. Unit {0} };
}

// Nothing is traded.
pub(crate) struct Nothing;

impl Gain<Name, u64> for Nothing {
    ghost use base.Fml.{ftrue};

    ghost after = { λ names about answer. ftrue };
}

// A step that adds a name.
pub(crate) struct Add;

impl Play<Name, u64> for Add {
    ghost use Rattle.mail_table.specs.Offices.{Adds};

    ghost then = { Adds };
}

// What a step asks for: the name of the seat's table.
impl<B> Plain<Token<B>, Name, u64> for Add {
    ghost use Rattle.std.specs.Prelude.{None};
    ghost use Rattle.mail_table.specs.Offices.{name_of};

    ghost ask = { λ seat. name_of seat.table_id };

    ghost state = { λ seat. None };
}

/// An office. A program makes one, and founds all its tables in it: seats of two offices cannot be compared.
pub struct Office {
    head: Word<Name, u64, Law>,
    seen: Seen<Name, u64, Law>,
    founded: u64,
}

impl Drop for Office {
    fn drop(self) {
        let Office {
            head: _head,
            seen: _seen,
            founded: _,
        } = self;
    }
}

impl Model for Office {
    ghost use Rattle.std.specs.Prelude.{◌≡◌, length};
    ghost use Rattle.mail_table.specs.Offices.{Officed, head_of};

    ghost Value = { Officed };

    ghost view = { λ o. record { book = o.seen.book; founded = o.founded } };

    ghost invariant = { λ o. (o.head ≡ head_of o.seen.book) × (o.founded ≡ length o.seen.log) };
}

// The number of a table in its office, with what is known of the office.
#[derive(Drop)]
pub(crate) struct Mark {
    pub(crate) number: u64,
    pub(crate) seen: Seen<Name, u64, Law>,
}

impl Mark {
    // Returns a copy.
    pub(crate) fn again(&self) -> Mark
        ensures { result ≡ self.now }
    {
        Mark {
            number: self.number,
            seen: self.seen.again(),
        }
    }
}

impl Office {
    /// Creates an office in which no table was founded yet. Does not allocate.
    pub fn new() -> Office
        ensures { result.founded ≡ 0 }
    {
        let (seen, mut first, _second) = Seen::open(Start::alone(), 0, 0);
        Office {
            head: Word::tracked(0, &mut first),
            seen,
            founded: 0,
        }
    }

    // Enters the seat's table under the next number. `None` if no number is left, or the one try to add its name is lost.
    pub(crate) fn enter<B: Body>(&mut self, seat: &Token<B>) -> Option<Mark>
        ensures office { IfSome result (λ mark. mark.seen.book ≡ self.old.book) }
        ensures number { IfSome result (λ mark. mark.number ≡ self.old.founded) }
        ensures named { IfSome result (λ mark. slice_get mark.seen.log mark.number ≡ Some (name_of seat.now.table_id)) }
        ensures same { self.new.book ≡ self.old.book }
        ensures one_more { OnSome result (self.new.founded ≡ self.old.founded + 1) }
        ensures no_less { self.old.founded ≤ self.new.founded }
    {
        let number = self.founded;
        if number >= MOST_TABLES {
            return None;
        }
        let found = add_name(&self.head, &mut self.seen, number, seat);
        if found != number {
            self.founded = found;
            return None;
        }
        self.founded = number + 1;
        Some(Mark {
            number,
            seen: self.seen.again(),
        })
    }
}

// Tries once to add the name of the seat's table as entry `number`. Returns how many entries were there; `number` if the try won.
fn add_name<B: Body>(
    head: &Word<Name, u64, Law>,
    seen: &mut Seen<Name, u64, Law>,
    number: u64,
    seat: &Token<B>,
) -> u64
    requires head { head.now ≡ head_of seen.old.book }
    requires number { number ≡ length seen.old.log }
    requires room { number < 2 ^ 62 }
    ensures book { seen.new.book ≡ seen.old.book }
    ensures added { MatchBool (result == number) (seen.new.log ≡ seen.old.log ++ name_of seat.now.table_id ∷ []) (length seen.new.log ≡ result) }
    ensures longer { IsPrefix seen.old.log seen.new.log }
{
    let mut offer: Offer<Name, u64, Law, Nothing> = seen.plain::<Nothing, Token<B>, Add>(seat);
    let mut pen = seen.no_pen();
    head.compare_exchange::<Add, Nothing>(number, number + 1, seen, &mut offer, &mut pen)
}

// Does nothing. Its contract says that a table and a seat with one number in one office are of one table.
pub(crate) fn same_table<B: Body>(mine: &Mark, table: &Boxes<B>, other: &Mark, seat: &Token<B>)
    requires office { other.now.seen.book ≡ mine.now.seen.book }
    requires number { other.now.number ≡ mine.now.number }
    requires table { slice_get mine.now.seen.log mine.now.number ≡ Some (name_of table.now.shared.table_id) }
    requires seat { slice_get other.now.seen.log other.now.number ≡ Some (name_of seat.now.table_id) }
    ensures { seat.now.table_id ≡ table.now.shared.table_id }
{
    let mut both = mine.seen.again();
    both.learn(&other.seen);
}
