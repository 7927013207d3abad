// What the calls of a keeper work on.
ghost use Rattle.std.specs.Prelude.{◌≡◌, true, false, IfSome};
ghost use Rattle.std.proofs.Props.{props};
ghost use Rattle.store_rows.specs.Numbers.{are_numbers};

use sqlite::{Alter, Connection};
use std::alloc::Global;
use store_rows::Numbers;

// A connection between two transactions, the numbers that its store is known to have, and a buffer for the octets of an entry.
pub(crate) struct Session<S: Alter> {
    pub alloc: Global,
    pub conn: Connection<S>,
    pub known: Option<Numbers>,
    pub octets: Vec<u8>,
    ghost alone: { conn.in_transaction ≡ false },
    ghost in_range: { IfSome known (λ numbers. are_numbers numbers ≡ true) } by { Prim.hlevel props },
}

impl<S: Alter> Session<S> {
    // Returns the connection.
    pub fn into_connection(self) -> Connection<S>
        ensures same { result ≡ self.conn }
        ensures alone { result.in_transaction ≡ false }
    {
        let Session {
            alloc: _,
            conn,
            known: _,
            octets: _,
        } = self;
        conn
    }
}

impl<S: Alter + Drop> Drop for Session<S> {
    fn drop(self) {
        let Session {
            alloc: _,
            conn: _,
            known: _,
            octets: _,
        } = self;
    }
}
