//! Entries and lists of them, with their copies and equality.

ghost use Rattle.std.specs.Prelude.{◌≡◌, [], ◌∷◌, ◌++◌, IfOk, OnOk, OnErr};
ghost use Rattle.paxos_packets.specs.Entry.{same_entry, entry_equality, entries_equality};
ghost use Rattle.std.specs.Cmp.Lexicographic.{pointwise};

use crate::body::{Body, Memory};
use crate::list::{all_same, copy_all};
use std::alloc::Global;
use std::marker::Model;

/// What a slot of the log may hold: a value that is chosen (Lamport 2001, section 3).
#[derive(Debug, Drop)]
pub enum Entry<B> {
    /// Nothing; it fills a gap.
    Noop,
    /// A node began this boot.
    Boot {
        node: u8,
        boot: u64,
    },
    /// A node was taken to be lost in this boot.
    Lost {
        node: u8,
        boot: u64,
    },
    /// The act that a node took in this boot under the number `seq`, from 1, of its transport with this number, from 1.
    Item {
        node: u8,
        boot: u64,
        seq: u64,
        transport: u32,
        body: B,
    },
}

/// A list of entries, in order.
#[derive(Debug)]
pub struct Entries<B> {
    list: Vec<Entry<B>>,
}

impl<B: Drop> Drop for Entries<B> {
    fn drop(self) {
        let Entries { list: _list } = self;
    }
}

impl<B> Model for Entries<B> {
    ghost use Rattle.std.specs.Prelude.{List};
    ghost use Rattle.paxos_packets.specs.declared.entry.Entry.{Entry};

    ghost Value = { List (Entry B) };

    ghost view = { λ e. e.list.items };
}

impl<B> Entries<B> {
    /// Returns an empty list. Does not allocate; `push` will, from `alloc`.
    pub fn new(alloc: Global) -> Entries<B>
        ensures { result ≡ [] }
    {
        Entries {
            list: Vec::new(alloc),
        }
    }

    /// Returns the list of these entries, in the vector's order. Does not allocate.
    pub fn of(list: Vec<Entry<B>>) -> Entries<B>
        ensures { result ≡ list.items }
    {
        Entries { list }
    }

    /// Returns the entries as a vector, in order. Does not allocate.
    pub fn into_vec(self) -> Vec<Entry<B>>
        ensures { result.items ≡ self }
    {
        let Entries { list } = self;
        list
    }

    /// Returns the entries, in order.
    pub fn as_slice(&self) -> &[Entry<B>]
        ensures { result.now ≡ self.now }
    {
        self.list.as_slice()
    }
}

impl<B: Drop> Entries<B> {
    /// Appends the entry. On `Memory` the entries are as they were.
    pub fn push(&mut self, entry: Entry<B>) -> Result<(), Memory>
        ensures ok { OnOk result (self.new ≡ self.old ++ entry ∷ []) }
        ensures err { OnErr result (self.new ≡ self.old) }
    {
        self.list.push(entry)?;
        Ok(())
    }
}

impl<B: Body> Body for Entries<B> {
    ghost same = { pointwise (same_entry B.same) };

    fn copy(&self, alloc: Global) -> Result<Entries<B>, Memory> {
        Ok(Entries {
            list: copy_all(alloc, &self.list)?,
        })
    }

    fn same(&self, other: &Entries<B>) -> bool {
        all_same(&self.list, &other.list)
    }

    ghost reflexive = { (entries_equality B.same (record { reflexive = B.reflexive; sound = B.sound })).reflexive };

    ghost sound = { (entries_equality B.same (record { reflexive = B.reflexive; sound = B.sound })).sound };
}

impl<B: Body> Body for Entry<B> {
    ghost same = { same_entry B.same };

    fn copy(&self, alloc: Global) -> Result<Entry<B>, Memory> {
        Ok(match self {
            Entry::Noop => Entry::Noop,
            Entry::Boot { node, boot } => Entry::Boot {
                node: *node,
                boot: *boot,
            },
            Entry::Lost { node, boot } => Entry::Lost {
                node: *node,
                boot: *boot,
            },
            Entry::Item {
                node,
                boot,
                seq,
                transport,
                body,
            } => Entry::Item {
                node: *node,
                boot: *boot,
                seq: *seq,
                transport: *transport,
                body: body.copy(alloc)?,
            },
        })
    }

    fn same(&self, other: &Entry<B>) -> bool {
        match (self, other) {
            (Entry::Noop, Entry::Noop) => true,
            (Entry::Boot { node, boot }, Entry::Boot { node: n, boot: b }) => node == n
                && boot == b,
            (Entry::Lost { node, boot }, Entry::Lost { node: n, boot: b }) => node == n
                && boot == b,
            (
                Entry::Item {
                    node,
                    boot,
                    seq,
                    transport,
                    body,
                },
                Entry::Item {
                    node: n,
                    boot: b,
                    seq: s,
                    transport: t,
                    body: x,
                },
            ) => node == n && boot == b && seq == s && transport == t && body.same(x),
            _ => false,
        }
    }

    ghost reflexive = { (entry_equality B.same (record { reflexive = B.reflexive; sound = B.sound })).reflexive };

    ghost sound = { (entry_equality B.same (record { reflexive = B.reflexive; sound = B.sound })).sound };
}
