//! The name of a table.

use std::collections::LinkedList;

/// What a table's name is made of. No value of it is ever made: contracts speak of it.
pub struct Name {
    pub words: u64,
    pub slots: u64,
    pub views_name: u64,
    pub atom: u64,
    pub block: u64,
    pub offset: u64,
    pub slot_names: LinkedList<u64>,
}
