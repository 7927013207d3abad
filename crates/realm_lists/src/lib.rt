//! Lists that keep the order in which their members came, from which any member can be removed, and the indexes that find members by keys.
#![tactic(auto)]

mod ordered_list;
mod place_index;
mod place_table;
mod tally;

pub use ordered_list::OrderedList;
pub use place_index::PlaceIndex;
pub use place_table::PlaceTable;
pub use tally::Tally;
