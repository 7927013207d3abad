//! The bodies and machines that tests and benches of the consensus core are run with.
#![tactic(auto)]

mod count;
mod foretells;
mod number;
mod octet;
mod refuses;
mod scant;
mod sum;

pub use count::Count;
pub use foretells::Foretells;
pub use number::Number;
pub use octet::Octet;
pub use refuses::Refuses;
pub use scant::Scant;
