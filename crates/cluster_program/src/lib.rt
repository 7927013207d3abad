//! What the program `wampd` does, as functions over readers and writers.
#![tactic(auto)]

mod fault;
mod script;
mod serve;

pub use program_order::{Members, Order, UsageFault, help_of, order_of, unreadable_words};
pub use replicated_laws::laws;
pub use script::script_run;
pub use serve::serve_run;
pub use serve_lines::say_last;
pub use serve_policy::Draws;
pub use serve_program::Gate;
pub use stream_program::{RunFault, stream_run};
