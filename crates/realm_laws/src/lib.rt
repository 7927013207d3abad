//! The laws of the realm: what every realm keeps, whatever comes in, and how calls and their final replies go together.
//! They speak of the step that `realm_machine` is proved to take (docs/PROTOCOL.md, "The realm").
#![tactic(auto)]

pub mod laws;
