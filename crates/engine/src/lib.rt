//! The initiator's engine: it accepts commands, steps them over a bus, and hands back what they came to.
#![tactic(auto)]

mod chains;
mod changes;
mod collect;
mod general;
mod greeted;
mod hearing;
mod held;
mod idle;
mod making;
mod memory;
mod request;
mod reset;
mod run;
mod size;
mod state;
mod step;
mod submit;
mod ticket;

pub use request::Request;
pub use size::{MemorySize, memory_size};
pub use state::Engine;
pub use ticket::Ticket;
