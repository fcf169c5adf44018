//! The plain types of the initiator's engine: commands, slots, the line, and what its calls answer.
#![tactic(auto)]

mod answer;
mod command;
mod line;
mod number;
mod refusal;
mod slot;

pub use answer::{Answer, Collected, End, Fault, Holder, Layer};
pub use command::{Command, Manner, Region};
pub use line::{Heard, Line};
pub use number::SlotNumber;
pub use refusal::Refusal;
pub use slot::{Outcome, Slot, Slots, State};
