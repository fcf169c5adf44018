// The whim bus, over any shelf.
#![tactic(auto)]

mod calls;
mod changes;
mod rows;
mod shown;
mod state;

pub use rows::Row;
pub use state::{Heard, Line, RowNumber, WhimBus};
