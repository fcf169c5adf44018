// The strict bus, over any shelf.
#![tactic(auto)]

mod calls;
mod out;
mod state;

pub use state::StrictBus;
