//! The words of a SCSI-2 cable: its messages, the greeting that opens a nexus, and the lengths of commands.
#![tactic(auto)]

mod cdb;
mod command;
mod greeting;
mod message;
mod write;

pub use cdb::Cdb;
pub use command::{command_length, is_well_sized};
pub use greeting::{Greeting, GreetingBytes};
pub use message::{Message, read};
pub use write::{Word, identify, sdtr, simple_queue_tag};
