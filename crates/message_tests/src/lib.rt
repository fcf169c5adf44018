//! Tests of the crate `scsi`, as tables: what goes in, and by hand what comes out.
#![tactic(auto)]

#[cfg(test)]
mod commands;
#[cfg(test)]
mod greetings;
#[cfg(test)]
mod messages;
#[cfg(test)]
mod writers;
