// Tests of the devices on examples, with what is due worked out by hand.
#![tactic(auto)]

#[cfg(test)]
mod disk;
#[cfg(test)]
mod pair;
#[cfg(test)]
mod recorder;
#[cfg(test)]
mod rows;
