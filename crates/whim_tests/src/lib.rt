// The whim bus on many tables of whim bytes, beside an independent model of it, and at its edges, worked out by hand.
#![tactic(auto)]

#[cfg(test)]
mod edges;
mod host;
mod tables;
