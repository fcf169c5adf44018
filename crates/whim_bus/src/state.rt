// What the whim bus holds.
ghost use Rattle.std.specs.Prelude.{◌≡◌, ℕ, ◌<◌, cond, nat_lt, Some, None};

use crate::rows::Row;
use std::marker::Model;

/// The number of a row: below 16.
#[derive(Clone, Copy, PartialEq, Eq, Debug)]
pub struct RowNumber {
    number: usize,
}

impl Model for RowNumber {
    ghost Value = { ℕ };

    ghost view = { λ r. r.number };

    ghost invariant = { λ r. r.number < 16 };

    ghost inverse = { λ n. record { number = n } };
}

impl RowNumber {
    /// The number of the row at this place, if there is one.
    pub(crate) fn at(place: usize) -> Option<RowNumber>
        ensures { result ≡ cond (nat_lt place 16) (Some place) None }
    {
        if place < 16 {
            Some(RowNumber { number: place })
        } else {
            None
        }
    }

    /// The place of the row.
    pub(crate) fn place(self) -> usize
        ensures value { result ≡ self }
        ensures inside { result < 16 }
    {
        self.number
    }
}

/// What a target that retakes the line has said of its greeting: nothing, the LUN, the LUN and 20h.
#[derive(Clone, Copy, PartialEq, Eq, Debug)]
pub enum Heard {
    Nothing,
    Named,
    TagDue,
}

/// The line: free, being retaken by the nexus of a row, or held by it. Rows go by their numbers, since the bus has no heap.
#[derive(Clone, Copy, PartialEq, Eq, Debug)]
pub enum Line {
    Free,
    Retaken(RowNumber, Heard),
    Held(RowNumber),
}

// No model: its value would hold the shelf behind it, by a member of the bound.
/// A bus over any shelf that loses selections, saves, restores and leaves as its whim bytes have it.
#[derive(Drop)]
pub struct WhimBus<S> {
    pub(crate) shelf: S,
    pub(crate) rows: [Row; 16],
    pub(crate) line: Line,
    pub(crate) whims: [u8; 256],
    /// The number of the next whim byte.
    pub(crate) at: u8,
    /// The whim byte that was drawn last.
    pub(crate) draw: u8,
}
