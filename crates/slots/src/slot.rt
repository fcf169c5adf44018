ghost use Rattle.std.specs.Prelude.{◌≡◌};
ghost use Rattle.slots.specs.Numbers.{outcome_number};

use crate::command::Command;
use crate::line::Line;
use arrayvec::ArrayVec;

/// How a command ended.
#[derive(Clone, Copy, PartialEq, Eq, Debug)]
pub enum Outcome {
    /// Its target told that it is complete, after its status.
    Done = 0,
    /// There is no such target.
    Absent = 1,
    /// The target asked to move a byte past the region.
    Overrun = 2,
    /// The target asked to move a byte against the command's direction.
    WrongWay = 3,
    /// The target left the line free.
    Dropped = 4,
    /// The bus was reset.
    Reset = 5,
}

/// Where a slot is in its life.
#[derive(Clone, Copy, PartialEq, Eq, Debug)]
pub enum State {
    Free,
    /// Accepted, and not selected yet.
    Waiting,
    /// It holds the line.
    Connected,
    /// Disconnected, to be reselected.
    Away,
    Finished(Outcome),
}

/// One slot: its next number on its chain, its state, its command, current and saved data pointer, whether the command was
/// sent, and its status once that came.
#[derive(Clone, Copy, PartialEq, Eq, Debug)]
pub struct Slot {
    // A rule of the project: slots are chained by next numbers, and 0 ends a chain.
    pub next: u8,
    pub state: State,
    pub command: Command,
    pub current: u32,
    pub saved: u32,
    pub sent: bool,
    pub status: Option<u8>,
}

/// All that the engine keeps: its slots, numbered from 1, the heads of the free and the waiting chain, the line,
/// the bytes of a begun message, and the size of the memory.
#[derive(Drop)]
pub struct Slots {
    pub slots: [Slot; 16],
    // Numbers, as a slot's next one.
    pub free: u8,
    pub waiting: u8,
    pub line: Line,
    pub begun: ArrayVec<u8, 258>,
    pub size: u32,
}

impl Outcome {
    // As `Layer::number`: `as` takes no type parameter.
    /// Its number.
    pub fn number(self) -> u8
        ensures { result ≡ outcome_number self }
    {
        self as u8
    }
}
