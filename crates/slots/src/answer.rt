ghost use Rattle.std.specs.Prelude.{◌≡◌};
ghost use Rattle.bus.specs.Kinds.{kind_of, byte_shown};
ghost use Rattle.slots.specs.Numbers.{layer_number, answer_number, answer_slot, end_number, end_slot, fault_slot, fault_pointer, byte_number};

use crate::slot::Outcome;
use bus::Shown;

/// The layer that a fault is of.
#[derive(Clone, Copy, PartialEq, Eq, Debug)]
pub enum Layer {
    Bus = 1,
    Message = 2,
    Nexus = 3,
    Pointer = 4,
}

/// The slot that holds the line, with its current pointer.
#[derive(Clone, Copy, PartialEq, Eq, Debug)]
pub struct Holder {
    pub slot: u8,
    pub pointer: u32,
}

/// A fault: its layer, what was shown, and what held the line.
#[derive(Clone, Copy, PartialEq, Eq, Debug)]
pub struct Fault {
    pub layer: Layer,
    pub shown: Shown,
    pub holder: Option<Holder>,
}

/// What a step answers, with the slot that it is about.
#[derive(Clone, Copy, PartialEq, Eq, Debug)]
pub enum Answer {
    /// There is nothing to select.
    Idle,
    Waited(Option<u8>),
    /// The selection was lost.
    Lost(u8),
    Selected(u8),
    /// A target was let retake the line.
    Accepted,
    /// A data byte was moved.
    Moved(u8),
    Finished(u8),
    /// Everything else that is listed.
    Told(Option<u8>),
    Fault(Fault),
}

/// What ended a run: its allowance was spent, or its last step finished a command or answered a fault.
#[derive(Clone, Copy, PartialEq, Eq, Debug)]
pub enum End {
    Spent,
    Finished(u8),
    Fault(Fault),
}

/// What collect answers: how the command ended, its status if that came, and how many bytes it moved.
#[derive(Clone, Copy, PartialEq, Eq, Debug)]
pub struct Collected {
    pub outcome: Outcome,
    pub status: Option<u8>,
    pub count: u32,
}

impl Layer {
    // `as` takes no type parameter, so each enum with a number says this line itself.
    /// Its number.
    pub fn number(self) -> u8
        ensures { result ≡ layer_number self }
    {
        self as u8
    }
}

impl Fault {
    /// The number of the kind shown.
    pub fn kind(self) -> u8
        ensures { result ≡ kind_of self.shown }
    {
        self.shown.kind()
    }

    /// The byte shown, 256 for none.
    pub fn byte(self) -> u16
        ensures { result ≡ byte_number (byte_shown self.shown) }
    {
        byte_number(self.shown.byte())
    }

    /// The slot that held the line, 0 for none.
    pub fn slot(self) -> u8
        ensures { result ≡ fault_slot self }
    {
        self.holder.map_or(0, |holder| holder.slot)
    }

    /// Its current pointer, 0 for none.
    pub fn pointer(self) -> u32
        ensures { result ≡ fault_pointer self }
    {
        self.holder.map_or(0, |holder| holder.pointer)
    }
}

impl Collected {
    /// The status, 256 for none.
    pub fn status_number(self) -> u16
        ensures { result ≡ byte_number self.status }
    {
        byte_number(self.status)
    }
}

// The byte as a number, 256 for none.
fn byte_number(byte: Option<u8>) -> u16
    ensures { result ≡ byte_number byte }
{
    byte.map_or(256, u16::from)
}

impl Answer {
    // By a match, as that of `End`: `as` takes no enum whose cases hold something.
    /// Its number, which is its place in the list of answers.
    pub fn number(self) -> u8
        ensures { result ≡ answer_number self }
    {
        match self {
            Answer::Idle => 0,
            Answer::Waited(_) => 1,
            Answer::Lost(_) => 2,
            Answer::Selected(_) => 3,
            Answer::Accepted => 4,
            Answer::Moved(_) => 5,
            Answer::Finished(_) => 6,
            Answer::Told(_) => 7,
            Answer::Fault(_) => 8,
        }
    }

    // A number, 0 for none, as the lists of answers have it.
    /// The slot that it is about, 0 for none.
    pub fn slot(self) -> u8
        ensures { result ≡ answer_slot self }
    {
        match self {
            Answer::Idle | Answer::Accepted => 0,
            Answer::Waited(slot) | Answer::Told(slot) => slot.unwrap_or(0),
            Answer::Lost(slot)
            | Answer::Selected(slot)
            | Answer::Moved(slot)
            | Answer::Finished(slot) => slot,
            Answer::Fault(fault) => fault.slot(),
        }
    }
}

impl End {
    /// Its number, which is its place in the list of ends.
    pub fn number(self) -> u8
        ensures { result ≡ end_number self }
    {
        match self {
            End::Spent => 0,
            End::Finished(_) => 1,
            End::Fault(_) => 2,
        }
    }

    // A number, 0 for none, as the lists of answers have it.
    /// The slot that it is about, 0 for none.
    pub fn slot(self) -> u8
        ensures { result ≡ end_slot self }
    {
        match self {
            End::Spent => 0,
            End::Finished(slot) => slot,
            End::Fault(fault) => fault.slot(),
        }
    }
}
