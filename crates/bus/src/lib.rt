// A cable's bus as the initiator meets it: what it shows, the calls on it, what it means, and its rules.
#![tactic(auto)]

ghost use Rattle.std.specs.Prelude.{◌≡◌, true};
ghost use Rattle.shelf.specs.Laws.{Laws};
ghost use Rattle.shelf.specs.Model.{byte_of};
ghost use Rattle.bus.specs.State.{BusState, same_name};
ghost use Rattle.bus.specs.Calls.{Call, Reply, selection_or_refused, took_or_refused, done_or_refused};
ghost use Rattle.bus.specs.Refusals.{name_of};
ghost use Rattle.bus.specs.Effects.{aborts};
ghost use Rattle.bus.specs.Showing.{Shows, data_shown};
ghost use Rattle.bus.specs.Rules.{Did, PausingIsAllowed};
ghost use Rattle.bus.specs.Counting.{AlwaysCounted};
ghost use Rattle.bus.specs.Kinds.{kind_of, byte_shown};

use scsi::{Cdb, Greeting};
use shelf::{Shelf, Unit, Way};
use std::error::Error;
use std::fmt;

/// What a bus shows: its phase, with the byte or the target that goes with it.
#[derive(Clone, Copy, PartialEq, Eq, Debug)]
pub enum Shown {
    DataOut,
    DataIn(u8),
    Command,
    Status(u8),
    Reserved4,
    Reserved5,
    MessageOut,
    MessageIn(u8),
    Free,
    Reselect(u8),
    Pause,
}

impl Shown {
    // By a match: `as` takes no enum whose cases hold something.
    /// The number of its kind.
    pub fn kind(self) -> u8
        ensures { result ≡ kind_of self }
    {
        match self {
            Shown::DataOut => 0,
            Shown::DataIn(_) => 1,
            Shown::Command => 2,
            Shown::Status(_) => 3,
            Shown::Reserved4 => 4,
            Shown::Reserved5 => 5,
            Shown::MessageOut => 6,
            Shown::MessageIn(_) => 7,
            Shown::Free => 8,
            Shown::Reselect(_) => 9,
            Shown::Pause => 10,
        }
    }

    /// The byte that goes with it.
    pub fn byte(self) -> Option<u8>
        ensures { result ≡ byte_shown self }
    {
        match self {
            Shown::DataIn(byte) | Shown::Status(byte) | Shown::MessageIn(byte) => Some(byte),
            _ => None,
        }
    }
}

/// What is shown while a data byte of a command that goes this way is due.
pub fn data_shown<S: Shelf>(shelf: &S, unit: Unit, command: &[u8], way: Way, place: u16) -> Shown
    ensures { result ≡ data_shown way (byte_of (S.Shelf.model shelf.now) unit.target unit.lun command.now place) }
{
    match way {
        Way::Still => Shown::Pause,
        Way::In => Shown::DataIn(shelf.byte(unit, command, place)),
        Way::Out => Shown::DataOut,
    }
}

// Empty is a stage like the others, no option's None: what is shown, taken and spoken is told by all four together.
/// How far the nexus has come, if there is one: it is fresh, has its command, or has its command and its status.
#[derive(Clone, Copy, PartialEq, Eq, Debug)]
pub enum Stage {
    Empty,
    Fresh,
    Commanded(Cdb),
    Ended(Cdb, u8),
}

/// What a nexus was opened with: its target and its greeting.
#[derive(Clone, Copy, PartialEq, Eq, Debug)]
pub struct Opened {
    pub target: u8,
    pub greeting: Greeting,
}

impl Opened {
    /// What stands where no nexus was opened yet.
    pub const NONE: Opened = Opened {
        target: 0,
        greeting: Greeting {
            lun: 0,
            leave: false,
            tag: None,
        },
    };

    /// The unit of its nexus.
    pub fn unit(&self) -> Unit
        ensures { result ≡ record { target = self.now.target; lun = self.now.greeting.lun } }
    {
        Unit {
            target: self.target,
            lun: self.greeting.lun,
        }
    }

    // No derive: the leave is no part of a name.
    /// Whether the nexus of the other has the same name: target, LUN and tag.
    pub fn same_name(&self, other: &Opened) -> bool
        ensures { result ≡ same_name (name_of self.now.target self.now.greeting) (name_of other.now.target other.now.greeting) }
    {
        self.target == other.target
            && self.greeting.lun == other.greeting.lun
            && self.greeting.tag == other.greeting.tag
    }
}

/// What a selection came to.
#[derive(Clone, Copy, PartialEq, Eq, Debug)]
pub enum Selection {
    Selected,
    Lost,
    Absent,
}

/// Why a bus call is refused: it does not fit what is shown, or its greeting is not taken.
#[derive(Clone, Copy, PartialEq, Eq, Debug)]
pub enum Refusal {
    Misfit,
}

impl fmt::Display for Refusal {
    fn fmt<W: fmt::Write>(&self, f: &mut fmt::Formatter<W>) -> fmt::Result {
        f.write_str("the bus refused a call")
    }
}

impl Error for Refusal {}

/// Whether a message that is spoken closes the nexus that holds the line: just ABORT, or just ABORT TAG.
pub fn is_abort(message: &[u8]) -> bool
    ensures { result ≡ aborts message.now }
{
    matches!(message, [0x06 | 0x0d])
}

/// A bus that only pauses keeps the rules.
pub fn pausing_is_allowed()
    ensures { PausingIsAllowed }
{}

/// On a bus in order that began at rest, the number of open nexuses is always theirs, and at most sixteen.
pub fn nexuses_are_counted()
    ensures { AlwaysCounted }
{}

/// A bus with the units of a shelf behind it.
pub trait Bus {
    /// What the bus means, as a value of one type for all buses.
    ghost means: { Self → BusState };

    /// One call of this bus: the bus before, what was asked, what was answered, the bus after.
    /// Code over any bus promises its calls in these terms, so none is dropped, doubled or changed unseen.
    ghost did: { Self → Call → Reply → Self → Type 0 };

    /// What is shown now.
    fn look(&self) -> Shown
        ensures { result ≡ (means self.now).shown };

    // The greeting as it is sent: bytes that are none are refused.
    /// Selects a target with a greeting, to open a nexus that holds the line.
    fn select(&mut self, target: u8, greeting: &[u8]) -> Result<Selection, Refusal>
        ensures { did self.old (Call.select target greeting.now) (selection_or_refused result) self.new };

    /// Lets the target that is shown retake the line.
    fn accept(&mut self) -> Result<(), Refusal>
        ensures { did self.old Call.accept (done_or_refused result) self.new };

    /// Sends the nexus that holds the line its command.
    fn command(&mut self, bytes: &[u8]) -> Result<(), Refusal>
        ensures { did self.old (Call.command bytes.now) (done_or_refused result) self.new };

    /// Gives the data byte that is asked for.
    fn give(&mut self, byte: u8) -> Result<(), Refusal>
        ensures { did self.old (Call.give byte) (done_or_refused result) self.new };

    /// Takes the byte that is shown.
    fn take(&mut self) -> Result<u8, Refusal>
        ensures { did self.old Call.take (took_or_refused result) self.new };

    /// Sends a message.
    fn speak(&mut self, message: &[u8]) -> Result<(), Refusal>
        ensures { did self.old (Call.speak message.now) (done_or_refused result) self.new };

    /// Lets the bus go on to what it shows next.
    fn wait(&mut self)
        ensures { did self.old Call.wait Reply.done self.new };

    /// Closes every nexus and frees the line.
    fn reset(&mut self)
        ensures { did self.old Call.reset Reply.done self.new };

    ghost lawful: { (b : Self) → Laws (means b).cable.shelf };

    ghost shows: { (b : Self) → (means b).order ≡ true → Shows (means b) };

    ghost keeps: { (b : Self) (c : Call) (r : Reply) (a : Self) → did b c r a → Did (means b) c r (means a) };
}
