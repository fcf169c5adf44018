// The set of units behind a bus: what a shelf means, the laws that every shelf shows, and the serving of one command.
#![tactic(auto)]

ghost use Rattle.std.specs.Prelude.{◌≡◌};
ghost use Rattle.shelf.specs.Model.{Model, is_present, way_of, count_of, byte_of, status_of, finished};
ghost use Rattle.shelf.specs.Laws.{Laws};
ghost use Rattle.shelf.specs.Ways.{GivesWay};

use std::error::Error;
use std::fmt;

/// Which way a command's data goes: none, in to the initiator, or out to the unit.
#[derive(Clone, Copy, PartialEq, Eq, Debug)]
pub enum Way {
    Still,
    In,
    Out,
}

/// A number that is no way's.
#[derive(Clone, Copy, PartialEq, Eq, Debug)]
pub struct NoSuchWay(pub u8);

impl TryFrom<u8> for Way {
    type Error = NoSuchWay;

    ghost try_from_gives = { GivesWay };

    fn try_from(number: u8) -> Result<Self, NoSuchWay> {
        match number {
            0 => Ok(Way::Still),
            1 => Ok(Way::In),
            2 => Ok(Way::Out),
            _ => Err(NoSuchWay(number)),
        }
    }
}

impl fmt::Display for NoSuchWay {
    fn fmt<W: fmt::Write>(&self, f: &mut fmt::Formatter<W>) -> fmt::Result {
        write!(f, "no way has the number {}", self.0)
    }
}

impl Error for NoSuchWay {}

/// A unit: its target (0 to 6) and its LUN (0 to 7).
#[derive(Clone, Copy, PartialEq, Eq, Debug)]
pub struct Unit {
    pub target: u8,
    pub lun: u8,
}

// Unit and command apart: with the borrowed bytes in a struct each clause would have to read it as it was at entry.
/// The units behind a bus.
pub trait Shelf {
    /// What the shelf means, as a value of one type for all shelves.
    ghost model: { Self → Model };

    /// Whether there is a device at this target.
    fn present(&self, target: u8) -> bool
        ensures { result ≡ is_present (model self.now) target };

    /// Which way this command's data goes, and how many bytes there are.
    fn way(&self, unit: Unit, command: &[u8]) -> (Way, u16)
        ensures way { result.0 ≡ way_of (model self.now) unit.target unit.lun command.now }
        ensures count { result.1 ≡ count_of (model self.now) unit.target unit.lun command.now };

    /// The byte at this place of an in command's data.
    fn byte(&self, unit: Unit, command: &[u8], place: u16) -> u8
        ensures { result ≡ byte_of (model self.now) unit.target unit.lun command.now place };

    /// The status that this command would end with.
    fn status(&self, unit: Unit, command: &[u8]) -> u8
        ensures { result ≡ status_of (model self.now) unit.target unit.lun command.now };

    /// Ends this command with its out bytes: answers the status, and changes the unit.
    fn finish(&mut self, unit: Unit, command: &[u8], out: &[u8]) -> u8
        ensures status { result ≡ status_of (model self.old) unit.target unit.lun command.now }
        ensures after { model self.new ≡ finished (model self.old) unit.target unit.lun command.now out.now };

    ghost lawful: { (s : Self) → Laws (model s) };
}
