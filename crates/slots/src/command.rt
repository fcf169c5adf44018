ghost use Rattle.std.specs.Prelude.{◌≡◌, ◌+◌};
ghost use Rattle.slots.specs.Numbers.{manner_number, GivesManner};

use crate::refusal::Refusal;
use scsi::Cdb;
use shelf::{Unit, Way};

/// How a command may use the line.
#[derive(Clone, Copy, PartialEq, Eq, Debug)]
pub enum Manner {
    /// It holds the line to its end.
    Plain = 0,
    /// Its target may disconnect.
    Leaving = 1,
    /// It is tagged, and its target may disconnect.
    Tagged = 2,
}

/// A region of the memory: where it begins, and how many bytes it has.
#[derive(Clone, Copy, PartialEq, Eq, Debug)]
pub struct Region {
    pub base: u32,
    pub length: u32,
}

/// A command as it was accepted: its unit, its manner, which way its data goes, the bytes for the unit, and the region of
/// the memory that the data goes to or comes from.
#[derive(Clone, Copy, PartialEq, Eq, Debug)]
pub struct Command {
    pub unit: Unit,
    pub manner: Manner,
    pub direction: Way,
    pub bytes: Cdb,
    pub region: Region,
}

impl Region {
    /// The place behind its last byte.
    pub fn end(self) -> u64
        ensures { result ≡ self.base + self.length }
    {
        u64::from(self.base) + u64::from(self.length)
    }
}

impl Manner {
    // As `Layer::number`: `as` takes no type parameter.
    /// Its number.
    pub fn number(self) -> u8
        ensures { result ≡ manner_number self }
    {
        self as u8
    }
}

impl TryFrom<u8> for Manner {
    type Error = Refusal;

    ghost try_from_gives = { GivesManner };

    fn try_from(number: u8) -> Result<Self, Refusal> {
        match number {
            0 => Ok(Manner::Plain),
            1 => Ok(Manner::Leaving),
            2 => Ok(Manner::Tagged),
            _ => Err(Refusal::Form),
        }
    }
}
