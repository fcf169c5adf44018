// A device at a target: it takes commands of six bytes, at LUN 0.
ghost use Rattle.std.specs.Prelude.{◌≡◌, ℕ, ◌<◌, ◌≤◌, true, false, List, length, MatchOption, MatchResult};
ghost use Rattle.std.proofs.Common.{rules};
ghost use Rattle.shelf.specs.declared.Way.TheVariants.{Out};
ghost use Rattle.devices.specs.declared.device.MakeError.TheVariants.{NoSuchTarget, OutOfMemory};
ghost use Rattle.devices.specs.Device.{Device as Answers, heard, data_count, device_model};

use shelf::{Shelf, Unit, Way};
use std::alloc::AllocError;
use std::error::Error;
use std::fmt;

/// Why a device cannot be made.
#[derive(Clone, Copy, PartialEq, Eq, Debug)]
pub enum MakeError {
    /// Targets are 0 to 6.
    NoSuchTarget,
    /// More blocks than block numbers reach.
    TooManyBlocks,
    OutOfMemory,
}

impl fmt::Display for MakeError {
    fn fmt<W: fmt::Write>(&self, f: &mut fmt::Formatter<W>) -> fmt::Result {
        let text = match self {
            MakeError::NoSuchTarget => "a device's target is 0 to 6",
            MakeError::TooManyBlocks => "a disk has at most 2,097,152 blocks",
            MakeError::OutOfMemory => "there is not enough memory for a device",
        };
        write!(f, "{text}")
    }
}

impl Error for MakeError {}

impl From<AllocError> for MakeError {
    ghost from_gives = { λ _ r. r ≡ OutOfMemory };

    fn from(_: AllocError) -> MakeError {
        MakeError::OutOfMemory
    }
}

/// Whether a device can be at this target.
pub(crate) fn check_target(target: u8) -> Result<(), MakeError>
    ensures { MatchResult result (λ _. target ≤ 6) (λ e. (e ≡ NoSuchTarget) × (6 < target)) }
{
    if target > 6 {
        return Err(MakeError::NoSuchTarget);
    }
    Ok(())
}

/// What a device makes of the commands of six bytes that it hears.
pub trait Device {
    /// How the device answers.
    ghost answers: { Self → Answers };

    /// The bytes that the device holds.
    ghost holds: { Self → List ℕ };

    /// Which way this command's data goes, and how many bytes there are.
    fn way(&self, command: &[u8; 6]) -> (Way, u16)
        ensures way { result.0 ≡ (answers self.now).way command.now }
        ensures count { result.1 ≡ data_count result.0 ((answers self.now).count command.now) };

    /// The byte at this place of an in command's data.
    fn byte(&self, command: &[u8; 6], place: u16) -> u8
        ensures { result ≡ (answers self.now).byte (holds self.now) command.now place };

    /// Whether there is space for an out command's bytes.
    fn has_space(&self, command: &[u8; 6]) -> bool
        ensures { result ≡ (answers self.now).space (holds self.now) command.now };

    /// Takes an out command's bytes: as many as it speaks of, and there is space for them.
    fn fill(&mut self, command: &[u8; 6], out: &[u8])
        requires way { (answers self.old).way command.now ≡ Out }
        requires count { length out.now ≡ (answers self.old).count command.now }
        requires space { (answers self.old).space (holds self.old) command.now ≡ true }
        ensures answers { answers self.new ≡ answers self.old }
        ensures holds { holds self.new ≡ (answers self.old).filled (holds self.old) command.now out.now };

    /// A command moves at most 2,048 bytes.
    ghost small: { (d : Self) (c : List ℕ) → data_count ((answers d).way c) ((answers d).count c) ≤ 2048 };
}

const GOOD: u8 = 0x00;

const CHECK_CONDITION: u8 = 0x02;

const TEST_UNIT_READY: u8 = 0x00;

/// A device at one target.
#[derive(Drop)]
pub struct At<D> {
    pub(crate) target: u8,
    pub(crate) device: D,
}

impl<D: Device> At<D> {
    /// The command, where the device hears it.
    fn heard<'a>(&self, unit: Unit, command: &'a [u8]) -> Option<&'a [u8; 6]>
        ensures { MatchOption result (heard self.now.target unit.target unit.lun command.now ≡ false) (λ c. (heard self.now.target unit.target unit.lun command.now ≡ true) × (c.now ≡ command.now)) }
    {
        if unit.target != self.target || unit.lun != 0 {
            return None;
        }
        command.try_into().ok()
    }
}

impl<D: Device> Shelf for At<D> {
    ghost model = { λ a. device_model a.target (D.answers a.device) (D.holds a.device) };

    ghost lawful = { λ a. let small = D.small a.device in Prim.search rules };

    fn present(&self, target: u8) -> bool {
        target == self.target
    }

    fn way(&self, unit: Unit, command: &[u8]) -> (Way, u16) {
        match self.heard(unit, command) {
            Some(command) => self.device.way(command),
            None => (Way::Still, 0),
        }
    }

    fn byte(&self, unit: Unit, command: &[u8], place: u16) -> u8 {
        match self.heard(unit, command) {
            Some(command) if self.device.way(command).0 == Way::In => {
                self.device.byte(command, place)
            }
            _ => 0,
        }
    }

    fn status(&self, unit: Unit, command: &[u8]) -> u8 {
        let Some(command) = self.heard(unit, command) else {
            return CHECK_CONDITION;
        };
        let is_good = match self.device.way(command).0 {
            Way::Still => command[0] == TEST_UNIT_READY,
            Way::In => true,
            Way::Out => self.device.has_space(command),
        };
        if is_good { GOOD } else { CHECK_CONDITION }
    }

    fn finish(&mut self, unit: Unit, command: &[u8], out: &[u8]) -> u8 {
        let status = self.status(unit, command);
        if let Some(command) = self.heard(unit, command) {
            let (way, count) = self.device.way(command);
            if way == Way::Out
                && out.len() == usize::from(count)
                && self.device.has_space(command)
            {
                self.device.fill(command, out);
            }
        }
        status
    }
}
