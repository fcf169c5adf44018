ghost use Rattle.std.specs.Prelude.{◌≡◌};
ghost use Rattle.slots.specs.Numbers.{refusal_number};
ghost use Rattle.slots.specs.declared.refusal.Refusal.TheVariants.{Form};

use shelf::NoSuchWay;
use std::error::Error;
use std::fmt;

/// Why a call of the engine is turned down.
#[derive(Clone, Copy, PartialEq, Eq, Debug)]
pub enum Refusal {
    /// The target is above 6.
    Target = 1,
    /// The LUN is above 7.
    Lun = 2,
    /// The command has no length, or another one.
    CommandLength = 3,
    /// There is no such manner or direction, or a command without data has a region.
    Form = 4,
    /// The region passes the memory.
    Outside = 5,
    /// The region shares a byte with that of an uncollected command, and not both are for writing.
    Shared = 6,
    /// No slot is free.
    Full = 7,
    /// The memory has not the stated size.
    MemorySize = 8,
    /// The command is not finished.
    Unfinished = 9,
    /// The memory is larger than an engine may have.
    TooLarge = 10,
}

impl Refusal {
    // As `Layer::number`: `as` takes no type parameter.
    /// Its number, which is its place in the order of the tests.
    pub fn number(self) -> u8
        ensures { result ≡ refusal_number self }
    {
        self as u8
    }
}

impl fmt::Display for Refusal {
    fn fmt<W: fmt::Write>(&self, f: &mut fmt::Formatter<W>) -> fmt::Result {
        f.write_str(match self {
            Refusal::Target => "the target is above 6",
            Refusal::Lun => "the LUN is above 7",
            Refusal::CommandLength => "the command has no length, or another one",
            Refusal::Form => {
                "there is no such manner or direction, or a command without data has a region"
            }
            Refusal::Outside => "the region passes the memory",
            Refusal::Shared => {
                "the region shares a byte with that of an uncollected command, and not both are for writing"
            }
            Refusal::Full => "no slot is free",
            Refusal::MemorySize => "the memory has not the stated size",
            Refusal::Unfinished => "the command is not finished",
            Refusal::TooLarge => "the memory is larger than an engine may have",
        })
    }
}

impl Error for Refusal {}

impl From<NoSuchWay> for Refusal {
    ghost from_gives = { λ _ r. r ≡ Form };

    fn from(_: NoSuchWay) -> Refusal {
        Refusal::Form
    }
}
