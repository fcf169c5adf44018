// One command at a time over any bus, by bus calls alone.
#![tactic(auto)]

ghost use Rattle.std.specs.Prelude.{◌≡◌, ◌%◌, ◌<◌, ◌≤◌, [], IfOk, None, Err};
ghost use Rattle.shelf.specs.Model.{Model};
ghost use Rattle.bus.specs.State.{Name, AtRest};
ghost use Rattle.carrier.specs.Carrying.{KeptFrom, Carries};
ghost use Rattle.carrier.specs.Underway.{Going, Turned, Ends, begun};
ghost use Rattle.carrier.specs.declared.Trouble.TheVariants.{Refused};

use bus::{Bus, Refusal, Selection, Shown};
use scsi::Greeting;
use shelf::Unit;
use std::error::Error;
use std::fmt;
use std::ops::ControlFlow;

/// A command that ran to its end: its status, and how many data bytes moved.
#[derive(Clone, Copy, PartialEq, Eq, Debug)]
pub struct Carried {
    pub status: u8,
    pub moved: usize,
}

/// Why a command did not run to its end.
#[derive(Clone, Copy, PartialEq, Eq, Debug)]
pub enum Trouble {
    /// A LUN is 0 to 7.
    NoSuchLun,
    /// The target is not there.
    Absent,
    /// The selection was lost.
    Lost,
    /// The bus refused a call.
    Refused,
    /// More data was asked for than there is.
    OutOfData,
    /// More data came than there is space for.
    OutOfSpace,
    /// The bus showed what this driver does not answer.
    Unexpected(Shown),
    /// The command did not end.
    Endless,
}

impl fmt::Display for Trouble {
    fn fmt<W: fmt::Write>(&self, f: &mut fmt::Formatter<W>) -> fmt::Result {
        let text = match self {
            Trouble::NoSuchLun => "a LUN is 0 to 7",
            Trouble::Absent => "the target is not there",
            Trouble::Lost => "the selection was lost",
            Trouble::Refused => "the bus refused a call",
            Trouble::OutOfData => "more data was asked for than there is",
            Trouble::OutOfSpace => "more data came than there is space for",
            Trouble::Unexpected(shown) => return write!(f, "the bus showed {shown:?}"),
            Trouble::Endless => "the command did not end",
        };
        f.write_str(text)
    }
}

impl Error for Trouble {}

impl From<Refusal> for Trouble {
    ghost from_gives = { λ _ e. e ≡ Refused };

    fn from(_refusal: Refusal) -> Self {
        Self::Refused
    }
}

// What goes out to a unit: a command's bytes, and the data bytes that it may ask for.
// `into` apart: in a struct each clause would have to say that it is still the same reference.
#[derive(Clone, Copy)]
struct Sent<'a> {
    command: &'a [u8],
    out: &'a [u8],
}

const COMMAND_COMPLETE: u8 = 0x00;

// The bus is asked at most so often for one command.
const TURNS: u32 = 1_000_000;

/// Carries one command of a unit from selection to COMMAND COMPLETE, without leave to disconnect; data bytes are given from
/// `out`. In trouble the bus is reset, so that the line is free again; a LUN above 7 is refused before any call on it.
pub fn carry_out<B: Bus>(
    bus: &mut B,
    unit: Unit,
    command: &[u8],
    out: &[u8],
) -> Result<Carried, Trouble>
    ensures lun { 7 < unit.lun → (result ≡ Err Trouble.NoSuchLun) × (bus.new ≡ bus.old) }
    ensures carries { AtRest (B.Bus.means bus.old) → Carries (B.Bus.means bus.old) unit.target unit.lun command.now out.now result [] (B.Bus.means bus.new) }
{
    carry(bus, unit, Sent { command, out }, &mut [])
}

/// The same for a command whose data comes in; it is put into `into`, which keeps what it held past the data.
pub fn carry_in<B: Bus>(
    bus: &mut B,
    unit: Unit,
    command: &[u8],
    into: &mut [u8],
) -> Result<Carried, Trouble>
    ensures kept { IfOk result (λ c. KeptFrom c.moved into.old into.new) }
    ensures lun { 7 < unit.lun → (result ≡ Err Trouble.NoSuchLun) × (bus.new ≡ bus.old) × (into.new ≡ into.old) }
    ensures carries { AtRest (B.Bus.means bus.old) → Carries (B.Bus.means bus.old) unit.target unit.lun command.now [] result into.new (B.Bus.means bus.new) }
{
    carry(bus, unit, Sent { command, out: &[] }, into)
}

// Carries a command whose data may go either way.
fn carry<B: Bus>(bus: &mut B, unit: Unit, sent: Sent, into: &mut [u8]) -> Result<Carried, Trouble>
    ensures kept { IfOk result (λ c. KeptFrom c.moved into.old into.new) }
    ensures lun { 7 < unit.lun → (result ≡ Err Trouble.NoSuchLun) × (bus.new ≡ bus.old) × (into.new ≡ into.old) }
    ensures carries { AtRest (B.Bus.means bus.old) → Carries (B.Bus.means bus.old) unit.target unit.lun sent.entry.command.now sent.entry.out.now result into.new (B.Bus.means bus.new) }
{
    if unit.lun > 7 {
        return Err(Trouble::NoSuchLun);
    }
    let carried = run(bus, unit, sent, into);
    if carried.is_err() {
        bus.reset();
    }
    carried
}

// Selects the unit, and drives the command to its end.
fn run<B: Bus>(bus: &mut B, unit: Unit, sent: Sent, into: &mut [u8]) -> Result<Carried, Trouble>
    ensures kept { IfOk result (λ c. KeptFrom c.moved into.old into.new) }
    ensures ends { AtRest (B.Bus.means bus.old) → Ends (B.Bus.means bus.old).cable.shelf (record { target = unit.target; lun = unit.lun % 8; tag = None }) sent.entry.command.now sent.entry.out.now result into.new (B.Bus.means bus.new) }
{
    let greeting = Greeting {
        lun: unit.lun,
        leave: false,
        tag: None,
    };
    match bus.select(unit.target, greeting.bytes().as_slice())? {
        Selection::Selected => drive(bus, sent, into),
        Selection::Lost => Err(Trouble::Lost),
        Selection::Absent => Err(Trouble::Absent),
    }
}

// Drives the command of the nexus that holds the line to its end.
fn drive<B: Bus>(bus: &mut B, sent: Sent, into: &mut [u8]) -> Result<Carried, Trouble>
    ensures kept { IfOk result (λ c. KeptFrom c.moved into.old into.new) }
    ensures ends { (m : Model) (n : Name) → Going m n sent.entry.command.now sent.entry.out.now begun into.old (B.Bus.means bus.old) → Ends m n sent.entry.command.now sent.entry.out.now result into.new (B.Bus.means bus.new) }
{
    // Status 0 until one comes: `None` would want an error of its own, for a bus not in order that ends a command without one.
    let mut carried = Carried {
        status: 0,
        moved: 0,
    };
    for _ in 0..TURNS {
        if turn(bus, &mut carried, sent, into)?.is_break() {
            return Ok(carried);
        }
    }
    Err(Trouble::Endless)
}

// Looks once, does what the bus shows, and breaks at COMMAND COMPLETE; the status stands once it came.
fn turn<B: Bus>(
    bus: &mut B,
    carried: &mut Carried,
    sent: Sent,
    into: &mut [u8],
) -> Result<ControlFlow<()>, Trouble>
    ensures further { carried.old.moved ≤ carried.new.moved }
    ensures kept { KeptFrom carried.new.moved into.old into.new }
    ensures goes { (m : Model) (n : Name) → Going m n sent.entry.command.now sent.entry.out.now carried.old into.old (B.Bus.means bus.old) → Turned m n sent.entry.command.now sent.entry.out.now result carried.new into.new (B.Bus.means bus.new) }
{
    match bus.look() {
        Shown::Command => bus.command(sent.command)?,
        Shown::DataOut => {
            let byte = sent
                .out
                .get(carried.moved)
                .copied()
                .ok_or(Trouble::OutOfData)?;
            bus.give(byte)?;
            carried.moved += 1;
        }
        Shown::DataIn(_) => {
            // By its index: once a borrow from `get_mut` is over, a proof knows the slice's length and no byte of it.
            if carried.moved >= into.len() {
                return Err(Trouble::OutOfSpace);
            }
            into[carried.moved] = bus.take()?;
            carried.moved += 1;
        }
        Shown::Status(_) => carried.status = bus.take()?,
        Shown::MessageIn(COMMAND_COMPLETE) => {
            bus.take()?;
            return Ok(ControlFlow::Break(()));
        }
        Shown::Pause => bus.wait(),
        other => return Err(Trouble::Unexpected(other)),
    }
    Ok(ControlFlow::Continue(()))
}
