// A command is submitted: the tests, and its slot.
ghost use Rattle.std.specs.Prelude.{◌≡◌, IfOk, None};
ghost use Rattle.table.specs.Engine.{every, is_out, in_use};
ghost use Rattle.table.specs.Calls.{command_asked, share, clear_by, clear_of, malformed, earlier_refusal, submit_answer, submit_engine, Event};
ghost use Rattle.table.specs.View.{view, entry_of, command_of};
ghost use Rattle.engine.specs.Answers.{asked, refusal_told, ticket_told, RefusedChangesNothing};
ghost use Rattle.engine.specs.Lawfully.{LawfulBeside};
ghost use Rattle.std.specs.List.{list_all};

use crate::request::Request;
use crate::state::Engine;
use crate::ticket::Ticket;
use scsi::Cdb;
use shelf::Way;
use slots::{Command, Manner, Refusal, Region, Slot, SlotNumber, State};

impl Engine {
    /// Accepts a command: it waits in a slot of its own, which the ticket names. The first test that fails refuses it.
    pub fn submit(&mut self, request: Request<'_>) -> Result<Ticket, Refusal>
        ensures answer { ticket_told result ≡ submit_answer (earlier_refusal (view self.old.state) (asked request.entry)) (view self.old.state) }
        ensures after { view self.new.state ≡ submit_engine (earlier_refusal (view self.old.state) (asked request.entry)) (asked request.entry) (view self.old.state) }
        ensures lawful { LawfulBeside (Event.submit (asked request.entry) (ticket_told result)) (view self.old.state) (view self.new.state) }
        ensures refused { RefusedChangesNothing result self.old.state self.new.state }
    {
        let command = self.admit(request)?;
        let k = SlotNumber::new(self.state.free).ok_or(Refusal::Full)?;
        self.enqueue(k, command);
        Ok(Ticket { slot: k })
    }

    // The command, or the first test that refuses it.
    fn admit(&self, request: Request<'_>) -> Result<Command, Refusal>
        ensures refused { refusal_told result ≡ earlier_refusal (view self.now.state) (asked request.entry) }
        ensures command { IfOk result (λ c. command_of c ≡ command_asked (asked request.entry)) }
    {
        let command = well_formed(request)?;
        if command.region.end() > u64::from(self.state.size) {
            return Err(Refusal::Outside);
        }
        if !self.is_clear(command) {
            return Err(Refusal::Shared);
        }
        Ok(command)
    }

    // Whether no command in use has a region that this one may not share.
    fn is_clear(&self, command: Command) -> bool
        ensures { result ≡ every 16 (clear_of (view self.now.state) (command_of command)) }
    {
        clear_of_all(command, &self.state.slots)
    }
}

// The command, as far as the request's own form allows it.
fn well_formed(request: Request<'_>) -> Result<Command, Refusal>
    ensures refused { refusal_told result ≡ malformed (asked request.entry) None }
    ensures command { IfOk result (λ c. command_of c ≡ command_asked (asked request.entry)) }
{
    if request.unit.target > 6 {
        return Err(Refusal::Target);
    }
    if request.unit.lun > 7 {
        return Err(Refusal::Lun);
    }
    let bytes = Cdb::new(request.bytes).ok_or(Refusal::CommandLength)?;
    let manner = Manner::try_from(request.manner)?;
    let direction = Way::try_from(request.direction)?;
    if direction == Way::Still && request.region.length != 0 {
        return Err(Refusal::Form);
    }
    Ok(Command {
        unit: request.unit,
        manner,
        direction,
        bytes,
        region: request.region,
    })
}

// Whether this command may be accepted beside those of all the slots. The check proves a search of a list where it is all
// that a function promises.
fn clear_of_all(command: Command, slots: &[Slot; 16]) -> bool
    ensures { result ≡ list_all (λ x. clear_by (command_of command) (entry_of x)) slots.now }
{
    slots.iter().all(|slot| clear_of(command, *slot))
}

// Whether this command may be accepted beside that of the slot.
fn clear_of(command: Command, slot: Slot) -> bool
    ensures { result ≡ clear_by (command_of command) (entry_of slot) }
{
    slot.state == State::Free
        || !regions_share(command.region, slot.command.region)
        || (command.direction == Way::Out && slot.command.direction == Way::Out)
}

// Whether two regions share a byte.
fn regions_share(a: Region, b: Region) -> bool
    ensures { result ≡ share a.base a.length b.base b.length }
{
    0 < a.length && 0 < b.length && u64::from(a.base) < b.end() && u64::from(b.base) < a.end()
}
