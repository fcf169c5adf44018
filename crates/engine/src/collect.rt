// A finished command is collected.
ghost use Rattle.std.specs.Prelude.{◌≡◌};
ghost use Rattle.table.specs.Calls.{collect_answer, collect_engine, Event};
ghost use Rattle.table.specs.View.{view};
ghost use Rattle.engine.specs.Answers.{collected_told, GivenBack, RefusedChangesNothing};
ghost use Rattle.engine.specs.Lawfully.{LawfulBeside};

use crate::state::Engine;
use crate::ticket::Ticket;
use slots::{Collected, Refusal, State};

impl Engine {
    /// What a finished command came to; its slot is free again. Where it is not finished the ticket is given back.
    pub fn collect(&mut self, ticket: Ticket) -> Result<Collected, (Refusal, Ticket)>
        ensures answer { collected_told result ≡ collect_answer ((view self.old.state).slots ticket.slot).state ((view self.old.state).slots ticket.slot) }
        ensures ticket { GivenBack result ticket }
        ensures after { view self.new.state ≡ collect_engine ((view self.old.state).slots ticket.slot).state ticket.slot (view self.old.state) }
        ensures lawful { LawfulBeside (Event.collect ticket.slot (collected_told result)) (view self.old.state) (view self.new.state) }
        ensures refused { RefusedChangesNothing result self.old.state self.new.state }
    {
        let Ticket { slot: k } = ticket;
        let slot = self.slot(k);
        let State::Finished(outcome) = slot.state else {
            return Err((Refusal::Unfinished, Ticket { slot: k }));
        };
        self.put_back(k);
        Ok(Collected {
            outcome,
            status: slot.status,
            count: slot.current,
        })
    }
}
