//! A ticket may be looked at, and is handed back once. The edits in refused/ make of these the two programs that the compiler
//! refuses: one lets a ticket lapse, the other collects it twice.
#![tactic(auto)]

ghost use Rattle.std.specs.Prelude.{◌≡◌};
ghost use Rattle.engine.specs.Answers.{GivenBack};

use engine::{Engine, Ticket};
use slots::{Collected, Refusal};

/// The slot that a ticket names, and the ticket.
pub fn named(ticket: Ticket) -> (u8, Ticket)
    ensures slot { result.0 ≡ ticket.slot }
    ensures kept { result.1 ≡ ticket }
{
    (ticket.slot(), ticket)
}

/// What a command came to, or its ticket again.
pub fn hand_back(engine: &mut Engine, ticket: Ticket) -> Result<Collected, (Refusal, Ticket)>
    ensures { GivenBack result ticket }
{
    engine.collect(ticket)
}
