// Steps until one finishes a command or answers a fault, or the allowance is spent.
ghost use Rattle.std.specs.Prelude.{◌≡◌, true, false, MatchOption};
ghost use Rattle.table.specs.Calls.{Event, PlaysRun, end_by, is_end};
ghost use Rattle.table.specs.Guarantee.{Lawful};
ghost use Rattle.table.specs.Regions.{OnlyInside};
ghost use Rattle.slots.specs.Numbers.{refused_by_number};
ghost use Rattle.table.specs.View.{view};
ghost use Rattle.engine.specs.Answers.{Ran, Allowed, RunAlone, RefusedChangesNothing};

use crate::state::Engine;
use bus::Bus;
use slots::{Answer, End, Refusal};

impl Engine {
    /// Makes steps until one finishes a command or answers a fault, or until as many as allowed are made. It answers how many
    /// it made, and what ended it. The memory is to have the stated size.
    pub fn run<B: Bus>(
        &mut self,
        bus: &mut B,
        memory: &mut [u8],
        allowance: u32,
    ) -> (u32, Result<End, Refusal>)
        ensures ran { Ran (λ b. (B.Bus.means b).shown) B.Bus.did allowance (view self.old.state) bus.old memory.old result.0 result.1 (view self.new.state) bus.new memory.new }
        ensures allowed { Allowed allowance result.0 result.1 }
        ensures lawful { Lawful (Event.run allowance result.0 (refused_by_number result.1)) (record { engine = view self.old.state; bus = B.Bus.means bus.old; memory = memory.old }) (record { engine = view self.new.state; bus = B.Bus.means bus.new; memory = memory.new }) }
        ensures inside { OnlyInside (view self.old.state) memory.old memory.new }
        ensures isolated { RunAlone (λ b. (B.Bus.means b).shown) B.Bus.did allowance (view self.old.state) bus.old memory.old result.0 result.1 (view self.new.state) bus.new memory.new }
        ensures refused { RefusedChangesNothing result.1 self.old.state self.new.state }
    {
        if memory.len() != self.state.size as usize {
            return (0, Err(Refusal::MemorySize));
        }
        let (made, end) = self.rows(bus, memory, allowance);
        (made, Ok(end))
    }

    // Rows of the table, one after another; the allowance falls by one with each.
    fn rows<B: Bus>(&mut self, bus: &mut B, memory: &mut [u8], allowance: u32) -> (u32, End)
        ensures { PlaysRun (λ b. (B.Bus.means b).shown) B.Bus.did allowance (view self.old.state) bus.old memory.old result.0 result.1 (view self.new.state) bus.new memory.new }
    {
        for made in 1..=allowance {
            if let Some(end) = end_of(self.row(bus, memory)) {
                return (made, end);
            }
        }
        (allowance, End::Spent)
    }
}

// How an answer ends a run, if it does.
fn end_of(answer: Answer) -> Option<End>
    ensures { MatchOption result (is_end (end_by answer) ≡ false) (λ end. (end_by answer ≡ end) × (is_end end ≡ true)) }
{
    match answer {
        Answer::Finished(slot) => Some(End::Finished(slot)),
        Answer::Fault(fault) => Some(End::Fault(fault)),
        _ => None,
    }
}
