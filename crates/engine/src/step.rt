// One step of the step table.
ghost use Rattle.std.specs.Prelude.{◌≡◌, ℕ, List};
ghost use Rattle.table.specs.Script.{Plays};
ghost use Rattle.table.specs.Table.{row, step};
ghost use Rattle.table.specs.Calls.{Event};
ghost use Rattle.table.specs.Guarantee.{Lawful};
ghost use Rattle.table.specs.Regions.{OnlyInside};
ghost use Rattle.slots.specs.Numbers.{refused_by_number};
ghost use Rattle.table.specs.View.{view};
ghost use Rattle.engine.specs.Answers.{Stepped, StepAlone, RefusedChangesNothing};

use crate::state::Engine;
use bus::{Bus, Shown};
use slots::{Answer, Line, Refusal};

impl Engine {
    /// Makes one step: it looks once, and acts by the engine's own line state. The memory is to have the stated size.
    pub fn step<B: Bus>(&mut self, bus: &mut B, memory: &mut [u8]) -> Result<Answer, Refusal>
        ensures stepped { Stepped (λ b. (B.Bus.means b).shown) B.Bus.did (view self.old.state) bus.old memory.old result (view self.new.state) bus.new memory.new }
        ensures lawful { Lawful (Event.step (refused_by_number result)) (record { engine = view self.old.state; bus = B.Bus.means bus.old; memory = memory.old }) (record { engine = view self.new.state; bus = B.Bus.means bus.new; memory = memory.new }) }
        ensures inside { OnlyInside (view self.old.state) memory.old memory.new }
        ensures isolated { StepAlone (λ b. (B.Bus.means b).shown) B.Bus.did (view self.old.state) bus.old memory.old result (view self.new.state) bus.new memory.new }
        ensures refused { RefusedChangesNothing result self.old.state self.new.state }
    {
        if memory.len() != self.state.size as usize {
            return Err(Refusal::MemorySize);
        }
        Ok(self.row(bus, memory))
    }

    // The row of the table.
    pub(crate) fn row<B: Bus>(&mut self, bus: &mut B, memory: &mut [u8]) -> Answer
        ensures { Plays (λ b. (B.Bus.means b).shown) B.Bus.did (step (view self.old.state)) bus.old memory.old result (view self.new.state) bus.new memory.new }
    {
        let shown = bus.look();
        // A copy: no proof is made of a match in place on a type with a model.
        let line = self.state.line;
        match shown {
            Shown::Pause => self.pausing(bus),
            Shown::MessageIn(byte) => self.message_row(bus, line, byte),
            _ => match line {
                Line::Idle => self.idle_row(bus, shown),
                Line::Held(k) if self.state.begun.is_empty() => {
                    let held = self.held(k);
                    self.held_row(bus, memory, &held, shown)
                }
                _ => self.violation(bus, shown),
            },
        }
    }

    // A byte of a message, by what is due.
    fn message_row<B: Bus>(&mut self, bus: &mut B, line: Line, byte: u8) -> Answer
        requires { line ≡ self.old.state.line }
        ensures { (m : List ℕ) → Plays (λ b. (B.Bus.means b).shown) B.Bus.did (row (view self.old.state) (view self.old.state).line (Shown.MessageIn byte)) bus.old m result (view self.new.state) bus.new m }
    {
        match line {
            Line::Idle => self.violation(bus, Shown::MessageIn(byte)),
            Line::Greeted(target) => self.lun_byte(bus, target, byte),
            Line::Named(unit) => self.queue_byte(bus, unit, byte),
            Line::TagDue(unit) => self.tag_byte(bus, unit, byte),
            Line::Held(k) => {
                let held = self.held(k);
                self.message_byte(bus, &held, byte)
            }
        }
    }
}
