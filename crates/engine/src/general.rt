// The rows of the step table that are in every state of the line.
ghost use Rattle.std.specs.Prelude.{◌≡◌, ℕ, true, List};
ghost use Rattle.table.specs.Engine.{numbered};
ghost use Rattle.table.specs.Script.{Plays};
ghost use Rattle.table.specs.Table.{holder_now, violation, violated_layer, pausing};
ghost use Rattle.table.specs.View.{view, slot_at};

use crate::state::Engine;
use bus::{Bus, Shown};
use slots::{Answer, Fault, Holder, Layer, Line, Slot, SlotNumber};

impl Engine {
    // What is not listed: the bus is reset, and all connected and away commands are finished RESET.
    pub(crate) fn violation<B: Bus>(&mut self, bus: &mut B, shown: Shown) -> Answer
        ensures { (m : List ℕ) → Plays (λ b. (B.Bus.means b).shown) B.Bus.did (violation (view self.old.state) shown) bus.old m result (view self.new.state) bus.new m }
    {
        let holder = self.holder();
        bus.reset();
        self.clear();
        Answer::Fault(Fault {
            layer: violated_layer(shown),
            shown,
            holder,
        })
    }

    // PAUSE.
    pub(crate) fn pausing<B: Bus>(&mut self, bus: &mut B) -> Answer
        ensures { (m : List ℕ) → Plays (λ b. (B.Bus.means b).shown) B.Bus.did (pausing (view self.old.state)) bus.old m result (view self.new.state) bus.new m }
    {
        bus.wait();
        Answer::Waited(self.holder().map(|holder| holder.slot))
    }

    // The slot that holds the line, with its current pointer.
    fn holder(&self) -> Option<Holder>
        ensures { result ≡ holder_now (view self.now.state) (view self.now.state).line }
    {
        match self.state.line {
            Line::Held(k) => Some(Holder {
                slot: k.get(),
                pointer: self.slot(k).current,
            }),
            _ => None,
        }
    }

    // The slot of this number.
    pub(crate) fn slot(&self, k: SlotNumber) -> Slot
        ensures slot { result ≡ slot_at self.now.state.slots k }
        ensures numbered { numbered k ≡ true }
    {
        self.state.slots[k.place()]
    }
}

// The layer of a violation.
fn violated_layer(shown: Shown) -> Layer
    ensures { result ≡ violated_layer shown }
{
    match shown {
        Shown::MessageIn(_) => Layer::Message,
        _ => Layer::Bus,
    }
}
