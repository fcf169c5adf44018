// The rows of the step table while a slot holds the line.
ghost use Rattle.std.specs.Prelude.{◌≡◌, ◌≢◌, ◌+◌, ◌<◌, ℕ, List, true, if◌then◌else◌, Some, None, IfOk};
ghost use Rattle.slots.specs.declared.slot.State.TheVariants.{Connected};
ghost use Rattle.table.specs.Engine.{numbered, tagged};
ghost use Rattle.scsi.specs.Words.{word_byte};
ghost use Rattle.table.specs.Script.{Plays};
ghost use Rattle.table.specs.Table.{data_in_by, data_out_by, command_by, status_by, abort_by, held_by, finish_by, advance_by, holding, fault as fault_of};
ghost use Rattle.table.specs.View.{view, slot_at, entry_of};
ghost use Rattle.engine.specs.Fields.{place_for};

use crate::memory::{fetch, store};
use crate::state::Engine;
use bus::{Bus, Shown};
use scsi::Word;
use shelf::Way;
use slots::{Answer, Fault, Holder, Layer, Line, Manner, Outcome, Slot, SlotNumber, State};

// A slot that holds the line, with its number. That the engine's slot of this number is this one relates two values, so it
// stands in the `requires` of each row: a struct with the engine's `&mut` beside would have to keep it at each write.
#[derive(Clone, Copy)]
pub(crate) struct Held {
    pub(crate) k: SlotNumber,
    pub(crate) slot: Slot,
    ghost numbered: { numbered k ≡ true },
    ghost connected: { slot.state ≡ Connected },
}

impl Held {
    // The place of the memory that a byte going this way is at, or how the command ends if none may.
    fn place(&self, way: Way) -> Result<usize, Outcome>
        ensures place { result ≡ place_for way (entry_of self.now.slot) }
        ensures room { IfOk result (λ _. self.now.slot.current + 1 < 4294967296) }
    {
        let region = self.slot.command.region;
        if self.slot.command.direction != way {
            return Err(Outcome::WrongWay);
        }
        if self.slot.current >= region.length {
            return Err(Outcome::Overrun);
        }
        Ok(region.base as usize + self.slot.current as usize)
    }

    // A fault while it holds the line.
    fn fault(&self, layer: Layer, shown: Shown) -> Answer
        ensures { result ≡ fault_of layer shown (Some (holding self.now.k (entry_of self.now.slot))) }
    {
        Answer::Fault(Fault {
            layer,
            shown,
            holder: Some(Holder {
                slot: self.k.get(),
                pointer: self.slot.current,
            }),
        })
    }
}

impl Engine {
    // Slot `k`, which holds the line.
    pub(crate) fn held(&self, k: SlotNumber) -> Held
        requires { self.now.state.line ≡ Line.Held k }
        ensures number { result.k ≡ k }
        ensures slot { slot_at self.now.state.slots k ≡ result.slot }
    {
        Held {
            k,
            slot: self.slot(k),
        }
    }

    // The row by what is shown, with no begun message; bytes of one and PAUSE have other rows.
    pub(crate) fn held_row<B: Bus>(
        &mut self,
        bus: &mut B,
        memory: &mut [u8],
        held: &Held,
        shown: Shown,
    ) -> Answer
        requires as_kept { slot_at self.old.state.slots held.now.k ≡ held.now.slot }
        requires no_byte { (v : ℕ) → shown ≢ Shown.MessageIn v }
        requires no_pause { shown ≢ Shown.Pause }
        ensures { Plays (λ b. (B.Bus.means b).shown) B.Bus.did (held_by (view self.old.state) held.now.k (entry_of held.now.slot) shown) bus.old memory.old result (view self.new.state) bus.new memory.new }
    {
        match shown {
            Shown::DataOut => self.data_out(bus, memory, held),
            Shown::DataIn(byte) => self.data_in(bus, memory, held, byte),
            Shown::Command => self.send_command(bus, held),
            Shown::Status(byte) => match held.slot.status {
                None => self.take_status(bus, held, byte),
                Some(_) => self.violation(bus, shown),
            },
            Shown::MessageOut => {
                let _ = bus.speak(&Word::NoOperation.bytes());
                Answer::Told(Some(held.k.get()))
            }
            Shown::Free => self.dropped(held),
            _ => self.violation(bus, shown),
        }
    }

    // FREE: the target left the line.
    fn dropped(&mut self, held: &Held) -> Answer
        requires { slot_at self.old.state.slots held.now.k ≡ held.now.slot }
        ensures answer { result ≡ fault_of Layer.Nexus Shown.Free (Some (holding held.now.k (entry_of held.now.slot))) }
        ensures after { view self.new.state ≡ finish_by (view self.old.state) held.now.k (entry_of held.now.slot) Outcome.Dropped }
    {
        self.leave(held, State::Finished(Outcome::Dropped));
        held.fault(Layer::Nexus, Shown::Free)
    }

    // The wrong direction, or a place past the region: the command is aborted, and finished with this outcome.
    fn abort<B: Bus>(&mut self, bus: &mut B, held: &Held, shown: Shown, outcome: Outcome) -> Answer
        requires { slot_at self.old.state.slots held.now.k ≡ held.now.slot }
        ensures { (m : List ℕ) → Plays (λ b. (B.Bus.means b).shown) B.Bus.did (abort_by (view self.old.state) held.now.k (entry_of held.now.slot) shown outcome) bus.old m result (view self.new.state) bus.new m }
    {
        let _ = bus.speak(&abort_message(held.slot.command.manner).bytes());
        self.leave(held, State::Finished(outcome));
        held.fault(Layer::Pointer, shown)
    }

    // DATA IN: one byte to the current pointer.
    fn data_in<B: Bus>(&mut self, bus: &mut B, memory: &mut [u8], held: &Held, byte: u8) -> Answer
        requires { slot_at self.old.state.slots held.now.k ≡ held.now.slot }
        ensures { Plays (λ b. (B.Bus.means b).shown) B.Bus.did (data_in_by (view self.old.state) held.now.k (entry_of held.now.slot) byte) bus.old memory.old result (view self.new.state) bus.new memory.new }
    {
        match held.place(Way::In) {
            Ok(place) => {
                let _ = bus.take();
                store(memory, place, byte);
                self.advance(held)
            }
            Err(outcome) => self.abort(bus, held, Shown::DataIn(byte), outcome),
        }
    }

    // DATA OUT: one byte from the current pointer.
    fn data_out<B: Bus>(&mut self, bus: &mut B, memory: &[u8], held: &Held) -> Answer
        requires { slot_at self.old.state.slots held.now.k ≡ held.now.slot }
        ensures { Plays (λ b. (B.Bus.means b).shown) B.Bus.did (data_out_by (view self.old.state) held.now.k (entry_of held.now.slot)) bus.old memory.now result (view self.new.state) bus.new memory.now }
    {
        match held.place(Way::Out) {
            Ok(place) => {
                let _ = bus.give(fetch(memory, place));
                self.advance(held)
            }
            Err(outcome) => self.abort(bus, held, Shown::DataOut, outcome),
        }
    }

    // A byte was moved: the current pointer grows by one.
    fn advance(&mut self, held: &Held) -> Answer
        requires as_kept { slot_at self.old.state.slots held.now.k ≡ held.now.slot }
        requires room { held.now.slot.current + 1 < 4294967296 }
        ensures answer { result ≡ Answer.Moved held.now.k }
        ensures after { view self.new.state ≡ advance_by (view self.old.state) held.now.k (entry_of held.now.slot) }
    {
        self.point(held, held.slot.current + 1);
        Answer::Moved(held.k.get())
    }

    // COMMAND, once.
    fn send_command<B: Bus>(&mut self, bus: &mut B, held: &Held) -> Answer
        requires { slot_at self.old.state.slots held.now.k ≡ held.now.slot }
        ensures { (m : List ℕ) → Plays (λ b. (B.Bus.means b).shown) B.Bus.did (command_by (view self.old.state) held.now.k (entry_of held.now.slot) held.now.slot.sent) bus.old m result (view self.new.state) bus.new m }
    {
        if held.slot.sent {
            return self.violation(bus, Shown::Command);
        }
        let _ = bus.command(held.slot.command.bytes.as_slice());
        let sent = Slot {
            sent: true,
            ..held.slot
        };
        self.keep(Held {
            k: held.k,
            slot: sent,
        });
        Answer::Told(Some(held.k.get()))
    }

    // STATUS, where none has come.
    fn take_status<B: Bus>(&mut self, bus: &mut B, held: &Held, byte: u8) -> Answer
        requires { slot_at self.old.state.slots held.now.k ≡ held.now.slot }
        ensures { (m : List ℕ) → Plays (λ b. (B.Bus.means b).shown) B.Bus.did (status_by (view self.old.state) held.now.k (entry_of held.now.slot) byte None) bus.old m result (view self.new.state) bus.new m }
    {
        let _ = bus.take();
        let told = Slot {
            status: Some(byte),
            ..held.slot
        };
        self.keep(Held {
            k: held.k,
            slot: told,
        });
        Answer::Told(Some(held.k.get()))
    }
}

// ABORT TAG for a tagged command, else ABORT.
fn abort_message(manner: Manner) -> Word
    ensures { word_byte result ≡ (if tagged manner then 0x0D else 0x06) }
{
    match manner {
        Manner::Tagged => Word::AbortTag,
        Manner::Plain | Manner::Leaving => Word::Abort,
    }
}
