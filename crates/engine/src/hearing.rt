// Messages of the target while a slot holds the line.
ghost use Rattle.std.specs.Prelude.{◌≡◌, ℕ, ◌≤◌, List, [], ◌∷◌, ◌++◌, length, Some, None, IsNone};
ghost use Rattle.scsi.specs.Messages.{message_of};
ghost use Rattle.table.specs.Engine.{held as holds, set_line};
ghost use Rattle.table.specs.Script.{Plays};
ghost use Rattle.table.specs.Table.{heard_of, rejecting, by_heard, message_by};
ghost use Rattle.table.specs.View.{view, slot_at, entry_of};

use crate::held::Held;
use crate::state::Engine;
use bus::Bus;
use scsi::{Word, read};
use slots::{Answer, Heard, Line, Outcome, Slot, State};

impl Engine {
    // A message byte, which is taken; the message acts at its last byte.
    pub(crate) fn message_byte<B: Bus>(&mut self, bus: &mut B, held: &Held, byte: u8) -> Answer
        requires { slot_at self.old.state.slots held.now.k ≡ held.now.slot }
        ensures { (m : List ℕ) → Plays (λ b. (B.Bus.means b).shown) B.Bus.did (message_by (view self.old.state) held.now.k (entry_of held.now.slot) (self.old.state.begun.items ++ byte ∷ [])) bus.old m result (view self.new.state) bus.new m }
    {
        let _ = bus.take();
        let heard = self.hear(held, byte);
        self.obey(bus, held, heard)
    }

    // The begun message has this byte more: what it comes to, or nothing while it goes on. A whole one is put away.
    // In place: a begun message is not copied.
    fn hear(&mut self, held: &Held, byte: u8) -> Option<Heard>
        requires as_kept { slot_at self.old.state.slots held.now.k ≡ held.now.slot }
        ensures heard { result ≡ heard_of (message_of (self.old.state.begun.items ++ byte ∷ [])) }
        ensures goes_on { IsNone result → self.new.state.begun.items ≡ self.old.state.begun.items ++ byte ∷ [] }
        ensures after { view self.new.state ≡ set_line (holds held.now.k self.new.state.begun.items) (view self.old.state) }
        ensures line { self.new.state.line ≡ Line.Held held.now.k }
        ensures slots { self.new.state.slots ≡ self.old.state.slots }
    {
        self.state.line = Line::Held(held.k);
        self.state.begun.push(byte);
        let heard = comes_to(&self.state.begun)?;
        self.state.begun.clear();
        Some(heard)
    }

    // What a message comes to, by whether the status came.
    fn obey<B: Bus>(&mut self, bus: &mut B, held: &Held, heard: Option<Heard>) -> Answer
        requires as_kept { slot_at self.old.state.slots held.now.k ≡ held.now.slot }
        requires line { self.old.state.line ≡ Line.Held held.now.k }
        ensures { (m : List ℕ) → Plays (λ b. (B.Bus.means b).shown) B.Bus.did (by_heard (view self.old.state) held.now.k (entry_of held.now.slot) self.old.state.begun.items heard held.now.slot.status) bus.old m result (view self.new.state) bus.new m }
    {
        let slot = held.slot;
        match (heard, slot.status) {
            (None, _) => {}
            (Some(Heard::Save), None) => {
                let saved = Slot {
                    saved: slot.current,
                    ..slot
                };
                self.keep(Held {
                    k: held.k,
                    slot: saved,
                });
            }
            (Some(Heard::Restore), None) => {
                let restored = Slot {
                    current: slot.saved,
                    ..slot
                };
                self.keep(Held {
                    k: held.k,
                    slot: restored,
                });
            }
            (Some(Heard::Disconnect), None) => self.leave(held, State::Away),
            (Some(Heard::Reject), None) => self.hold(held),
            (Some(Heard::Complete), Some(_)) => {
                self.leave(held, State::Finished(Outcome::Done));
                return Answer::Finished(held.k.get());
            }
            _ => return self.reject(bus, held),
        }
        Answer::Told(Some(held.k.get()))
    }

    // A message that is not obeyed: MESSAGE REJECT.
    fn reject<B: Bus>(&mut self, bus: &mut B, held: &Held) -> Answer
        requires { slot_at self.old.state.slots held.now.k ≡ held.now.slot }
        ensures { (m : List ℕ) → Plays (λ b. (B.Bus.means b).shown) B.Bus.did (rejecting (view self.old.state) held.now.k) bus.old m result (view self.new.state) bus.new m }
    {
        let _ = bus.speak(&Word::MessageReject.bytes());
        self.hold(held);
        Answer::Told(Some(held.k.get()))
    }
}

// What a message comes to, or nothing while it goes on.
fn comes_to(bytes: &[u8]) -> Option<Heard>
    ensures heard { result ≡ heard_of (message_of bytes.now) }
    ensures short { IsNone result → length bytes.now ≤ 257 }
{
    let (message, _) = read(bytes)?;
    Some(Heard::from(message))
}
