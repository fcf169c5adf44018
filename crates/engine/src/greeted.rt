// The rows of the step table while a target retakes the line.
ghost use Rattle.std.specs.Prelude.{◌≡◌, ℕ, List, [], Some};
ghost use Rattle.table.specs.Engine.{seek, held, set_slot, with_state, with_pointers};
ghost use Rattle.std.specs.List.{position};
ghost use Rattle.table.specs.Script.{Plays};
ghost use Rattle.table.specs.Table.{untagged_at, tagged_at, on_lun, greeted_byte, named_byte, tag_byte};
ghost use Rattle.table.specs.View.{view, slot_at, entry_of};
ghost use Rattle.engine.specs.Fields.{away_with, away_with_by};

use crate::held::Held;
use crate::idle::is_tagged;
use crate::state::Engine;
use bus::{Bus, Shown};
use shelf::Unit;
use slots::{Answer, Line, Slot, SlotNumber, State};

impl Engine {
    // 80h to 87h is taken.
    pub(crate) fn lun_byte<B: Bus>(&mut self, bus: &mut B, target: u8, byte: u8) -> Answer
        ensures { (m : List ℕ) → Plays (λ b. (B.Bus.means b).shown) B.Bus.did (greeted_byte (view self.old.state) target byte) bus.old m result (view self.new.state) bus.new m }
    {
        if byte < 0x80 || 0x88 <= byte {
            return self.violation(bus, Shown::MessageIn(byte));
        }
        let _ = bus.take();
        let unit = Unit {
            target,
            lun: byte - 0x80,
        };
        self.unit_named(bus, unit, byte)
    }

    // An untagged away command of the unit is connected; for tagged ones the tag is due.
    fn unit_named<B: Bus>(&mut self, bus: &mut B, unit: Unit, byte: u8) -> Answer
        ensures { (m : List ℕ) → Plays (λ b. (B.Bus.means b).shown) B.Bus.did (on_lun (view self.old.state) unit.target unit.lun byte (seek 16 (untagged_at (view self.old.state) unit.target unit.lun)) (seek 16 (tagged_at (view self.old.state) unit.target unit.lun))) bus.old m result (view self.new.state) bus.new m }
    {
        let untagged = self.find_away(unit, false);
        let tagged = self.find_away(unit, true);
        match (untagged, tagged) {
            (Some(k), _) => self.reconnect(k),
            (None, Some(_)) => {
                self.listen(Line::Named(unit));
                Answer::Told(None)
            }
            (None, None) => self.violation(bus, Shown::MessageIn(byte)),
        }
    }

    // 20h is taken.
    pub(crate) fn queue_byte<B: Bus>(&mut self, bus: &mut B, unit: Unit, byte: u8) -> Answer
        ensures { (m : List ℕ) → Plays (λ b. (B.Bus.means b).shown) B.Bus.did (named_byte (view self.old.state) unit.target unit.lun byte) bus.old m result (view self.new.state) bus.new m }
    {
        if byte != 0x20 {
            return self.violation(bus, Shown::MessageIn(byte));
        }
        let _ = bus.take();
        self.listen(Line::TagDue(unit));
        Answer::Told(None)
    }

    // The tag, which names the slot, is taken.
    pub(crate) fn tag_byte<B: Bus>(&mut self, bus: &mut B, unit: Unit, byte: u8) -> Answer
        ensures { (m : List ℕ) → Plays (λ b. (B.Bus.means b).shown) B.Bus.did (tag_byte (view self.old.state) unit.target unit.lun byte) bus.old m result (view self.new.state) bus.new m }
    {
        let _ = bus.take();
        match SlotNumber::new(byte) {
            Some(k) if is_away_at(self.slot(k), unit, true) => self.reconnect(k),
            _ => self.violation(bus, Shown::MessageIn(byte)),
        }
    }

    // Slot `k`, which is away, is connected again, with its current pointer as saved.
    fn reconnect(&mut self, k: SlotNumber) -> Answer
        requires { (slot_at self.old.state.slots k).state ≡ State.Away }
        ensures answer { result ≡ Answer.Told (Some k) }
        ensures after { view self.new.state ≡ set_slot k (with_state State.Connected (with_pointers ((view self.old.state).slots k).saved ((view self.old.state).slots k).saved ((view self.old.state).slots k))) (held k []) (view self.old.state) }
    {
        let slot = self.slot(k);
        let connected = Slot {
            state: State::Connected,
            current: slot.saved,
            ..slot
        };
        self.keep(Held { k, slot: connected });
        Answer::Told(Some(k.get()))
    }

    // The first slot that is away, tagged or not, and of this unit.
    fn find_away(&self, unit: Unit, tagged: bool) -> Option<SlotNumber>
        ensures { result ≡ seek 16 (away_with tagged (view self.now.state) unit.target unit.lun) }
    {
        SlotNumber::at(first_away(&self.state.slots, unit, tagged)?)
    }
}

// The place of the first slot that is away, tagged or not, and of this unit: apart, as `clear_of_all` is.
fn first_away(slots: &[Slot; 16], unit: Unit, tagged: bool) -> Option<usize>
    ensures { result ≡ position (λ x. away_with_by tagged unit.target unit.lun (entry_of x)) slots.now }
{
    slots
        .iter()
        .position(|slot| is_away_at(*slot, unit, tagged))
}

// Whether the slot is away, tagged or not, and of this unit.
fn is_away_at(slot: Slot, unit: Unit, tagged: bool) -> bool
    ensures { result ≡ away_with_by tagged unit.target unit.lun (entry_of slot) }
{
    slot.state == State::Away
        && slot.command.unit == unit
        && is_tagged(slot.command.manner) == tagged
}
