// The rows of the step table while the line is idle.
ghost use Rattle.std.specs.Prelude.{◌≡◌, ◌≢◌, ℕ, true, List, Some};
ghost use Rattle.table.specs.Engine.{first_of, stands_on, tagged, tag_for, may_leave};
ghost use Rattle.std.specs.List.{list_all};
ghost use Rattle.table.specs.Script.{Plays};
ghost use Rattle.table.specs.Table.{lets_by, eligible, on_free, idle_row};
ghost use Rattle.table.specs.View.{view, entry_of};

use crate::changes::is_open;
use crate::state::Engine;
use bus::{Bus, Selection, Shown};
use scsi::Greeting;
use slots::{Answer, Command, Line, Manner, Outcome, Slot, SlotNumber, State};
use std::iter::successors;

impl Engine {
    // The row by what is shown.
    pub(crate) fn idle_row<B: Bus>(&mut self, bus: &mut B, shown: Shown) -> Answer
        requires { shown ≢ Shown.Pause }
        ensures { (m : List ℕ) → Plays (λ b. (B.Bus.means b).shown) B.Bus.did (idle_row (view self.old.state) shown) bus.old m result (view self.new.state) bus.new m }
    {
        match shown {
            Shown::Free => self.on_free(bus),
            Shown::Reselect(target) => {
                let _ = bus.accept();
                self.listen(Line::Greeted(target));
                Answer::Accepted
            }
            _ => self.violation(bus, shown),
        }
    }

    // FREE: the first eligible waiting command is selected.
    fn on_free<B: Bus>(&mut self, bus: &mut B) -> Answer
        ensures { (m : List ℕ) → Plays (λ b. (B.Bus.means b).shown) B.Bus.did (on_free (view self.old.state) (first_of (view self.old.state).waiting (eligible (view self.old.state)))) bus.old m result (view self.new.state) bus.new m }
    {
        match self.first_eligible() {
            Some(k) => self.select(bus, k),
            None => {
                bus.wait();
                Answer::Idle
            }
        }
    }

    // Slot `k`, which waits, is selected.
    fn select<B: Bus>(&mut self, bus: &mut B, k: SlotNumber) -> Answer
        requires { stands_on k (view self.old.state).waiting ≡ true }
        ensures { (m : List ℕ) → Plays (λ b. (B.Bus.means b).shown) B.Bus.did (on_free (view self.old.state) (Some k)) bus.old m result (view self.new.state) bus.new m }
    {
        let slot = self.slot(k);
        match bus.select(
            slot.command.unit.target,
            greeting(k, slot.command).bytes().as_slice(),
        ) {
            Ok(Selection::Selected) => {
                let connected = Slot {
                    state: State::Connected,
                    current: 0,
                    saved: 0,
                    ..slot
                };
                self.unqueue(k, connected, Line::Held(k));
                Answer::Selected(k.get())
            }
            Ok(Selection::Lost) => Answer::Lost(k.get()),
            Ok(Selection::Absent) => {
                let finished = Slot {
                    state: State::Finished(Outcome::Absent),
                    ..slot
                };
                self.unqueue(k, finished, Line::Idle);
                Answer::Finished(k.get())
            }
            Err(_) => self.violation(bus, Shown::Free),
        }
    }

    // The first slot of the waiting chain that is eligible.
    fn first_eligible(&self) -> Option<SlotNumber>
        ensures { result ≡ first_of (view self.now.state).waiting (eligible (view self.now.state)) }
    {
        successors(SlotNumber::new(self.state.waiting), |k| {
            SlotNumber::new(self.slot(*k).next)
        })
        .take(16)
        .find(|k| self.is_eligible(self.slot(*k)))
    }

    // Whether the unit of the slot has no connected or away command, or it and all of those are tagged.
    fn is_eligible(&self, slot: Slot) -> bool
        ensures { result ≡ list_all (λ x. lets_by (entry_of slot) (entry_of x)) self.now.state.slots }
    {
        self.state.slots.iter().all(|other| lets(slot, *other))
    }
}

// Whether the command of `slot` may be selected beside that of `other`.
fn lets(slot: Slot, other: Slot) -> bool
    ensures { result ≡ lets_by (entry_of slot) (entry_of other) }
{
    let meets = is_open(other.state) && slot.command.unit == other.command.unit;
    !meets || is_tagged(slot.command.manner) && is_tagged(other.command.manner)
}

// What slot `k` is selected with.
fn greeting(k: SlotNumber, command: Command) -> Greeting
    ensures lun { result.lun ≡ command.unit.lun }
    ensures leave { result.leave ≡ may_leave command.manner }
    ensures tag { result.tag ≡ tag_for k command.manner }
{
    Greeting {
        lun: command.unit.lun,
        leave: command.manner != Manner::Plain,
        tag: is_tagged(command.manner).then_some(k.get()),
    }
}

pub(crate) fn is_tagged(manner: Manner) -> bool
    ensures { result ≡ tagged manner }
{
    manner == Manner::Tagged
}
