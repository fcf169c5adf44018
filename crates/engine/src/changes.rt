// The changes of the engine that leave it whole; everything else is built from them.
ghost use Rattle.std.specs.Prelude.{◌≡◌, Bool, true, false, [], map};
ghost use Rattle.table.specs.Engine.{held as holds, idle, in_use, is_waiting, is_open, set_slot, unlink_slot, set_line, with_state, with_pointers, stands_on, is_finished};
ghost use Rattle.table.specs.Table.{cleared};
ghost use Rattle.table.specs.Calls.{just_accepted, taken_in, put_back, open_or_waiting, reset_engine};
ghost use Rattle.table.specs.View.{view, slot_at, entry_of, command_of, line_of, reset_slot};
ghost use Rattle.engine.specs.Fields.{GoesOn, Decides, unheld};

use crate::chains::before;
use crate::held::Held;
use crate::state::Engine;
use slots::{Command, Line, Outcome, Slot, SlotNumber, State};

impl Engine {
    // The slot is changed to this, and holds the line with no begun message.
    pub(crate) fn keep(&mut self, held: Held)
        requires open { is_open (slot_at self.old.state.slots held.k).state ≡ true }
        requires same_next { held.slot.next ≡ (slot_at self.old.state.slots held.k).next }
        ensures { view self.new.state ≡ set_slot held.k (entry_of held.slot) (holds held.k []) (view self.old.state) }
    {
        self.state.slots[held.k.place()] = held.slot;
        self.state.line = Line::Held(held.k);
        self.state.begun.clear();
    }

    // The slot's current pointer is this, and it holds the line with no begun message.
    pub(crate) fn point(&mut self, held: &Held, current: u32)
        requires { slot_at self.old.state.slots held.now.k ≡ held.now.slot }
        ensures { view self.new.state ≡ set_slot held.now.k (with_pointers current held.now.slot.saved (entry_of held.now.slot)) (holds held.now.k []) (view self.old.state) }
    {
        // In place, so that no slot is copied for a data byte.
        self.state.slots[held.k.place()].current = current;
        self.state.line = Line::Held(held.k);
        self.state.begun.clear();
    }

    // The slot goes to this state, and the line is idle.
    pub(crate) fn leave(&mut self, held: &Held, state: State)
        requires as_kept { slot_at self.old.state.slots held.now.k ≡ held.now.slot }
        requires used { in_use state ≡ true }
        requires not_waiting { is_waiting state ≡ false }
        ensures { view self.new.state ≡ set_slot held.now.k (with_state state (entry_of held.now.slot)) idle (view self.old.state) }
    {
        self.state.slots[held.k.place()] = Slot { state, ..held.slot };
        self.state.line = Line::Idle;
        self.state.begun.clear();
    }

    // The slot holds the line with no begun message.
    pub(crate) fn hold(&mut self, held: &Held)
        requires { slot_at self.old.state.slots held.now.k ≡ held.now.slot }
        ensures { view self.new.state ≡ set_line (holds held.now.k []) (view self.old.state) }
    {
        self.state.line = Line::Held(held.k);
        self.state.begun.clear();
    }

    // The line is held by no slot.
    pub(crate) fn listen(&mut self, line: Line)
        requires { unheld line ≡ true }
        ensures { view self.new.state ≡ set_line (line_of line []) (view self.old.state) }
    {
        self.state.line = line;
        self.state.begun.clear();
    }

    // All connected and away commands are finished RESET, and the line is idle.
    pub(crate) fn clear(&mut self)
        ensures { view self.new.state ≡ cleared (view self.old.state) }
    {
        reset_where(&mut self.state.slots, is_open);
        self.state.line = Line::Idle;
        self.state.begun.clear();
    }

    // So are waiting ones.
    pub(crate) fn clear_all(&mut self)
        ensures { view self.new.state ≡ reset_engine (view self.old.state) }
    {
        reset_where(&mut self.state.slots, is_unfinished);
        self.state.waiting = 0;
        self.state.line = Line::Idle;
        self.state.begun.clear();
    }

    // A finished slot goes to the free head.
    pub(crate) fn put_back(&mut self, k: SlotNumber)
        requires { is_finished (slot_at self.old.state.slots k).state ≡ true }
        ensures { view self.new.state ≡ put_back k (view self.old.state) }
    {
        self.state.slots[k.place()] = Slot {
            next: self.state.free,
            state: State::Free,
            ..self.slot(k)
        };
        self.state.free = k.get();
    }

    // The free head takes this command, and goes to the end of the waiting chain.
    pub(crate) fn enqueue(&mut self, k: SlotNumber, command: Command)
        requires free_head { self.old.state.free ≡ k }
        ensures { view self.new.state ≡ taken_in (command_of command) (view self.old.state).free (view self.old.state) }
    {
        self.state.free = self.state.slots[k.place()].next;
        if let Some(head) = SlotNumber::new(self.state.waiting) {
            let last = before(&self.state.slots, head, k);
            self.state.slots[last.place()].next = k.get();
        } else {
            self.state.waiting = k.get();
        }
        self.state.slots[k.place()] = accepted(command);
    }

    // Slot `k` leaves the waiting chain, and is changed, and the line: a waiting slot off its chain, or another one on it, is
    // no engine, so what it becomes comes along.
    pub(crate) fn unqueue(&mut self, k: SlotNumber, slot: Slot, line: Line)
        requires waits { stands_on k (view self.old.state).waiting ≡ true }
        requires goes_on { GoesOn k slot line }
        ensures { view self.new.state ≡ unlink_slot k (entry_of slot) (line_of line []) (view self.old.state) }
    {
        let next = self.state.slots[k.place()].next;
        match SlotNumber::new(self.state.waiting) {
            Some(head) if head != k => {
                let at = before(&self.state.slots, head, k);
                self.state.slots[at.place()].next = next;
            }
            _ => self.state.waiting = next,
        }
        self.state.slots[k.place()] = Slot { next: 0, ..slot };
        self.state.line = line;
        self.state.begun.clear();
    }
}

// A slot that has just taken this command.
fn accepted(command: Command) -> Slot
    ensures entry { entry_of result ≡ just_accepted (command_of command) }
    ensures next { result.next ≡ 0 }
{
    Slot {
        next: 0,
        state: State::Waiting,
        command,
        current: 0,
        saved: 0,
        sent: false,
        status: None,
    }
}

// Whether it is connected or away.
pub(crate) fn is_open(state: State) -> bool
    ensures { result ≡ is_open state }
{
    matches!(state, State::Connected | State::Away)
}

// Whether it has a command that is not finished.
fn is_unfinished(state: State) -> bool
    ensures { result ≡ open_or_waiting state }
{
    is_open(state) || matches!(state, State::Waiting)
}

// The slots are finished RESET whose state passes the test.
fn reset_where<F: Fn(State) -> bool>(slots: &mut [Slot; 16], passes: F)
    requires { F.IsAlwaysCallable passes }
    ensures { (p : State → Bool) → Decides (F.post passes) p → slots.new ≡ map (reset_slot p) slots.old }
{
    for slot in slots.iter_mut() {
        if passes(slot.state) {
            slot.state = State::Finished(Outcome::Reset);
        }
    }
}
