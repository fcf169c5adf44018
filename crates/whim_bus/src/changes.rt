// What changes in a whim bus: draws, rows, the line and the shelf.
ghost use Rattle.std.specs.Prelude.{◌≡◌, true, map, cond, None, Some, nat_lt};
ghost use Rattle.std.specs.Fn.{FnOnceReturnsAtMut};
ghost use Rattle.std.specs.List.{list_any, position_or_len};
ghost use Rattle.scsi.specs.Kept.{cdb_bytes};
ghost use Rattle.bus.specs.Kinds.{kind_of, shows_reselect};
ghost use Rattle.bus.specs.Calls.{selection_reply};
ghost use Rattle.bus.specs.Refusals.{name_of, greeting_refused};
ghost use Rattle.whim_bus.specs.Rows.{is_empty, is_named, moved_on, filled, emptied};
ghost use Rattle.whim_bus.specs.State.{row, drawn, with_line, with_rows};
ghost use Rattle.whim_bus.specs.Showing.{shown, returner};
ghost use Rattle.whim_bus.specs.Means.{cable};
ghost use Rattle.whim_bus.specs.Text.{draw_due, settled, opens_row, selects, selection, on_row, sent, ending, comes_back, hears, closes_row, completes, held_hears, message_taken, breaks_off};
ghost use Rattle.whim_bus.specs.View.{row_of, view, HasLine, SeenAs};

use crate::rows::{Row, clear, is_odd};
use crate::state::{Heard, Line, RowNumber, WhimBus};
use bus::{Opened, Selection, Stage};
use scsi::Cdb;
use shelf::Shelf;

impl<S: Shelf> WhimBus<S> {
    // Draws the next whim byte.
    fn draw_next(&mut self)
        ensures { view S.Shelf.model self.new ≡ drawn (view S.Shelf.model self.old) }
    {
        self.draw = self.whims[usize::from(self.at)];
        self.at = self.at.wrapping_add(1);
    }

    // Whether a draw ends the call that led here.
    fn draw_due(&self) -> bool
        ensures { result ≡ draw_due (view S.Shelf.model self.now) self.now.line }
    {
        match self.line {
            Line::Free => true,
            Line::Retaken(_, _) => false,
            Line::Held(k) => self.rows[k.place()].is_underway(),
        }
    }

    // Ends a granted call: draws where a draw is due.
    pub(crate) fn settle(&mut self)
        ensures { view S.Shelf.model self.new ≡ settled (view S.Shelf.model self.old) }
    {
        if self.draw_due() {
            self.draw_next();
        }
    }

    // Whether the nexus that would be opened so is open already.
    fn any_named(&self, opened: &Opened) -> bool
        ensures { result ≡ list_any (is_named (name_of opened.now.target opened.now.greeting)) (view S.Shelf.model self.now).rows }
    {
        self.rows.iter().any(|row| row.is_named(opened))
    }

    // The row for a nexus that would be opened so: none where it is open already, or every row is taken.
    pub(crate) fn room_for(&self, opened: &Opened) -> Option<RowNumber>
        ensures { result ≡ cond (greeting_refused (cable (view S.Shelf.model self.now)) opened.now.target (Some opened.now.greeting)) None (Some (position_or_len is_empty (view S.Shelf.model self.now).rows)) }
    {
        if self.any_named(opened) {
            return None;
        }
        self.rows
            .iter()
            .position(|row| !row.is_open())
            .and_then(RowNumber::at)
    }

    // Opens a fresh nexus in this row, and has it hold the line.
    fn open_row(&mut self, k: RowNumber, opened: Opened)
        ensures { view S.Shelf.model self.new ≡ opens_row opened.target opened.greeting k (view S.Shelf.model self.old) }
    {
        self.rows[k.place()].open(opened);
        self.line = Line::Held(k);
    }

    // A selection that has this row: a present target draws, and odd is lost.
    pub(crate) fn choose(&mut self, k: RowNumber, opened: Opened) -> Selection
        requires { k ≡ position_or_len is_empty (view S.Shelf.model self.old).rows }
        ensures reply { selection_reply result ≡ selection opened.target (view S.Shelf.model self.old) }
        ensures after { view S.Shelf.model self.new ≡ selects opened.target (Some opened.greeting) (view S.Shelf.model self.old) }
    {
        if !self.shelf.present(opened.target) {
            return Selection::Absent;
        }
        self.draw_next();
        if is_odd(self.draw) {
            return Selection::Lost;
        }
        self.open_row(k, opened);
        Selection::Selected
    }

    // Changes the row of the nexus that holds the line.
    fn on_row<F: FnOnce(&mut Row)>(&mut self, change: F)
        requires { (x : _) → HasLine self.old x.now → F.pre change x }
        ensures { (f : _) → SeenAs (λ r r'. FnOnceReturnsAtMut F.FnOnce change r tt r') f → view S.Shelf.model self.new ≡ on_row f self.old.line (view S.Shelf.model self.old) }
    {
        // A copy: no proof is made of a match in place, where self changes, on a type with a model.
        let line = self.line;
        if let Line::Held(k) = line {
            change(&mut self.rows[k.place()]);
        }
    }

    // Sends the nexus that holds the line its command.
    pub(crate) fn send(&mut self, command: Cdb)
        ensures { view S.Shelf.model self.new ≡ on_row (sent (cdb_bytes command)) self.old.line (view S.Shelf.model self.old) }
    {
        self.on_row(|row| row.send(command));
    }

    // Moves the nexus that holds the line on by one data byte.
    pub(crate) fn move_on(&mut self)
        requires { nat_lt (kind_of (shown (view S.Shelf.model self.old))) 2 ≡ true }
        ensures { view S.Shelf.model self.new ≡ on_row moved_on self.old.line (view S.Shelf.model self.old) }
    {
        self.on_row(|row| row.move_on());
    }

    // Keeps an out byte of the nexus that holds the line, and moves it on.
    pub(crate) fn fill(&mut self, byte: u8)
        requires { nat_lt (kind_of (shown (view S.Shelf.model self.old))) 2 ≡ true }
        ensures { view S.Shelf.model self.new ≡ on_row (filled byte) self.old.line (view S.Shelf.model self.old) }
    {
        self.on_row(|row| row.fill(byte));
    }

    // Keeps the status of the nexus that holds the line.
    pub(crate) fn end(&mut self, status: u8)
        ensures { view S.Shelf.model self.new ≡ on_row (ending status) self.old.line (view S.Shelf.model self.old) }
    {
        self.on_row(|row| row.end(status));
    }

    // SAVE DATA POINTER, RESTORE POINTERS or DISCONNECT to the nexus in this row, which holds the line.
    // By the byte, as the whims show it: nothing else of a message is looked at.
    fn hear_underway(&mut self, byte: u8, k: RowNumber)
        ensures { view S.Shelf.model self.new ≡ hears byte k (row (view S.Shelf.model self.old) k) (view S.Shelf.model self.old) }
    {
        match byte {
            0x02 => self.rows[k.place()].save(),
            0x03 => self.rows[k.place()].go_back(),
            0x04 => {
                self.rows[k.place()].go_back();
                self.line = Line::Free;
            }
            _ => {}
        }
    }

    // Closes the nexus in this row, and frees the line.
    fn close_row(&mut self, k: RowNumber)
        ensures { view S.Shelf.model self.new ≡ closes_row k (row (view S.Shelf.model self.old) k) (view S.Shelf.model self.old) }
    {
        self.rows[k.place()].close();
        self.line = Line::Free;
    }

    // Has the shelf serve the command of the nexus in this row, and closes it.
    fn complete(&mut self, k: RowNumber, command: Cdb)
        ensures { view S.Shelf.model self.new ≡ completes (cdb_bytes command) k (row (view S.Shelf.model self.old) k) (view S.Shelf.model self.old) }
    {
        self.rows[k.place()].serve(&mut self.shelf, &command);
        self.close_row(k);
    }

    // A message byte to the nexus in this row, which holds the line.
    fn held_hear(&mut self, byte: u8, k: RowNumber)
        ensures { view S.Shelf.model self.new ≡ held_hears byte k (row (view S.Shelf.model self.old) k) (row (view S.Shelf.model self.old) k).stage (view S.Shelf.model self.old) }
    {
        match self.rows[k.place()].stage {
            Stage::Empty | Stage::Fresh => {}
            Stage::Commanded(_) => self.hear_underway(byte, k),
            Stage::Ended(command, _) => self.complete(k, command),
        }
    }

    // A message byte that is taken.
    pub(crate) fn hear(&mut self, byte: u8)
        ensures { view S.Shelf.model self.new ≡ message_taken byte self.old.line (view S.Shelf.model self.old) }
    {
        let line = self.line; // A copy, as in `on_row`.
        match line {
            Line::Free => {}
            Line::Retaken(k, heard) => self.line = comes_back(k, &self.rows[k.place()], heard),
            Line::Held(k) => self.held_hear(byte, k),
        }
    }

    // Lets the nexus that is shown to come back retake the line.
    pub(crate) fn let_back(&mut self)
        requires { shows_reselect (shown (view S.Shelf.model self.old)) ≡ true }
        ensures { view S.Shelf.model self.new ≡ with_line (Line.Retaken (returner (view S.Shelf.model self.old)) Heard.Nothing) (view S.Shelf.model self.old) }
    {
        if let Some(k) = self.returner() {
            self.line = Line::Retaken(k, Heard::Nothing);
        }
    }

    // Closes every nexus unfinished, and frees the line.
    pub(crate) fn close_all(&mut self)
        ensures { view S.Shelf.model self.new ≡ with_line Line.Free (with_rows (map emptied (view S.Shelf.model self.old).rows) (view S.Shelf.model self.old)) }
    {
        clear(&mut self.rows);
        self.line = Line::Free;
    }

    // Closes the nexus that holds the line unfinished, and frees the line.
    pub(crate) fn break_off(&mut self)
        ensures { view S.Shelf.model self.new ≡ breaks_off self.old.line (view S.Shelf.model self.old) }
    {
        let line = self.line; // A copy, as in `on_row`.
        match line {
            Line::Free => {}
            Line::Retaken(_, _) => self.line = Line::Free,
            Line::Held(k) => self.close_row(k),
        }
    }
}

// The line after one more byte of the greeting of the row that comes back.
fn comes_back(k: RowNumber, row: &Row, heard: Heard) -> Line
    ensures { result ≡ comes_back k (row_of row.now) heard }
{
    match heard {
        Heard::Nothing if row.opened.greeting.tag.is_some() => Line::Retaken(k, Heard::Named),
        Heard::Named => Line::Retaken(k, Heard::TagDue),
        Heard::Nothing | Heard::TagDue => Line::Held(k),
    }
}
