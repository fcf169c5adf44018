// What the whim bus shows.
ghost use Rattle.std.specs.Prelude.{◌≡◌, ◌&&◌};
ghost use Rattle.std.specs.List.{list_any};
ghost use Rattle.scsi.specs.Kept.{cdb_bytes};
ghost use Rattle.whim_bus.specs.Rows.{reads};
ghost use Rattle.whim_bus.specs.Showing.{is_out, waiting_shown, next_shown, underway_shown, held_shown, greeting_shown, free_shown, coming_back, shown};
ghost use Rattle.whim_bus.specs.View.{stage_of, row_of, view};

use crate::rows::{Row, is_odd};
use crate::state::{Heard, Line, RowNumber, WhimBus};
use bus::{Shown, Stage, data_shown};
use scsi::{Cdb, identify};
use shelf::{Shelf, Unit, Way};

impl Row {
    // What it shows of its greeting while it retakes the line.
    fn greeting_shown(&self, heard: Heard) -> Shown
        ensures { result ≡ greeting_shown (row_of self.now) heard }
    {
        match heard {
            Heard::Nothing => {
                let [first] = identify(false, self.opened.greeting.lun);
                Shown::MessageIn(first)
            }
            Heard::Named => Shown::MessageIn(0x20),
            Heard::TagDue => Shown::MessageIn(self.opened.greeting.tag.unwrap_or(0)),
        }
    }

    // What it shows in the stead of a status that may not come yet.
    fn waiting_shown(&self) -> Shown
        ensures { result ≡ waiting_shown (row_of self.now) }
    {
        if self.saved != self.place {
            Shown::MessageIn(0x02)
        } else if self.opened.greeting.leave {
            Shown::MessageIn(0x04)
        } else {
            Shown::Pause
        }
    }
}

impl<S: Shelf> WhimBus<S> {
    // Whether a command of this way and unit may not end, since a reader of its unit is underway.
    fn must_wait(&self, way: Way, unit: Unit) -> bool
        ensures { result ≡ is_out way && list_any (reads (S.Shelf.model self.now.shelf) unit.target unit.lun) (view S.Shelf.model self.now).rows }
    {
        way == Way::Out && self.rows.iter().any(|row| row.reads(&self.shelf, unit))
    }

    // The next data byte of a command or, when all data is moved, its status.
    fn next_shown(&self, row: &Row, command: &Cdb) -> Shown
        ensures { result ≡ next_shown (S.Shelf.model self.now.shelf) (view S.Shelf.model self.now).rows (row_of row.now) (cdb_bytes command.now) }
    {
        let unit = row.opened.unit();
        let bytes = command.as_slice();
        let (way, count) = self.shelf.way(unit, bytes);
        if row.place < count {
            return data_shown(&self.shelf, unit, bytes, way, row.place);
        }
        if self.must_wait(way, unit) {
            return row.waiting_shown();
        }
        Shown::Status(self.shelf.status(unit, bytes))
    }

    // What is shown of a command that is underway, by the draw.
    fn underway_shown(&self, row: &Row, command: &Cdb) -> Shown
        ensures { result ≡ underway_shown (S.Shelf.model self.now.shelf) (view S.Shelf.model self.now).rows (row_of row.now) (cdb_bytes command.now) self.now.draw }
    {
        match self.draw % 4 {
            1 => Shown::MessageIn(0x02),
            2 => Shown::MessageIn(0x03),
            3 if row.opened.greeting.leave => Shown::MessageIn(0x04),
            _ => self.next_shown(row, command),
        }
    }

    // What is shown to the nexus of the row that holds the line.
    fn held_shown(&self, row: &Row) -> Shown
        ensures { result ≡ held_shown (S.Shelf.model self.now.shelf) (view S.Shelf.model self.now).rows (row_of row.now) (stage_of row.now.stage) self.now.draw }
    {
        match &row.stage {
            Stage::Empty => Shown::Pause,
            Stage::Fresh => Shown::Command,
            Stage::Commanded(command) => self.underway_shown(row, command),
            Stage::Ended(_, _) => Shown::MessageIn(0x00),
        }
    }

    // The row whose nexus comes back to a free line, by the draw.
    pub(crate) fn returner(&self) -> Option<RowNumber>
        ensures { result ≡ coming_back (view S.Shelf.model self.now) }
    {
        if !is_odd(self.draw) {
            return None;
        }
        self.rows
            .iter()
            .position(|row| row.is_open())
            .and_then(RowNumber::at)
    }

    // What is shown on a free line, by the draw.
    fn free_shown(&self) -> Shown
        ensures { result ≡ free_shown (view S.Shelf.model self.now) }
    {
        match self.returner() {
            Some(k) => Shown::Reselect(self.rows[k.place()].opened.target),
            None => Shown::Free,
        }
    }

    // What is shown now.
    pub(crate) fn shown(&self) -> Shown
        ensures { result ≡ shown (view S.Shelf.model self.now) }
    {
        match self.line {
            Line::Free => self.free_shown(),
            Line::Retaken(k, heard) => self.rows[k.place()].greeting_shown(heard),
            Line::Held(k) => self.held_shown(&self.rows[k.place()]),
        }
    }
}
