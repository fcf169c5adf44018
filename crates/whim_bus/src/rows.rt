// A row of a whim bus, and what is looked for among the rows.
ghost use Rattle.std.specs.Prelude.{◌≡◌, ◌<◌, ◌≤◌, map};
ghost use Rattle.scsi.specs.Kept.{cdb_bytes};
ghost use Rattle.shelf.specs.Serving.{outs, served};
ghost use Rattle.bus.specs.Refusals.{name_of};
ghost use Rattle.whim_bus.specs.Rows.{is_open, is_named, reads, emptied, taken_by, moved_on, filled, saving, going_back};
ghost use Rattle.whim_bus.specs.State.{odd};
ghost use Rattle.whim_bus.specs.Text.{is_underway, sent, ending};
ghost use Rattle.whim_bus.specs.View.{row_of};

use bus::{Opened, Stage};
use scsi::Cdb;
use shelf::{Shelf, Unit, Way};

/// A row: what its nexus was opened with, how far it has come, its place in the data and its saved place, and its out bytes by place.
#[derive(Clone, Copy)]
pub struct Row {
    pub(crate) opened: Opened,
    pub(crate) stage: Stage,
    pub(crate) place: u16,
    pub(crate) saved: u16,
    pub(crate) out: [u8; 2048],
}

impl Row {
    /// A row that never had a nexus.
    pub(crate) const BLANK: Row = Row {
        opened: Opened::NONE,
        stage: Stage::Empty,
        place: 0,
        saved: 0,
        out: [0; 2048],
    };

    /// Whether the row has a nexus.
    pub(crate) fn is_open(&self) -> bool
        ensures { result ≡ is_open (row_of self.now) }
    {
        self.stage != Stage::Empty
    }

    /// Whether its nexus has its command and not its status.
    pub(crate) fn is_underway(&self) -> bool
        ensures { result ≡ is_underway (row_of self.now).stage }
    {
        matches!(self.stage, Stage::Commanded(_))
    }

    /// Whether it has the nexus that would be opened so.
    pub(crate) fn is_named(&self, opened: &Opened) -> bool
        ensures { result ≡ is_named (name_of opened.now.target opened.now.greeting) (row_of self.now) }
    {
        self.is_open() && opened.same_name(&self.opened)
    }

    /// Whether its nexus is of this unit, and was sent an in command.
    pub(crate) fn reads<S: Shelf>(&self, shelf: &S, unit: Unit) -> bool
        ensures { result ≡ reads (S.Shelf.model shelf.now) unit.target unit.lun (row_of self.now) }
    {
        self.opened.unit() == unit
            && match &self.stage {
                Stage::Empty | Stage::Fresh => false,
                Stage::Commanded(command) | Stage::Ended(command, _) => {
                    shelf.way(unit, command.as_slice()).0 == Way::In
                }
            }
    }

    /// A fresh nexus takes the row.
    pub(crate) fn open(&mut self, opened: Opened)
        ensures { row_of self.new ≡ taken_by opened.target opened.greeting (row_of self.old) }
    {
        self.opened = opened;
        self.stage = Stage::Fresh;
        self.place = 0;
        self.saved = 0;
    }

    /// The row has no nexus any more.
    pub(crate) fn close(&mut self)
        ensures { row_of self.new ≡ emptied (row_of self.old) }
    {
        self.stage = Stage::Empty;
    }

    /// Its nexus is sent this command.
    pub(crate) fn send(&mut self, command: Cdb)
        ensures { row_of self.new ≡ sent (cdb_bytes command) (row_of self.old) }
    {
        self.stage = Stage::Commanded(command);
    }

    /// An in byte is taken.
    pub(crate) fn move_on(&mut self)
        requires { self.old.place < 2048 }
        ensures { row_of self.new ≡ moved_on (row_of self.old) }
    {
        self.place += 1;
    }

    /// An out byte is given.
    pub(crate) fn fill(&mut self, byte: u8)
        requires { self.old.place < 2048 }
        ensures { row_of self.new ≡ filled byte (row_of self.old) }
    {
        self.out[usize::from(self.place)] = byte;
        self.place += 1;
    }

    /// The status is taken.
    pub(crate) fn end(&mut self, status: u8)
        ensures { row_of self.new ≡ ending status (row_of self.old) }
    {
        if let Stage::Commanded(command) | Stage::Ended(command, _) = self.stage {
            self.stage = Stage::Ended(command, status);
        }
    }

    /// Its place is saved.
    pub(crate) fn save(&mut self)
        ensures { row_of self.new ≡ saving (row_of self.old) }
    {
        self.saved = self.place;
    }

    /// Its nexus goes back to the saved place.
    pub(crate) fn go_back(&mut self)
        ensures { row_of self.new ≡ going_back (row_of self.old) }
    {
        self.place = self.saved;
    }

    // The bytes that go out with a command of this way and count.
    fn given(&self, way: Way, count: u16) -> &[u8]
        requires { count ≤ 2048 }
        ensures { result.now ≡ outs way count (row_of self.now).bytes }
    {
        match way {
            Way::Still | Way::In => &[],
            Way::Out => &self.out[..usize::from(count)],
        }
    }

    /// Has the shelf serve the command with the bytes of the row.
    pub(crate) fn serve<S: Shelf>(&self, shelf: &mut S, command: &Cdb)
        ensures { S.Shelf.model shelf.new ≡ served (S.Shelf.model shelf.old) self.now.opened.target self.now.opened.greeting.lun (cdb_bytes command.now) (row_of self.now).bytes }
    {
        let unit = self.opened.unit();
        let bytes = command.as_slice();
        let (way, count) = shelf.way(unit, bytes);
        let _ = shelf.finish(unit, bytes, self.given(way, count));
    }
}

/// Closes the nexuses of all rows.
pub(crate) fn clear(rows: &mut [Row])
    ensures { map row_of rows.new ≡ map emptied (map row_of rows.old) }
{
    for row in rows.iter_mut() {
        row.close();
    }
}

/// Whether a whim byte is odd.
pub(crate) fn is_odd(whim: u8) -> bool
    ensures { result ≡ odd whim }
{
    whim % 2 == 1
}
