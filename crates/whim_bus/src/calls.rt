// The calls of the whim bus.
ghost use Rattle.std.specs.Prelude.{◌≡◌};
ghost use Rattle.bus.specs.State.{AtRest};
ghost use Rattle.whim_bus.specs.State.{resting};
ghost use Rattle.whim_bus.specs.Means.{meaning};
ghost use Rattle.whim_bus.specs.Text.{Whimsical};
ghost use Rattle.whim_bus.specs.View.{view};
ghost use Rattle.whim_bus.specs.Shows;
ghost use Rattle.whim_bus.specs.Ruling;
ghost use Rattle.std.proofs.Common.{rules};

use crate::rows::Row;
use crate::state::{Line, WhimBus};
use bus::{Bus, Opened, Refusal, Selection, Shown, is_abort};
use scsi::{Cdb, Greeting};
use shelf::Shelf;

impl<S: Shelf> WhimBus<S> {
    /// A whim bus over this shelf, with a free line and no nexus, that has drawn none of these whim bytes yet.
    pub fn new(shelf: S, whims: [u8; 256]) -> Self
        ensures rests { view S.Shelf.model result ≡ resting (S.Shelf.model shelf) whims }
        ensures begins { AtRest (meaning (view S.Shelf.model result)) }
        ensures shows { (meaning (view S.Shelf.model result)).shown ≡ Shown.Free }
    {
        WhimBus {
            shelf,
            rows: [Row::BLANK; 16],
            line: Line::Free,
            whims,
            at: 0,
            draw: 0,
        }
    }

    /// The shelf behind the bus.
    pub fn shelf(&self) -> &S
        ensures { S.Shelf.model result.now ≡ (meaning (view S.Shelf.model self.now)).cable.shelf }
    {
        &self.shelf
    }
}

impl<S: Shelf> Bus for WhimBus<S> {
    ghost means = { λ b. meaning (view S.Shelf.model b) };

    ghost did = { λ b c r a. Whimsical (view S.Shelf.model b) c r (view S.Shelf.model a) };

    ghost lawful = { Prim.search rules };

    ghost shows = { λ b o. Shows.shows (view S.Shelf.model b) o };

    ghost keeps = { λ b c r a did. Ruling.keeps (view S.Shelf.model b) c r (view S.Shelf.model a) did };

    fn look(&self) -> Shown {
        self.shown()
    }

    fn select(&mut self, target: u8, greeting: &[u8]) -> Result<Selection, Refusal> {
        if self.shown() != Shown::Free {
            return Err(Refusal::Misfit);
        }
        let greeting = Greeting::read(greeting).ok_or(Refusal::Misfit)?;
        let opened = Opened { target, greeting };
        let k = self.room_for(&opened).ok_or(Refusal::Misfit)?;
        let selection = self.choose(k, opened);
        self.settle();
        Ok(selection)
    }

    fn accept(&mut self) -> Result<(), Refusal> {
        let Shown::Reselect(_) = self.shown() else {
            return Err(Refusal::Misfit);
        };
        self.let_back();
        Ok(())
    }

    fn command(&mut self, bytes: &[u8]) -> Result<(), Refusal> {
        if self.shown() != Shown::Command {
            return Err(Refusal::Misfit);
        }
        self.send(Cdb::new(bytes).ok_or(Refusal::Misfit)?);
        self.settle();
        Ok(())
    }

    fn give(&mut self, byte: u8) -> Result<(), Refusal> {
        if self.shown() != Shown::DataOut {
            return Err(Refusal::Misfit);
        }
        self.fill(byte);
        self.settle();
        Ok(())
    }

    fn take(&mut self) -> Result<u8, Refusal> {
        let shown = self.shown();
        let byte = shown.byte().ok_or(Refusal::Misfit)?;
        match shown {
            Shown::DataIn(_) => self.move_on(),
            Shown::Status(_) => self.end(byte),
            _ => self.hear(byte),
        }
        self.settle();
        Ok(byte)
    }

    fn speak(&mut self, message: &[u8]) -> Result<(), Refusal> {
        if matches!(self.shown(), Shown::Free | Shown::Reselect(_)) {
            return Err(Refusal::Misfit);
        }
        if is_abort(message) {
            self.break_off();
        }
        self.settle();
        Ok(())
    }

    fn wait(&mut self) {
        self.settle();
    }

    fn reset(&mut self) {
        self.close_all();
        self.settle();
    }
}
