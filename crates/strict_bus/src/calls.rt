// What the strict bus does.
ghost use Rattle.std.specs.Prelude.{◌≡◌, ◌<◌, true, nat_lt, refl};
ghost use Rattle.scsi.specs.Kept.{cdb_bytes};
ghost use Rattle.bus.specs.Kinds.{kind_of};
ghost use Rattle.bus.specs.Single.{resting};
ghost use Rattle.strict_bus.specs.Text.{Strictly, StraightThrough, strict, underway};
ghost use Rattle.strict_bus.specs.Means.{meaning, name_in};
ghost use Rattle.std.proofs.Common.{rules};
ghost use Rattle.strict_bus.specs.Stages.{stage_shows, stage_settled};
ghost use Rattle.strict_bus.specs.Keeping;

use crate::out::OutBytes;
use crate::state::StrictBus;
use bus::{Bus, Opened, Refusal, Selection, Shown, Stage, data_shown, is_abort};
use scsi::{Cdb, Greeting};
use shelf::Shelf;

impl<S: Shelf> StrictBus<S> {
    /// A strict bus over this shelf, with a free line and no nexus.
    pub fn new(shelf: S) -> Self
        ensures rests { meaning S.Shelf.model result ≡ strict (resting (S.Shelf.model shelf)) }
        ensures straight { StraightThrough (meaning S.Shelf.model result) }
    {
        StrictBus {
            shelf,
            stage: Stage::Empty,
            opened: Opened::NONE,
            place: 0,
            out: OutBytes::NONE,
        }
    }

    /// The shelf behind the bus.
    pub fn shelf(&self) -> &S
        ensures { S.Shelf.model result.now ≡ (meaning S.Shelf.model self.now).cable.shelf }
    {
        &self.shelf
    }

    // What is shown while this command is underway.
    fn underway(&self, command: &Cdb) -> Shown
        ensures room { nat_lt (kind_of result) 2 ≡ true → self.now.place < 2048 }
        ensures value { result ≡ underway (S.Shelf.model self.now.shelf) (name_in self.now) (cdb_bytes command.now) self.now.place }
    {
        let unit = self.opened.unit();
        let bytes = command.as_slice();
        let (way, count) = self.shelf.way(unit, bytes);
        if self.place < count {
            return data_shown(&self.shelf, unit, bytes, way, self.place);
        }
        if self.place == count {
            Shown::Status(self.shelf.status(unit, bytes))
        } else {
            Shown::Pause
        }
    }
}

impl<S: Shelf> Bus for StrictBus<S> {
    ghost means = { meaning S.Shelf.model };

    ghost did = { λ b c r a. Strictly (meaning S.Shelf.model b) c r (meaning S.Shelf.model a) };

    ghost lawful = { λ b. let l = S.Shelf.lawful b.shelf in Prim.search rules };

    ghost shows = { λ b o. stage_shows _ _ _ _ _ b.stage };

    ghost keeps = { λ b c r a did. Keeping.keeps _ c r _ (stage_settled _ _ _ _ _ b.stage) did (stage_shows _ _ _ _ _ a.stage) refl };

    fn look(&self) -> Shown {
        match &self.stage {
            Stage::Empty => Shown::Free,
            Stage::Fresh => Shown::Command,
            Stage::Commanded(command) => self.underway(command),
            Stage::Ended(_, _) => Shown::MessageIn(0),
        }
    }

    fn select(&mut self, target: u8, greeting: &[u8]) -> Result<Selection, Refusal> {
        if self.stage != Stage::Empty {
            return Err(Refusal::Misfit);
        }
        let greeting = Greeting::read(greeting).ok_or(Refusal::Misfit)?;
        if !self.shelf.present(target) {
            return Ok(Selection::Absent);
        }
        self.stage = Stage::Fresh;
        self.opened = Opened { target, greeting };
        self.place = 0;
        self.out.clear();
        Ok(Selection::Selected)
    }

    fn accept(&mut self) -> Result<(), Refusal> {
        Err(Refusal::Misfit)
    }

    fn command(&mut self, bytes: &[u8]) -> Result<(), Refusal> {
        if self.stage != Stage::Fresh {
            return Err(Refusal::Misfit);
        }
        let command = Cdb::new(bytes).ok_or(Refusal::Misfit)?;
        self.stage = Stage::Commanded(command);
        Ok(())
    }

    fn give(&mut self, byte: u8) -> Result<(), Refusal> {
        let Stage::Commanded(command) = self.stage else {
            return Err(Refusal::Misfit);
        };
        let Shown::DataOut = self.underway(&command) else {
            return Err(Refusal::Misfit);
        };
        self.place += 1;
        self.out.push(byte);
        Ok(())
    }

    fn take(&mut self) -> Result<u8, Refusal> {
        match self.stage {
            Stage::Empty | Stage::Fresh => Err(Refusal::Misfit),
            Stage::Commanded(command) => match self.underway(&command) {
                Shown::DataIn(byte) => {
                    self.place += 1;
                    Ok(byte)
                }
                Shown::Status(byte) => {
                    self.stage = Stage::Ended(command, byte);
                    Ok(byte)
                }
                _ => Err(Refusal::Misfit),
            },
            Stage::Ended(command, _) => {
                let out = self.out.as_slice();
                let _ = self
                    .shelf
                    .finish(self.opened.unit(), command.as_slice(), out);
                self.stage = Stage::Empty;
                Ok(0)
            }
        }
    }

    fn speak(&mut self, message: &[u8]) -> Result<(), Refusal> {
        if self.stage == Stage::Empty {
            return Err(Refusal::Misfit);
        }
        if is_abort(message) {
            self.stage = Stage::Empty;
        }
        Ok(())
    }

    fn wait(&mut self) {}

    fn reset(&mut self) {
        self.stage = Stage::Empty;
    }
}
