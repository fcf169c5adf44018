// Two shelves as one.
ghost use Rattle.devices.specs.Pair.{pair_model};
ghost use Rattle.std.proofs.Common.{rules};

use shelf::{Shelf, Unit, Way};

/// The first shelf answers for the targets that it has, the second for all others.
#[derive(Drop)]
pub struct Pair<X, Y> {
    pub first: X,
    pub second: Y,
}

impl<X: Shelf, Y: Shelf> Shelf for Pair<X, Y> {
    ghost model = { λ p. pair_model (X.Shelf.model p.first) (Y.Shelf.model p.second) };

    ghost lawful = { Prim.search rules };

    fn present(&self, target: u8) -> bool {
        self.first.present(target) || self.second.present(target)
    }

    fn way(&self, unit: Unit, command: &[u8]) -> (Way, u16) {
        if self.first.present(unit.target) {
            self.first.way(unit, command)
        } else {
            self.second.way(unit, command)
        }
    }

    fn byte(&self, unit: Unit, command: &[u8], place: u16) -> u8 {
        if self.first.present(unit.target) {
            self.first.byte(unit, command, place)
        } else {
            self.second.byte(unit, command, place)
        }
    }

    fn status(&self, unit: Unit, command: &[u8]) -> u8 {
        if self.first.present(unit.target) {
            self.first.status(unit, command)
        } else {
            self.second.status(unit, command)
        }
    }

    fn finish(&mut self, unit: Unit, command: &[u8], out: &[u8]) -> u8 {
        if self.first.present(unit.target) {
            self.first.finish(unit, command, out)
        } else {
            self.second.finish(unit, command, out)
        }
    }
}
