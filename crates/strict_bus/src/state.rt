// What the strict bus holds.
ghost use Rattle.std.specs.Prelude.{◌≤◌};

use crate::out::OutBytes;
use bus::{Opened, Stage};

/// A bus over any shelf that never loses a selection, moves each command straight through, and never lets go.
#[derive(Drop)]
pub struct StrictBus<S> {
    pub(crate) shelf: S,
    pub(crate) stage: Stage,
    pub(crate) opened: Opened,
    pub(crate) place: u16,
    pub(crate) out: OutBytes,
    ghost within: { out.count ≤ place },
    ghost bound: { place ≤ 2048 },
}
