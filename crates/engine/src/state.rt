ghost use Rattle.std.specs.Prelude.{◌≡◌, length};
ghost use Rattle.engine.specs.Whole.{Ended, FreeChain, WaitingChain, LineKept};

use slots::Slots;

// No model: the value would hold the slots as a function, which no model's may.
/// The engine: sixteen slots for commands, and the line as it knows it.
#[derive(Drop)]
pub struct Engine {
    pub(crate) state: Slots,
    // What the array's type says, for proofs to cite.
    ghost long: { length state.slots ≡ 16 },
    ghost ended: { Ended state },
    ghost free: { FreeChain state },
    ghost waiting: { WaitingChain state },
    ghost line: { LineKept state },
}
