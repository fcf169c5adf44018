// Walks along the chains of next numbers.
ghost use Rattle.std.specs.Prelude.{◌≡◌, true};
ghost use Rattle.table.specs.Engine.{numbered};
ghost use Rattle.table.specs.View.{chain, nexts, before};

use slots::{Slot, SlotNumber};

// The slot before `k` on the chain that begins with `head`, or the last one of it.
pub(crate) fn before(slots: &[Slot; 16], head: SlotNumber, k: SlotNumber) -> SlotNumber
    ensures { result ≡ before k head (chain 15 (nexts slots.now) (nexts slots.now head)) }
{
    let mut at = head;
    // Tried as `successors(Some(head), ..).take(16).last()`: the borrow checker does not cover a call that takes them whole.
    for _ in 0..15u8 {
        match SlotNumber::new(slots[at.place()].next) {
            Some(next) if next != k => at = next,
            _ => return at,
        }
    }
    at
}
