// An engine is made.
ghost use Rattle.std.specs.Prelude.{◌≡◌};
ghost use Rattle.table.specs.Engine.{JustMade};
ghost use Rattle.table.specs.View.{view, fresh_slot, fresh_slots, fresh_fields};

use crate::size::MemorySize;
use crate::state::Engine;
use arrayvec::ArrayVec;
use scsi::Cdb;
use shelf::{Unit, Way};
use slots::{Command, Line, Manner, Region, Slot, Slots, State};

impl Engine {
    /// A fresh engine, for a memory of this size: all slots are free, and the line is idle.
    pub fn new(size: MemorySize) -> Engine
        ensures made { JustMade (view result.state) }
        ensures size { (view result.state).size ≡ size.bytes }
        ensures fields { result.state ≡ fresh_fields size.bytes }
    {
        Engine {
            state: Slots {
                slots: fresh_slots(),
                free: 1,
                waiting: 0,
                line: Line::Idle,
                begun: ArrayVec::new(),
                size: size.bytes,
            },
        }
    }
}

// A free slot with this next number.
fn fresh(next: u8) -> Slot
    ensures { result ≡ fresh_slot next }
{
    Slot {
        next,
        state: State::Free,
        command: Command {
            unit: Unit { target: 0, lun: 0 },
            manner: Manner::Plain,
            direction: Way::Still,
            bytes: Cdb::Six([0; 6]),
            region: Region { base: 0, length: 0 },
        },
        current: 0,
        saved: 0,
        sent: false,
        status: None,
    }
}

// The slots with the free chain 1 to 16. One by one: `map` over their numbers took three times as long to make an engine.
fn fresh_slots() -> [Slot; 16]
    ensures { result ≡ fresh_slots }
{
    [
        fresh(2),
        fresh(3),
        fresh(4),
        fresh(5),
        fresh(6),
        fresh(7),
        fresh(8),
        fresh(9),
        fresh(10),
        fresh(11),
        fresh(12),
        fresh(13),
        fresh(14),
        fresh(15),
        fresh(16),
        fresh(0),
    ]
}
