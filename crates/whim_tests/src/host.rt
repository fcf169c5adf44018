// A host that keeps several commands open on a disk and a film recorder, and notes all that it is shown.
ghost use Rattle.std.specs.Prelude.{◌<◌, ◌≤◌};

use bus::{Bus, Selection, Shown};
use scsi::{Greeting, Word};
use strip::Adler;

/// What the host asks for, in turn and round and round: target, LUN, leave, tag, command. Unnamed, not as an `Opened`, so that the table has a line for each.
#[derive(Clone, Copy)]
struct Order(u8, u8, bool, Option<u8>, [u8; 6]);

const ORDERS: [Order; 7] = [
    Order(3, 0, true, None, [0x0A, 0, 0, 0, 128, 0]),
    Order(0, 0, true, Some(2), [0x08, 0, 0, 2, 1, 0]),
    Order(0, 0, true, Some(1), [0x0A, 0, 0, 2, 1, 0]),
    Order(3, 1, false, None, [0x00, 0, 0, 0, 0, 0]),
    Order(0, 0, true, Some(3), [0x08, 0, 0, 2, 2, 0]),
    Order(3, 0, true, Some(255), [0x0A, 0, 0, 1, 0, 0]),
    Order(5, 0, true, None, [0x00, 0, 0, 0, 0, 0]),
];

/// The number of the next order, the next out byte, and the checksum of what was shown.
#[derive(Drop)]
pub(crate) struct Host {
    order: usize,
    given: u8,
    seen: Adler,
    ghost in_turn: { (order < 7) × (given ≤ 250) },
}

impl Host {
    pub(crate) fn new() -> Self {
        Host {
            order: 0,
            given: 0,
            seen: Adler::new(),
        }
    }

    pub(crate) fn checksum(&self) -> u32 {
        self.seen.sum()
    }

    /// Does what is due at this turn, and notes what is shown then.
    pub(crate) fn turn<B: Bus>(&mut self, bus: &mut B, turn: u32) {
        let shown = bus.look();
        let line_held = !matches!(shown, Shown::Free | Shown::Reselect(_));
        if turn % 6000 == 5999 {
            bus.reset();
        } else if turn % 503 == 502 && line_held {
            let _ = bus.speak(&Word::Abort.bytes());
        } else if turn % 101 == 100 && line_held {
            let _ = bus.speak(&Word::NoOperation.bytes());
        } else if turn % 7 == 6 && shown != Shown::DataOut {
            let _ = bus.give(1);
        } else {
            self.answer(bus, shown);
        }
        self.note(bus.look());
    }

    // Notes the kind's number, and the byte or target that goes with it.
    fn note(&mut self, shown: Shown) {
        self.seen.add(shown.kind());
        self.seen.add(match shown {
            Shown::Reselect(target) => target,
            _ => shown.byte().unwrap_or(0),
        });
    }

    fn answer<B: Bus>(&mut self, bus: &mut B, shown: Shown) {
        match shown {
            Shown::Free => self.select(bus),
            Shown::Reselect(_) => {
                let _ = bus.accept();
            }
            Shown::DataOut => {
                let _ = bus.give(self.given);
                self.given = (self.given + 1) % 251;
            }
            Shown::Pause => bus.wait(),
            _ => {
                let _ = bus.take();
            }
        }
    }

    fn select<B: Bus>(&mut self, bus: &mut B) {
        let Order(target, lun, leave, tag, command) = ORDERS[self.order];
        let greeting = Greeting { lun, leave, tag };
        match bus.select(target, greeting.bytes().as_slice()) {
            Ok(Selection::Lost) => return,
            Ok(Selection::Absent) => {}
            Ok(Selection::Selected) => {
                let _ = bus.command(&command);
            }
            Err(_) => bus.wait(),
        }
        self.order = (self.order + 1) % ORDERS.len();
    }
}
