// A film recorder, at one target.
ghost use Rattle.std.specs.Prelude.{◌≡◌, ℕ, ◌<◌, ◌≤◌, true, [], None, vec_len, vec_capacity};
ghost use Rattle.shelf.specs.Model.{is_present};
ghost use Rattle.devices.specs.Device.{device_model};
ghost use Rattle.devices.specs.Making.{Making, refused_at};
ghost use Rattle.devices.specs.Recorder.{print_count, recorder};
ghost use Rattle.std.proofs.Common.{rules};

use crate::device::{At, Device, MakeError, check_target};
use shelf::{Shelf, Way};
use std::alloc::Global;

const PRINT: u8 = 0x0A;

/// The film of a recorder: room is made once for all that it has space for, and it is filled from its start.
#[derive(Drop)]
pub struct Film {
    bytes: Vec<u8>,
    // How many bytes it has space for. Of a vector's own capacity `extend_from_slice` promises only that it never shrinks.
    capacity: usize,
    ghost within: { vec_len bytes ≤ capacity },
    ghost room: { capacity ≤ vec_capacity bytes },
}

/// A film recorder.
pub type Recorder = At<Film>;

impl Recorder {
    /// A recorder with an empty film, which has space for so many bytes.
    pub fn new(heap: Global, target: u8, capacity: usize) -> Result<Recorder, MakeError>
        ensures { Making (refused_at target None) (λ d. ⟦<At<Film> as Shelf>⟧.model d ≡ device_model target (recorder capacity) []) result }
    {
        check_target(target)?;
        let bytes = Vec::with_capacity(heap, capacity)?;
        Ok(At {
            target,
            device: Film { bytes, capacity },
        })
    }

    /// What was printed: LUN 0 of the recorder's target holds it.
    pub fn film(&self) -> &[u8]
        ensures { (t : ℕ) → is_present (⟦<At<Film> as Shelf>⟧.model self.now) t ≡ true → result.now ≡ (⟦<At<Film> as Shelf>⟧.model self.now).holds t 0 }
    {
        &self.device.bytes
    }
}

impl Device for Film {
    ghost answers = { λ f. recorder f.capacity };

    ghost holds = { λ f. f.bytes.items };

    ghost small = { Prim.search rules };

    fn way(&self, command: &[u8; 6]) -> (Way, u16) {
        let count = print_count(command);
        if command[0] == PRINT && count <= 2048 && count % 128 == 0 {
            (Way::Out, count as u16)
        } else {
            (Way::Still, 0)
        }
    }

    fn byte(&self, _command: &[u8; 6], _place: u16) -> u8 {
        0
    }

    fn has_space(&self, command: &[u8; 6]) -> bool {
        print_count(command) <= self.capacity - self.bytes.len()
    }

    fn fill(&mut self, _command: &[u8; 6], out: &[u8]) {
        // It does not fail: the room was made with the film, so nothing is allocated.
        let _ = self.bytes.extend_from_slice(out);
    }
}

/// How many bytes a PRINT speaks of.
fn print_count(command: &[u8; 6]) -> usize
    ensures value { result ≡ print_count command.now }
    ensures bound { result < 16777216 }
{
    let [_, _, high, middle, low, _] = *command;
    u32::from_be_bytes([0, high, middle, low]) as usize
}
