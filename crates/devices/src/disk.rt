// A disk of blocks of 512 bytes, at one target.
ghost use Rattle.std.specs.Prelude.{◌≡◌, ◌*◌, ◌/◌, ◌<◌, ◌≤◌, replicate, vec_len};
ghost use Rattle.devices.specs.Device.{device_model};
ghost use Rattle.devices.specs.Making.{Making};
ghost use Rattle.devices.specs.Disk.{first_block, block_count, on_disk, disk, disk_refused};
ghost use Rattle.std.proofs.Common.{rules};

use crate::device::{At, Device, MakeError, check_target};
use shelf::{Shelf, Way};
use std::alloc::Global;

const BLOCK: usize = 512;

/// As many as the 21 bits of a block number tell apart.
const MOST_BLOCKS: u32 = 2_097_152;

const READ: u8 = 0x08;

const WRITE: u8 = 0x0A;

/// The blocks of a disk, which are made once.
#[derive(Drop)]
pub struct Blocks {
    bytes: Vec<u8>,
}

/// A disk.
pub type Disk = At<Blocks>;

impl Disk {
    /// A disk of so many blocks of zeros.
    pub fn new(heap: Global, target: u8, blocks: u32) -> Result<Disk, MakeError>
        ensures { Making (disk_refused target blocks) (λ d. ⟦<At<Blocks> as Shelf>⟧.model d ≡ device_model target (disk blocks) (replicate (blocks * 512) 0)) result }
    {
        check_target(target)?;
        if blocks > MOST_BLOCKS {
            return Err(MakeError::TooManyBlocks);
        }
        let bytes = vec![in heap; 0; blocks as usize * BLOCK]?;
        Ok(At {
            target,
            device: Blocks { bytes },
        })
    }
}

impl Blocks {
    /// Whether this command speaks of blocks that it may move and that the disk has.
    fn reaches(&self, command: &[u8; 6]) -> bool
        ensures { result ≡ on_disk (vec_len self.now.bytes / 512) command.now }
    {
        let count = block_count(command);
        count <= 4 && first_block(command) + count <= self.bytes.len() / BLOCK
    }
}

impl Device for Blocks {
    ghost answers = { λ b. disk (vec_len b.bytes / 512) };

    ghost holds = { λ b. b.bytes.items };

    ghost small = { Prim.search rules };

    fn way(&self, command: &[u8; 6]) -> (Way, u16) {
        if !self.reaches(command) {
            return (Way::Still, 0);
        }
        let count = (block_count(command) * BLOCK) as u16;
        match command[0] {
            READ => (Way::In, count),
            WRITE => (Way::Out, count),
            _ => (Way::Still, 0),
        }
    }

    fn byte(&self, command: &[u8; 6], place: u16) -> u8 {
        let at = first_block(command) * BLOCK + usize::from(place);
        self.bytes.get(at).copied().unwrap_or(0)
    }

    fn has_space(&self, _command: &[u8; 6]) -> bool {
        true
    }

    fn fill(&mut self, command: &[u8; 6], out: &[u8]) {
        let start = first_block(command) * BLOCK;
        self.bytes[start..start + out.len()].copy_from_slice(out);
    }
}

/// The number of the first block that a command speaks of.
fn first_block(command: &[u8; 6]) -> usize
    ensures value { result ≡ first_block command.now }
    ensures bound { result < 2097152 }
{
    let [_, high, middle, low, _, _] = *command;
    u32::from_be_bytes([0, high % 32, middle, low]) as usize
}

/// How many blocks a command speaks of.
fn block_count(command: &[u8; 6]) -> usize
    ensures value { result ≡ block_count command.now }
    ensures bound { result ≤ 256 }
{
    match command[4] {
        0 => 256,
        count => usize::from(count),
    }
}
