// Devices for a shelf: a disk, a film recorder, and two shelves as one.
#![tactic(auto)]

mod device;
mod disk;
mod pair;
mod recorder;

pub use device::{At, Device, MakeError};
pub use disk::{Blocks, Disk};
pub use pair::Pair;
pub use recorder::{Film, Recorder};
