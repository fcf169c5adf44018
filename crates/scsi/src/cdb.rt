// A command as it is kept: its bytes, as many as its group has.
ghost use Rattle.std.specs.Prelude.{◌≡◌};
ghost use Rattle.std.specs.Option.{option_map};
ghost use Rattle.scsi.specs.Kept.{cdb_bytes, kept};

use crate::command::is_well_sized;

/// A command descriptor block of one of the lengths that a group has.
#[derive(Clone, Copy, PartialEq, Eq, Debug)]
pub enum Cdb {
    Six([u8; 6]),
    Ten([u8; 10]),
    Twelve([u8; 12]),
}

impl Cdb {
    /// The command of these bytes, or none where they are not as many as their group has.
    pub fn new(bytes: &[u8]) -> Option<Cdb>
        ensures { option_map cdb_bytes result ≡ kept bytes.now }
    {
        if !is_well_sized(bytes) {
            return None;
        }
        if let Ok(six) = <[u8; 6]>::try_from(bytes) {
            return Some(Cdb::Six(six));
        }
        if let Ok(ten) = <[u8; 10]>::try_from(bytes) {
            return Some(Cdb::Ten(ten));
        }
        <[u8; 12]>::try_from(bytes).map(Cdb::Twelve).ok()
    }

    /// The command's bytes.
    pub fn as_slice(&self) -> &[u8]
        ensures { result.now ≡ cdb_bytes self.now }
    {
        match self {
            Cdb::Six(bytes) => bytes,
            Cdb::Ten(bytes) => bytes,
            Cdb::Twelve(bytes) => bytes,
        }
    }
}
