ghost use Rattle.std.specs.Prelude.{◌≡◌};

use slots::SlotNumber;

/// What a granted submit answers: it names the command's slot, and only collect takes it back. It can be neither copied nor
/// let go, so a program that forgets one, or collects one twice, does not compile.
pub struct Ticket {
    pub(crate) slot: SlotNumber,
}

impl Ticket {
    /// The slot that it names.
    pub fn slot(&self) -> u8
        ensures { result ≡ self.now.slot }
    {
        self.slot.get()
    }
}
