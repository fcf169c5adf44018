ghost use Rattle.std.specs.Prelude.{◌≡◌, ℕ, ◌%◌, [], ◌∷◌, Some, Option};
ghost use Rattle.scsi.specs.Messages.{Message, ReadsBack, identify_byte};
ghost use Rattle.scsi.specs.Greetings.{greeting};
ghost use Rattle.scsi.specs.Words.{word_byte, word_meant};

/// IDENTIFY for the LUN in the low three bits of `lun`; `leave` permits the target to disconnect.
pub fn identify(leave: bool, lun: u8) -> [u8; 1]
    ensures bytes { result ≡ identify_byte leave lun ∷ [] }
    ensures reads_back { ReadsBack result (Message.identify leave (lun % 8)) }
{
    [identify_byte(leave, lun)]
}

/// The byte of IDENTIFY, which begins a greeting too.
pub(crate) fn identify_byte(leave: bool, lun: u8) -> u8
    ensures byte { result ≡ identify_byte leave lun }
    ensures reads_back { ReadsBack (result ∷ []) (Message.identify leave (lun % 8)) }
    ensures understood { (tag : Option ℕ) → greeting result tag ≡ Some (record { lun = lun % 8; leave = leave; tag = tag }) }
{
    let permission = if leave { 0x40 } else { 0x00 };
    0x80 | permission | lun & 0x07
}

/// SIMPLE QUEUE TAG: the command that the nexus is for has this tag.
pub fn simple_queue_tag(tag: u8) -> [u8; 2]
    ensures bytes { result ≡ 0x20 ∷ tag ∷ [] }
    ensures reads_back { ReadsBack result (Message.simple_tag tag) }
{
    [0x20, tag]
}

/// A message of one byte that the initiator speaks.
#[derive(Clone, Copy, PartialEq, Eq, Debug)]
pub enum Word {
    /// The target is to end the nexus.
    Abort = 0x06,
    /// The last message is not obeyed.
    MessageReject = 0x07,
    /// There is nothing to say.
    NoOperation = 0x08,
    /// The target is to end the tagged nexus.
    AbortTag = 0x0d,
}

impl Word {
    /// The message, as it is spoken.
    pub fn bytes(self) -> [u8; 1]
        ensures bytes { result ≡ word_byte self ∷ [] }
        ensures reads_back { ReadsBack result (word_meant self) }
    {
        [self as u8]
    }
}

/// SDTR: a request for synchronous data transfer, with this period factor and offset.
pub fn sdtr(period: u8, offset: u8) -> [u8; 5]
    ensures bytes { result ≡ 0x01 ∷ 0x03 ∷ 0x01 ∷ period ∷ offset ∷ [] }
    ensures reads_back { ReadsBack result (Message.sdtr period offset) }
{
    [0x01, 0x03, 0x01, period, offset]
}
