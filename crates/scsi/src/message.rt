ghost use Rattle.std.specs.Prelude.{◌≡◌, ℕ, ◌≤◌, true, false, List, [], ◌∷◌, length, is_some};
ghost use Rattle.scsi.specs.Messages.{one, body_length, permits_leave, lun_of, read_of};
ghost use Rattle.scsi.specs.Borrowed.{meant, told};

/// A message: its kind, with the part of the bytes that is its argument.
#[derive(Clone, Copy, PartialEq, Eq, Debug)]
pub enum Message<'a> {
    CommandComplete,
    SaveDataPointer,
    RestorePointers,
    Disconnect,
    Abort,
    MessageReject,
    NoOperation,
    AbortTag,
    /// An extended message other than SDTR: the bytes behind its length byte.
    Extended(&'a [u8]),
    /// Synchronous data transfer request: period factor and offset.
    Sdtr { period: &'a u8, offset: &'a u8 },
    SimpleQueueTag(&'a u8),
    /// The LUN, and whether the target may disconnect.
    Identify { leave: bool, lun: u8 },
    /// Any other message of two bytes, 21h to 2Fh.
    OtherTwo(u8, &'a u8),
    /// Any other message of one byte.
    Other(u8),
}

/// The message that `bytes` begin with, and what follows it; none where it is unfinished, and then there are at most 257 bytes.
pub fn read(bytes: &[u8]) -> Option<(Message<'_>, &[u8])>
    ensures message { told result ≡ read_of bytes.now }
    ensures unfinished { is_some (told result) ≡ false → length bytes.now ≤ 257 }
{
    match bytes {
        [0x01, 0x03, 0x01, period, offset, rest @ ..] => Some((
            Message::Sdtr { period, offset },
            rest,
        )),
        [0x01, length, rest @ ..] => {
            let (body, rest) = rest.split_at_checked(body_length(*length))?;
            Some((Message::Extended(body), rest))
        }
        [0x20, tag, rest @ ..] => Some((Message::SimpleQueueTag(tag), rest)),
        [first @ 0x21..=0x2f, argument, rest @ ..] => Some((
            Message::OtherTwo(*first, argument),
            rest,
        )),
        [] | [0x01 | 0x20..=0x2f] => None,
        [first, rest @ ..] => Some((one_byte(*first), rest)),
    }
}

/// How long an extended message's body is, by its length byte.
fn body_length(length_byte: u8) -> usize
    ensures length { result ≡ body_length length_byte }
    ensures small { result ≤ 256 }
{
    if length_byte == 0 {
        256
    } else {
        usize::from(length_byte)
    }
}

/// The message that this byte is, if it is a whole one.
fn one_byte(first: u8) -> Message<'static>
    ensures { is_some (read_of (first ∷ [])) ≡ true → (rest : List ℕ) → read_of (first ∷ rest) ≡ one (meant result) rest }
{
    match first {
        0x00 => Message::CommandComplete,
        0x02 => Message::SaveDataPointer,
        0x03 => Message::RestorePointers,
        0x04 => Message::Disconnect,
        0x06 => Message::Abort,
        0x07 => Message::MessageReject,
        0x08 => Message::NoOperation,
        0x0d => Message::AbortTag,
        0x80..=0xff => Message::Identify {
            leave: permits_leave(first),
            lun: lun_of(first),
        },
        _ => Message::Other(first),
    }
}

/// Whether this IDENTIFY permits the target to disconnect.
pub(crate) fn permits_leave(identify: u8) -> bool
    ensures { result ≡ permits_leave identify }
{
    identify & 0x40 != 0
}

/// The LUN of this IDENTIFY.
pub(crate) fn lun_of(identify: u8) -> u8
    ensures { result ≡ lun_of identify }
{
    identify & 0x07
}
