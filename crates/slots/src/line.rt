ghost use Rattle.std.specs.Prelude.{◌≡◌};
ghost use Rattle.scsi.specs.Borrowed.{meant};
ghost use Rattle.slots.specs.Messages.{heard};

use crate::number::SlotNumber;
use scsi::Message;
use shelf::Unit;

/// The engine's own line state.
#[derive(Clone, Copy, PartialEq, Eq, Debug)]
pub enum Line {
    Idle,
    /// The target retakes the line.
    Greeted(u8),
    /// The target has told the LUN.
    Named(Unit),
    /// The target has told the LUN and that a tag comes.
    TagDue(Unit),
    /// The slot holds the line.
    Held(SlotNumber),
}

/// What a whole message comes to.
#[derive(Clone, Copy, PartialEq, Eq, Debug)]
pub enum Heard {
    /// COMMAND COMPLETE.
    Complete,
    /// SAVE DATA POINTER.
    Save,
    /// RESTORE POINTERS.
    Restore,
    /// DISCONNECT.
    Disconnect,
    /// MESSAGE REJECT.
    Reject,
    /// Any other message.
    Other,
}

impl From<Message<'_>> for Heard {
    ghost from_gives = { λ m h. h ≡ heard (meant m) };

    fn from(message: Message<'_>) -> Heard {
        match message {
            Message::CommandComplete => Heard::Complete,
            Message::SaveDataPointer => Heard::Save,
            Message::RestorePointers => Heard::Restore,
            Message::Disconnect => Heard::Disconnect,
            Message::MessageReject => Heard::Reject,
            _ => Heard::Other,
        }
    }
}
