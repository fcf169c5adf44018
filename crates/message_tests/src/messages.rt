use scsi::{Message, read};

const SDTR: Message = Message::Sdtr {
    period: &25,
    offset: &15,
};

/// Bytes, the message that they begin with, and what follows it.
const FINISHED: [(&[u8], Message, &[u8]); 27] = [
    (&[0x00], Message::CommandComplete, &[]),
    (&[0x00, 0x01], Message::CommandComplete, &[0x01]),
    (&[0x01, 0x01, 0x01], Message::Extended(&[0x01]), &[]),
    (
        &[0x01, 0x02, 0x01, 0x19, 0x0f],
        Message::Extended(&[0x01, 0x19]),
        &[0x0f],
    ),
    (&[0x01, 0x03, 0x01, 0x19, 0x0f], SDTR, &[]),
    (
        &[0x01, 0x03, 0x01, 0x19, 0x0f, 0x01, 0x20, 0x80],
        SDTR,
        &[0x01, 0x20, 0x80],
    ),
    (
        &[0x01, 0x03, 0x03, 0x19, 0x0f, 0x08],
        Message::Extended(&[0x03, 0x19, 0x0f]),
        &[0x08],
    ),
    (
        &[0x01, 0x04, 0x01, 0x19, 0x0f, 0x00],
        Message::Extended(&[0x01, 0x19, 0x0f, 0x00]),
        &[],
    ),
    (&[0x02], Message::SaveDataPointer, &[]),
    (&[0x02, 0x04], Message::SaveDataPointer, &[0x04]),
    (&[0x03], Message::RestorePointers, &[]),
    (&[0x03, 0x03], Message::RestorePointers, &[0x03]),
    (&[0x04], Message::Disconnect, &[]),
    (&[0x04, 0x80, 0x20], Message::Disconnect, &[0x80, 0x20]),
    (&[0x06], Message::Abort, &[]),
    (&[0x06, 0x07], Message::Abort, &[0x07]),
    (&[0x07], Message::MessageReject, &[]),
    (&[0x07, 0x08], Message::MessageReject, &[0x08]),
    (&[0x08], Message::NoOperation, &[]),
    (&[0x08, 0x0d], Message::NoOperation, &[0x0d]),
    (&[0x0d], Message::AbortTag, &[]),
    (&[0x0d, 0x06], Message::AbortTag, &[0x06]),
    (&[0x20, 0x05], Message::SimpleQueueTag(&5), &[]),
    (
        &[0x20, 0x01, 0x03, 0x01, 0x19],
        Message::SimpleQueueTag(&1),
        &[0x03, 0x01, 0x19],
    ),
    (&[0x20, 0x20, 0x20], Message::SimpleQueueTag(&0x20), &[0x20]),
    (&[0x21, 0x05], Message::OtherTwo(0x21, &5), &[]),
    (&[0x05], Message::Other(0x05), &[]),
];

#[test]
fn reads_the_table(rt: HostRuntime) {
    for (bytes, message, rest) in FINISHED {
        assert_eq!(rt; read(bytes), Some((message, rest)));
    }
}

const UNFINISHED: [&[u8]; 10] = [
    &[],
    &[0x01],
    &[0x01, 0x00],
    &[0x01, 0x01],
    &[0x01, 0x03, 0x01, 0x19],
    &[0x01, 0xff, 0x01, 0x19, 0x0f],
    &[0x20],
    &[0x21],
    &[0x28],
    &[0x2f],
];

#[test]
fn waits_for_what_is_missing(rt: HostRuntime) {
    for bytes in UNFINISHED {
        assert_eq!(rt; read(bytes), None);
    }
}

const BODY: &[u8] = &[0x01; 256];

/// A message and what follows it, as the reader answers them.
fn followed<'a>(message: Message<'a>, rest: &'a [u8]) -> Option<(Message<'a>, &'a [u8])> {
    Some((message, rest))
}

#[test]
fn takes_length_0_for_256(rt: HostRuntime) {
    let mut bytes = [0x01; 300];
    bytes[1] = 0x00;
    assert_eq!(rt; read(&bytes[0..257]), None);
    assert_eq!(rt;
        read(&bytes[0..258]),
        followed(Message::Extended(BODY), &[])
    );
    assert_eq!(rt;
        read(&bytes),
        followed(Message::Extended(BODY), &[0x01; 42])
    );
}

/// The first bytes of the other messages of one byte.
const OTHERS: [(u8, u8); 4] = [(0x05, 0x05), (0x09, 0x0c), (0x0e, 0x1f), (0x30, 0x7f)];

#[test]
fn reads_every_other(rt: HostRuntime) {
    for (from, to) in OTHERS {
        for first in from..=to {
            assert_eq!(rt;
                read(&[first, 0x20]),
                followed(Message::Other(first), &[0x20])
            );
        }
    }
    for first in 0x21..=0x2f {
        let other = Message::OtherTwo(first, &0x20);
        assert_eq!(rt; read(&[first, 0x20, 0x01]), followed(other, &[0x01]));
    }
}

/// The bytes of IDENTIFY with LUN 0, and whether each permits disconnection.
const IDENTIFIES: [(u8, bool); 16] = [
    (0x80, false),
    (0x88, false),
    (0x90, false),
    (0x98, false),
    (0xa0, false),
    (0xa8, false),
    (0xb0, false),
    (0xb8, false),
    (0xc0, true),
    (0xc8, true),
    (0xd0, true),
    (0xd8, true),
    (0xe0, true),
    (0xe8, true),
    (0xf0, true),
    (0xf8, true),
];

#[test]
fn reads_every_identify(rt: HostRuntime) {
    for (first, leave) in IDENTIFIES {
        for lun in 0..8 {
            let identify = Message::Identify { leave, lun };
            assert_eq!(rt; read(&[first | lun]), followed(identify, &[]));
            assert_eq!(rt; read(&[first | lun, 0x20]), followed(identify, &[0x20]));
        }
    }
}
