use scsi::{Word, identify, sdtr, simple_queue_tag};

const IDENTIFIES: [(bool, u8, u8); 8] = [
    (false, 0, 0x80),
    (false, 5, 0x85),
    (false, 7, 0x87),
    (false, 8, 0x80),
    (true, 0, 0xc0),
    (true, 3, 0xc3),
    (true, 7, 0xc7),
    (true, 255, 0xc7),
];

#[test]
fn writes_identify(rt: HostRuntime) {
    for (leave, lun, byte) in IDENTIFIES {
        assert_eq!(rt; identify(leave, lun), [byte]);
    }
}

#[test]
fn writes_the_others(rt: HostRuntime) {
    assert_eq!(rt; Word::Abort.bytes(), [0x06]);
    assert_eq!(rt; Word::MessageReject.bytes(), [0x07]);
    assert_eq!(rt; Word::NoOperation.bytes(), [0x08]);
    assert_eq!(rt; Word::AbortTag.bytes(), [0x0d]);
    assert_eq!(rt; simple_queue_tag(0), [0x20, 0x00]);
    assert_eq!(rt; simple_queue_tag(255), [0x20, 0xff]);
    assert_eq!(rt; sdtr(25, 15), [0x01, 0x03, 0x01, 0x19, 0x0f]);
}
