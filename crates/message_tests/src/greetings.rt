use scsi::Greeting;

/// LUN, whether the target may disconnect, and the tag, with the bytes.
const WRITTEN: [(u8, bool, Option<u8>, &[u8]); 6] = [
    (0, false, None, &[0x80]),
    (3, true, None, &[0xc3]),
    (7, false, None, &[0x87]),
    (0, true, Some(5), &[0xc0, 0x20, 0x05]),
    (6, true, Some(1), &[0xc6, 0x20, 0x01]),
    (1, false, Some(255), &[0x81, 0x20, 0xff]),
];

#[test]
fn writes_and_reads_back(rt: HostRuntime) {
    for (lun, leave, tag, bytes) in WRITTEN {
        let greeting = Greeting { lun, leave, tag };
        assert_eq!(rt; greeting.bytes().as_slice(), bytes);
        assert_eq!(rt; Greeting::read(bytes), Some(greeting));
    }
}

#[test]
fn ignores_reserved_bits(rt: HostRuntime) {
    let greeting = Greeting {
        lun: 3,
        leave: false,
        tag: Some(0),
    };
    assert_eq!(rt; Greeting::read(&[0xbb, 0x20, 0x00]), Some(greeting));
}

const NO_GREETINGS: [&[u8]; 9] = [
    &[],
    &[0x00],
    &[0x7f],
    &[0x20, 0x05],
    &[0xc0, 0x20],
    &[0xc0, 0xc0],
    &[0x40, 0x20, 0x05],
    &[0xc0, 0x21, 0x05],
    &[0xc0, 0x20, 0x05, 0x00],
];

#[test]
fn reads_no_other(rt: HostRuntime) {
    for bytes in NO_GREETINGS {
        assert_eq!(rt; Greeting::read(bytes), None);
    }
}
