use scsi::{command_length, is_well_sized};

/// Each group's first bytes, and the length of its commands.
const GROUPS: [(u8, u8, Option<u8>); 8] = [
    (0x00, 0x1f, Some(6)),
    (0x20, 0x3f, Some(10)),
    (0x40, 0x5f, Some(10)),
    (0x60, 0x7f, None),
    (0x80, 0x9f, None),
    (0xa0, 0xbf, Some(12)),
    (0xc0, 0xdf, None),
    (0xe0, 0xff, None),
];

#[test]
fn tells_lengths_by_group(rt: HostRuntime) {
    for (from, to, length) in GROUPS {
        for first in from..=to {
            assert_eq!(rt; command_length(first), length);
        }
    }
}

const COMMANDS: [(&[u8], bool); 12] = [
    (&[], false),
    (&[0x08], false),
    (&[0x08, 0, 0, 0, 1], false),
    (&[0x08, 0, 0, 0, 1, 0], true),
    (&[0x08, 0, 0, 0, 1, 0, 0], false),
    (&[0x28, 0, 0, 0, 1, 0], false),
    (&[0x28, 0, 0, 0, 0, 0, 0, 0, 1, 0], true),
    (&[0x5a, 0, 0, 0, 0, 0, 0, 0, 1, 0], true),
    (&[0xa8, 0, 0, 0, 0, 0, 0, 0, 1, 0], false),
    (&[0xa8, 0, 0, 0, 0, 0, 0, 0, 1, 0, 0, 0], true),
    (&[0x60], false),
    (&[0xe0, 0, 0, 0, 0, 0], false),
];

#[test]
fn knows_well_sized_commands(rt: HostRuntime) {
    for (command, well_sized) in COMMANDS {
        assert_eq!(rt; is_well_sized(command), well_sized);
    }
}
