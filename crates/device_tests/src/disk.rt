use crate::rows::{Row, at, check_rows};
use devices::{Disk, MakeError};
use shelf::{Shelf, Way};
use std::test::Fail;

#[test]
fn answers(rt: HostRuntime) -> Result<(), Fail> {
    let disk = Disk::new(rt.alloc(), 3, 64)?;
    check_rows(
        &rt,
        &disk,
        &[
            Row(at(3, 0), [0x08, 0, 0, 63, 1, 0], Way::In, 512, 0),
            Row(at(3, 0), [0x08, 0, 0, 63, 2, 0], Way::Still, 0, 2),
            Row(at(3, 0), [0x08, 0, 0, 64, 1, 0], Way::Still, 0, 2),
            Row(at(3, 0), [0x08, 0, 0, 0, 0, 0], Way::Still, 0, 2),
            Row(at(3, 0), [0x08, 0, 0, 60, 4, 0], Way::In, 2048, 0),
            Row(at(3, 0), [0x08, 0, 0, 0, 5, 0], Way::Still, 0, 2),
            Row(at(3, 0), [0x08, 0xE0, 0, 63, 1, 0xFF], Way::In, 512, 0),
            Row(at(3, 0), [0x0A, 0, 0, 63, 1, 0], Way::Out, 512, 0),
            Row(at(3, 0), [0x0A, 0, 0, 61, 4, 0], Way::Still, 0, 2),
            Row(at(3, 0), [0x00, 0, 0, 0, 0, 0], Way::Still, 0, 0),
            Row(at(3, 0), [0x12, 0, 0, 0, 1, 0], Way::Still, 0, 2),
            Row(at(3, 1), [0x08, 0, 0, 0, 1, 0], Way::Still, 0, 2),
            Row(at(3, 1), [0x00, 0, 0, 0, 0, 0], Way::Still, 0, 2),
            Row(at(4, 0), [0x08, 0, 0, 0, 1, 0], Way::Still, 0, 2),
            Row(at(4, 0), [0x00, 0, 0, 0, 0, 0], Way::Still, 0, 2),
        ],
    );
    Ok(())
}

// Block 66,051 is 1 × 65,536 + 2 × 256 + 3, and the last one of this disk.
#[test]
fn numbers_blocks_by_three_bytes(rt: HostRuntime) -> Result<(), Fail> {
    let mut disk = Disk::new(rt.alloc(), 0, 66_052)?;
    check_rows(
        &rt,
        &disk,
        &[
            Row(at(0, 0), [0x08, 1, 2, 3, 1, 0], Way::In, 512, 0),
            Row(at(0, 0), [0x08, 1, 2, 4, 1, 0], Way::Still, 0, 2),
            Row(at(0, 0), [0x08, 1, 3, 2, 1, 0], Way::Still, 0, 2),
            Row(at(0, 0), [0x08, 2, 1, 3, 1, 0], Way::Still, 0, 2),
        ],
    );
    assert_eq!(rt; disk.finish(at(0, 0), &[0x0A, 1, 2, 3, 1, 0], &[9; 512]), 0);
    assert_eq!(rt; disk.byte(at(0, 0), &[0x08, 1, 2, 3, 1, 0], 511), 9);
    assert_eq!(rt; disk.byte(at(0, 0), &[0x08, 0, 2, 3, 1, 0], 511), 0);
    Ok(())
}

#[test]
fn takes_six_bytes_only(rt: HostRuntime) -> Result<(), Fail> {
    let disk = Disk::new(rt.alloc(), 0, 8)?;
    let long = [0x08, 0, 0, 0, 1, 0, 0];
    for end in 0..8 {
        if end != 6 {
            assert_eq!(rt; disk.way(at(0, 0), &long[0..end]), (Way::Still, 0));
            assert_eq!(rt; disk.status(at(0, 0), &long[0..end]), 2);
        }
    }
    assert_eq!(rt; disk.status(at(0, 0), &[0x00]), 2);
    Ok(())
}

#[test]
fn writes_its_blocks_alone(rt: HostRuntime) -> Result<(), Fail> {
    let mut disk = Disk::new(rt.alloc(), 0, 8)?;
    assert_eq!(rt; disk.finish(at(0, 0), &[0x0A, 0, 0, 2, 1, 0], &[2; 512]), 0);
    assert_eq!(rt; disk.finish(at(0, 0), &[0x0A, 0, 0, 5, 1, 0], &[5; 512]), 0);
    assert_eq!(rt;
        disk.finish(at(0, 0), &[0x0A, 0, 0, 3, 2, 0], &[3; 1024]),
        0
    );
    // with another number of bytes, to another unit, or as a read: nothing is written
    assert_eq!(rt;
        disk.finish(at(0, 0), &[0x0A, 0, 0, 3, 2, 0], &[7; 1023]),
        0
    );
    assert_eq!(rt; disk.finish(at(0, 1), &[0x0A, 0, 0, 3, 1, 0], &[7; 512]), 2);
    assert_eq!(rt; disk.finish(at(0, 0), &[0x08, 0, 0, 3, 1, 0], &[7; 512]), 0);
    let held = [0, 2, 3, 3, 5, 0];
    for (i, due) in held.iter().enumerate() {
        let read = [0x08, 0, 0, i as u8 + 1, 1, 0];
        assert_eq!(rt; (i, disk.byte(at(0, 0), &read, 0)), (i, *due));
        assert_eq!(rt; (i, disk.byte(at(0, 0), &read, 511)), (i, *due));
    }
    Ok(())
}

#[test]
fn is_made_or_refused(rt: HostRuntime) -> Result<(), Fail> {
    let due = [
        (7, 1, MakeError::NoSuchTarget),
        (7, 2_097_153, MakeError::NoSuchTarget),
        (6, 2_097_153, MakeError::TooManyBlocks),
    ];
    for (target, blocks, error) in due {
        match Disk::new(rt.alloc(), target, blocks) {
            Ok(_) => return Err(Fail::new("made")),
            Err(e) => assert_eq!(rt; e, error),
        }
    }
    let empty = Disk::new(rt.alloc(), 6, 0)?;
    assert!(rt; empty.present(6) && !empty.present(5));
    assert_eq!(rt; empty.status(at(6, 0), &[0x08, 0, 0, 0, 1, 0]), 2);
    Ok(())
}
