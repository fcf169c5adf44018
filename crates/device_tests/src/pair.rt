use crate::rows::{Row, at, check_rows};
use devices::{Disk, Pair, Recorder};
use shelf::{Shelf, Way};
use std::test::Fail;

#[test]
fn each_at_its_own_target(rt: HostRuntime) -> Result<(), Fail> {
    let first = Disk::new(rt.alloc(), 1, 8)?;
    let second = Recorder::new(rt.alloc(), 2, 128)?;
    let mut pair = Pair { first, second };
    assert!(rt; pair.present(1) && pair.present(2) && !pair.present(0));
    check_rows(
        &rt,
        &pair,
        &[
            Row(at(1, 0), [0x0A, 0, 0, 0, 1, 0], Way::Out, 512, 0),
            Row(at(2, 0), [0x0A, 0, 0, 0, 1, 0], Way::Still, 0, 2),
            Row(at(2, 0), [0x0A, 0, 0, 0, 128, 0], Way::Out, 128, 0),
            Row(at(0, 0), [0x00, 0, 0, 0, 0, 0], Way::Still, 0, 2),
        ],
    );
    assert_eq!(rt; pair.finish(at(1, 0), &[0x0A, 0, 0, 7, 1, 0], &[3; 512]), 0);
    assert_eq!(rt;
        pair.finish(at(2, 0), &[0x0A, 0, 0, 0, 128, 0], &[4; 128]),
        0
    );
    assert_eq!(rt; pair.byte(at(1, 0), &[0x08, 0, 0, 7, 1, 0], 0), 3);
    assert_eq!(rt; pair.second.film(), [4; 128].as_slice());
    Ok(())
}

#[test]
fn first_answers_where_both_are(rt: HostRuntime) -> Result<(), Fail> {
    let first = Disk::new(rt.alloc(), 1, 8)?;
    let second = Recorder::new(rt.alloc(), 1, 128)?;
    let mut pair = Pair { first, second };
    check_rows(
        &rt,
        &pair,
        &[
            Row(at(1, 0), [0x0A, 0, 0, 0, 1, 0], Way::Out, 512, 0),
            Row(at(1, 0), [0x0A, 0, 0, 0, 128, 0], Way::Still, 0, 2),
        ],
    );
    assert_eq!(rt; pair.finish(at(1, 0), &[0x0A, 0, 0, 0, 1, 0], &[3; 512]), 0);
    assert_eq!(rt; pair.byte(at(1, 0), &[0x08, 0, 0, 0, 1, 0], 511), 3);
    assert_eq!(rt; pair.second.film().len(), 0);
    Ok(())
}
