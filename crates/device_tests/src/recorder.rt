use crate::rows::{Row, at, check_rows};
use devices::{MakeError, Recorder};
use shelf::{Shelf, Way};
use std::test::Fail;

#[test]
fn answers(rt: HostRuntime) -> Result<(), Fail> {
    let recorder = Recorder::new(rt.alloc(), 2, 4096)?;
    check_rows(
        &rt,
        &recorder,
        &[
            Row(at(2, 0), [0x0A, 0, 0, 0, 0, 0], Way::Out, 0, 0),
            Row(at(2, 0), [0x0A, 0, 0, 0, 128, 0], Way::Out, 128, 0),
            Row(at(2, 0), [0x0A, 0xFF, 0, 0, 128, 0xFF], Way::Out, 128, 0),
            Row(at(2, 0), [0x0A, 0, 0, 8, 0, 0], Way::Out, 2048, 0),
            Row(at(2, 0), [0x0A, 0, 0, 8, 1, 0], Way::Still, 0, 2),
            Row(at(2, 0), [0x0A, 0, 0, 8, 128, 0], Way::Still, 0, 2),
            Row(at(2, 0), [0x0A, 0, 1, 0, 0, 0], Way::Still, 0, 2),
            Row(at(2, 0), [0x0A, 0, 0, 0, 64, 0], Way::Still, 0, 2),
            // as a block write this would move 512 bytes
            Row(at(2, 0), [0x0A, 0, 0, 0, 1, 0], Way::Still, 0, 2),
            Row(at(2, 0), [0x08, 0, 0, 0, 128, 0], Way::Still, 0, 2),
            Row(at(2, 0), [0x00, 0, 0, 0, 0, 0], Way::Still, 0, 0),
            Row(at(2, 1), [0x0A, 0, 0, 0, 128, 0], Way::Still, 0, 2),
            Row(at(2, 1), [0x00, 0, 0, 0, 0, 0], Way::Still, 0, 2),
            Row(at(1, 0), [0x0A, 0, 0, 0, 128, 0], Way::Still, 0, 2),
        ],
    );
    Ok(())
}

#[test]
fn appends_while_there_is_space(rt: HostRuntime) -> Result<(), Fail> {
    let mut recorder = Recorder::new(rt.alloc(), 2, 384)?;
    assert_eq!(rt;
        recorder.finish(at(2, 0), &[0x0A, 0, 0, 0, 128, 0], &[1; 128]),
        0
    );
    assert_eq!(rt;
        recorder.finish(at(2, 0), &[0x0A, 0, 0, 0, 128, 0], &[7; 127]),
        0
    );
    assert_eq!(rt;
        recorder.finish(at(2, 0), &[0x0A, 0, 0, 1, 128, 0], &[7; 384]),
        2
    );
    assert_eq!(rt; recorder.film().len(), 128);
    assert_eq!(rt;
        recorder.finish(at(2, 0), &[0x0A, 0, 0, 1, 0, 0], &[2; 256]),
        0
    );
    assert_eq!(rt;
        recorder.finish(at(2, 0), &[0x0A, 0, 0, 0, 128, 0], &[7; 128]),
        2
    );
    assert_eq!(rt; recorder.finish(at(2, 0), &[0x0A, 0, 0, 0, 0, 0], &[]), 0);
    let film = recorder.film();
    assert!(rt; film.len() == 384);
    assert_eq!(rt; [film[0], film[127], film[128], film[383]], [1, 1, 2, 2]);
    Ok(())
}

#[test]
fn is_made_or_refused(rt: HostRuntime) -> Result<(), Fail> {
    match Recorder::new(rt.alloc(), 7, 0) {
        Ok(_) => return Err(Fail::new("made")),
        Err(e) => assert_eq!(rt; e, MakeError::NoSuchTarget),
    }
    let full = Recorder::new(rt.alloc(), 6, 0)?;
    assert!(rt; full.present(6) && !full.present(5));
    check_rows(
        &rt,
        &full,
        &[
            Row(at(6, 0), [0x0A, 0, 0, 0, 0, 0], Way::Out, 0, 0),
            Row(at(6, 0), [0x0A, 0, 0, 0, 128, 0], Way::Out, 128, 2),
        ],
    );
    Ok(())
}
