// What the tables do not reach, worked out by hand from the bus's text: every row taken, a writer that must wait, ABORT TAG.
use bus::{Bus, Refusal, Selection, Shown};
use devices::{Disk, Pair};
use scsi::{Greeting, Word};
use std::alloc::Global;
use std::process::Abort;
use std::test::Fail;
use whim_bus::WhimBus;

const READ: [u8; 6] = [0x08, 0, 0, 2, 1, 0];

const WRITE: [u8; 6] = [0x0A, 0, 0, 2, 1, 0];

type Cable = WhimBus<Pair<Disk, Disk>>;

// Two disks, at targets 0 and 1; the whim bytes that are not given are 0.
fn cable(heap: Global, first: &[u8]) -> Result<Cable, Fail> {
    let mut whims = [0; 256];
    for (whim, byte) in whims.iter_mut().zip(first) {
        *whim = *byte;
    }
    let shelf = Pair {
        first: Disk::new(heap, 0, 8)?,
        second: Disk::new(heap, 1, 8)?,
    };
    Ok(WhimBus::new(shelf, whims))
}

fn select(
    cable: &mut Cable,
    target: u8,
    leave: bool,
    tag: Option<u8>,
) -> Result<Selection, Refusal> {
    let greeting = Greeting { lun: 0, leave, tag };
    cable.select(target, greeting.bytes().as_slice())
}

// Sixteen commands are sent and let go: each draws 0 for its selection, 3 for its command, and 0 as the line is free again.
#[test]
fn takes_no_seventeenth(rt: HostRuntime) -> Result<(), Fail> {
    let mut whims = [0; 48];
    for (i, whim) in whims.iter_mut().enumerate() {
        *whim = if i % 3 == 1 { 3 } else { 0 };
    }
    let mut cable = cable(rt.alloc(), &whims)?;
    for tag in 1..=16 {
        assert_eq!(rt;
            select(&mut cable, 0, true, Some(tag)),
            Ok(Selection::Selected)
        );
        assert_eq!(rt; cable.look(), Shown::Command);
        assert_eq!(rt; cable.command(&READ), Ok(()));
        assert_eq!(rt; cable.look(), Shown::MessageIn(0x04));
        assert_eq!(rt; cable.take(), Ok(0x04));
        assert_eq!(rt; cable.look(), Shown::Free);
    }
    assert_eq!(rt; select(&mut cable, 0, true, Some(17)), Err(Refusal::Misfit));
    assert_eq!(rt; select(&mut cable, 1, true, None), Err(Refusal::Misfit));
    assert_eq!(rt; cable.look(), Shown::Free);
    Ok(())
}

// A reader of target 0 is let go, and a writer without leave gives all its bytes to a target.
fn write_beside_reader(rt: &impl Abort, cable: &mut Cable, target: u8) {
    assert_eq!(rt; select(cable, 0, true, Some(1)), Ok(Selection::Selected));
    assert_eq!(rt; cable.command(&READ), Ok(()));
    assert_eq!(rt; cable.take(), Ok(0x04));
    assert_eq!(rt; select(cable, target, false, None), Ok(Selection::Selected));
    assert_eq!(rt; cable.command(&WRITE), Ok(()));
    for _ in 0..512 {
        assert_eq!(rt; cable.look(), Shown::DataOut);
        assert_eq!(rt; cable.give(7), Ok(()));
    }
}

#[test]
fn has_a_writer_wait_for_a_reader(rt: HostRuntime) -> Result<(), Fail> {
    let mut cable = cable(rt.alloc(), &[0, 3, 0])?;
    write_beside_reader(&rt, &mut cable, 0);
    assert_eq!(rt; cable.take(), Ok(0x02));
    assert_eq!(rt; cable.look(), Shown::Pause);
    assert_eq!(rt; cable.take(), Err(Refusal::Misfit));
    cable.wait();
    assert_eq!(rt; cable.look(), Shown::Pause);
    assert_eq!(rt; cable.speak(&Word::AbortTag.bytes()), Ok(()));
    assert_eq!(rt; cable.look(), Shown::Free);
    assert_eq!(rt; select(&mut cable, 0, true, Some(1)), Err(Refusal::Misfit));
    assert_eq!(rt; select(&mut cable, 0, false, None), Ok(Selection::Selected));
    Ok(())
}

#[test]
fn lets_a_writer_end_beside_a_reader_of_another_unit(rt: HostRuntime) -> Result<(), Fail> {
    let mut cable = cable(rt.alloc(), &[0, 3, 0])?;
    write_beside_reader(&rt, &mut cable, 1);
    assert_eq!(rt; cable.take(), Ok(0x00));
    assert_eq!(rt; cable.look(), Shown::MessageIn(0x00));
    assert_eq!(rt; cable.take(), Ok(0x00));
    assert_eq!(rt; cable.look(), Shown::Free);
    Ok(())
}
