// Tables of commands and answers.
use shelf::{Shelf, Unit, Way};
use std::process::Abort;

pub(crate) fn at(target: u8, lun: u8) -> Unit {
    Unit { target, lun }
}

/// A command to a unit, and the way, count and status that are due.
#[derive(Clone, Copy)]
pub(crate) struct Row(pub Unit, pub [u8; 6], pub Way, pub u16, pub u8);

/// Holds a shelf to a table; a failure shows the row's place in it.
pub(crate) fn check_rows<S: Shelf>(rt: &impl Abort, shelf: &S, rows: &[Row]) {
    for (i, Row(unit, command, way_due, count_due, status_due)) in rows.iter().enumerate() {
        let (way, count) = shelf.way(*unit, command);
        let status = shelf.status(*unit, command);
        assert_eq!(rt;
            (i, way, count, status),
            (i, *way_due, *count_due, *status_due)
        );
    }
}
