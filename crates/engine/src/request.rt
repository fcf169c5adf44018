use shelf::Unit;
use slots::Region;

/// What is asked for in a submit: a unit, manner (0 plain, 1 may disconnect, 2 tagged and may disconnect), direction
/// (0 none, 1 in, 2 out), command bytes, and a region of the memory.
#[derive(Clone, Copy, PartialEq, Eq, Debug)]
pub struct Request<'a> {
    pub unit: Unit,
    // Numbers, since anything may be asked for: one above 2 is refused, and an enum would ask more of callers.
    pub manner: u8,
    pub direction: u8,
    pub bytes: &'a [u8],
    pub region: Region,
}
