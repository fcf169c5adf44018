ghost use Rattle.std.specs.Prelude.{◌≡◌};
ghost use Rattle.scsi.specs.Commands.{length_of, well_sized};

/// How many bytes a command has, by its group, the top three bits of its first byte.
pub fn command_length(first: u8) -> Option<u8>
    ensures { result ≡ length_of first }
{
    match first >> 5 {
        0 => Some(6),
        1 | 2 => Some(10),
        5 => Some(12),
        _ => None,
    }
}

/// Whether a command is as long as its group says.
pub fn is_well_sized(command: &[u8]) -> bool
    ensures { result ≡ well_sized command.now }
{
    command
        .first()
        .and_then(|&first| command_length(first))
        .is_some_and(|length| command.len() == usize::from(length))
}
