ghost use Rattle.std.specs.Prelude.{◌≡◌};
ghost use Rattle.engine.specs.Answers.{sized, size_answer};

use slots::Refusal;

/// The size of a memory that an engine may have.
#[derive(Clone, Copy, PartialEq, Eq, Debug)]
pub struct MemorySize {
    pub(crate) bytes: u32,
}

// By name, since it is a call of its own; a `TryFrom` would say no more.
/// Whether an engine may have a memory of this many bytes.
pub fn memory_size(bytes: usize) -> Result<MemorySize, Refusal>
    ensures { sized result ≡ size_answer bytes }
{
    if bytes > 16_777_216 {
        return Err(Refusal::TooLarge);
    }
    Ok(MemorySize {
        bytes: bytes as u32,
    })
}
