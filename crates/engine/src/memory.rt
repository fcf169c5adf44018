// The memory that data goes to and comes from.
ghost use Rattle.std.specs.Prelude.{◌≡◌, slice_index, slice_set};

// The byte at the place, 0 where there is none.
pub(crate) fn fetch(memory: &[u8], place: usize) -> u8
    ensures { result ≡ slice_index memory.now place }
{
    memory.get(place).copied().unwrap_or(0)
}

// Writes the byte at the place, if there is one. Through `get_mut` nothing is known of the memory afterwards.
pub(crate) fn store(memory: &mut [u8], place: usize, byte: u8)
    ensures { memory.new ≡ slice_set memory.old place byte }
{
    if place < memory.len() {
        memory[place] = byte;
    }
}
