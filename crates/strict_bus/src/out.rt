// The out bytes that the nexus was given.
ghost use Rattle.std.specs.Prelude.{◌≡◌, ◌+◌, ◌<◌, ◌≤◌, ◌++◌, ◌∷◌, [], take};

/// The out bytes of a nexus, in room for as many as a command moves. An `ArrayVec` would write over each of them when it is
/// emptied, so that a selection took longer behind a long command.
#[derive(Clone, Copy)]
pub(crate) struct OutBytes {
    bytes: [u8; 2048],
    count: usize,
    ghost within: { count ≤ 2048 },
}

impl OutBytes {
    pub(crate) const NONE: OutBytes = OutBytes {
        bytes: [0; 2048],
        count: 0,
    };

    /// The bytes, in their order.
    pub(crate) fn as_slice(&self) -> &[u8]
        ensures { result.now ≡ take self.now.count self.now.bytes }
    {
        &self.bytes[..self.count]
    }

    /// One byte more.
    pub(crate) fn push(&mut self, byte: u8)
        requires { self.old.count < 2048 }
        ensures count { self.new.count ≡ self.old.count + 1 }
        ensures bytes { take self.new.count self.new.bytes ≡ take self.old.count self.old.bytes ++ byte ∷ [] }
    {
        self.bytes[self.count] = byte;
        self.count += 1;
    }

    /// None of them stays.
    pub(crate) fn clear(&mut self)
        ensures { self.new.count ≡ 0 }
    {
        self.count = 0;
    }
}
