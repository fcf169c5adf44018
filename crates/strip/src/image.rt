ghost use Rattle.std.specs.Prelude.{◌≡◌, ℕ, ◌<◌, List, [], ◌∷◌, length, slice_index};
ghost use Rattle.strip.specs.Image.{ramp, adler, adler_from};

/// Draws the strip: each byte by its place.
pub fn draw(strip: &mut [u8])
    ensures { (i : ℕ) → i < length strip.new → slice_index strip.new i ≡ ramp i }
{
    for (i, byte) in strip.iter_mut().enumerate() {
        *byte = ramp(i);
    }
}

fn ramp(i: usize) -> u8
    ensures { result ≡ ramp i }
{
    let byte = i % 256;
    let line = i / 128 % 256;
    ((7 * byte + line) % 256) as u8
}

const MODULUS: u32 = 65_521;

/// The Adler-32 checksum of bytes that come one by one.
#[derive(Clone, Copy, PartialEq, Eq, Debug)]
pub struct Adler {
    a: u32,
    b: u32,
    ghost reduced: { (a < 65521) × (b < 65521) },
}

impl Adler {
    /// The checksum before the first byte.
    pub fn new() -> Self
        ensures { (xs : List ℕ) → adler_from result.a result.b xs ≡ adler xs }
    {
        Adler { a: 1, b: 0 }
    }

    /// Takes in the next byte.
    pub fn add(&mut self, byte: u8)
        ensures { (xs : List ℕ) → adler_from self.new.a self.new.b xs ≡ adler_from self.old.a self.old.b (byte ∷ xs) }
    {
        self.a = (self.a + u32::from(byte)) % MODULUS;
        self.b = (self.b + self.a) % MODULUS;
    }

    /// The checksum of the bytes so far.
    pub fn sum(&self) -> u32
        ensures { result ≡ adler_from self.now.a self.now.b [] }
    {
        self.b * 65_536 + self.a
    }
}

/// The Adler-32 checksum.
pub fn adler32(bytes: &[u8]) -> u32
    ensures { result ≡ adler bytes.now }
{
    let mut adler = Adler::new();
    for x in bytes {
        adler.add(*x);
    }
    adler.sum()
}
