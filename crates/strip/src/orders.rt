ghost use Rattle.strip.specs.Orders.{Asks, OneBlock};

use std::fmt;

/// What the task asks of a disk or of a film recorder.
#[derive(Clone, Copy, PartialEq, Eq, Debug)]
pub enum Order {
    /// Read this block of a disk.
    Read(u32),
    /// Write this block of a disk.
    Write(u32),
    /// Print so many bytes on film.
    Print(u16),
}

impl Order {
    /// The command's bytes; of a block number the low 21 bits go into them.
    pub fn bytes(&self) -> [u8; 6]
        ensures { Asks self.now result }
    {
        match self {
            Order::Read(block) => one_block(0x08, *block),
            Order::Write(block) => one_block(0x0a, *block),
            Order::Print(count) => {
                let [high, low] = count.to_be_bytes();
                [0x0a, 0, 0, high, low, 0]
            }
        }
    }
}

fn one_block(code: u8, block: u32) -> [u8; 6]
    ensures { OneBlock code block result }
{
    let [_, high, middle, low] = block.to_be_bytes();
    [code, high % 32, middle, low, 1, 0]
}

impl fmt::Display for Order {
    fn fmt<W: fmt::Write>(&self, f: &mut fmt::Formatter<W>) -> fmt::Result {
        match self {
            Order::Read(block) => write!(f, "READ block {block}"),
            Order::Write(block) => write!(f, "WRITE block {block}"),
            Order::Print(count) => write!(f, "PRINT {count} bytes"),
        }
    }
}
