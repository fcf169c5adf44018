ghost use Rattle.std.specs.Prelude.{◌≡◌, ℕ, ◌%◌, List, ◌++◌, Some};
ghost use Rattle.scsi.specs.Greetings.{greeting_bytes, ReadsGreeting, greeting, greeting_of, bytes_in};

use crate::message::{lun_of, permits_leave};
use crate::write::{identify_byte, simple_queue_tag};

/// What opens a nexus: the LUN, whether the target may disconnect, and a tagged command's tag.
#[derive(Clone, Copy, PartialEq, Eq, Debug)]
pub struct Greeting {
    pub lun: u8,
    pub leave: bool,
    pub tag: Option<u8>,
}

/// The bytes of a greeting: IDENTIFY alone, or with the tag message behind it.
#[derive(Clone, Copy, PartialEq, Eq, Debug)]
pub enum GreetingBytes {
    Untagged([u8; 1]),
    Tagged([u8; 3]),
}

impl GreetingBytes {
    /// The bytes, as they are sent.
    pub fn as_slice(&self) -> &[u8]
        ensures { result.now ≡ bytes_in self.now }
    {
        match self {
            GreetingBytes::Untagged(bytes) => bytes,
            GreetingBytes::Tagged(bytes) => bytes,
        }
    }
}

impl Greeting {
    /// What is sent to open the nexus; of the LUN the low three bits go into it.
    pub fn bytes(&self) -> GreetingBytes
        ensures bytes { bytes_in result ≡ greeting_bytes self.now.leave self.now.lun self.now.tag }
        ensures reads_back { (rest : List ℕ) → ReadsGreeting self.now.leave self.now.lun self.now.tag (bytes_in result ++ rest) rest }
        ensures understood { greeting_of (bytes_in result) ≡ Some (record { lun = self.now.lun % 8; leave = self.now.leave; tag = self.now.tag }) }
    {
        let first = identify_byte(self.leave, self.lun);
        match self.tag {
            None => GreetingBytes::Untagged([first]),
            Some(tag) => {
                let [second, third] = simple_queue_tag(tag);
                GreetingBytes::Tagged([first, second, third])
            }
        }
    }

    /// The greeting that these bytes are, if they are one.
    pub fn read(bytes: &[u8]) -> Option<Greeting>
        ensures { result ≡ greeting_of bytes.now }
    {
        match bytes {
            [first] => understood(*first, None),
            [first, 0x20, tag] => understood(*first, Some(*tag)),
            _ => None,
        }
    }
}

/// The greeting that begins with this byte, if it is IDENTIFY.
fn understood(first: u8, tag: Option<u8>) -> Option<Greeting>
    ensures { result ≡ greeting first tag }
{
    if first < 0x80 {
        return None;
    }
    Some(Greeting {
        lun: lun_of(first),
        leave: permits_leave(first),
        tag,
    })
}
