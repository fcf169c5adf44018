ghost use Rattle.std.specs.Prelude.{◌≡◌, ℕ, ◌+◌, ◌<◌, ◌≤◌, ◌↔◌, IsSome, IfSome};

use std::marker::Model;

/// The number of a slot: 1 to 16.
#[derive(Clone, Copy, PartialEq, Eq, Debug)]
pub struct SlotNumber {
    number: u8,
}

impl Model for SlotNumber {
    ghost Value = { ℕ };

    ghost view = { λ s. s.number };

    ghost invariant = { λ s. (1 ≤ s.number) × (s.number ≤ 16) };

    ghost inverse = { λ n. record { number = n } };
}

impl SlotNumber {
    /// The slot of this number, if there is one.
    pub fn new(number: u8) -> Option<SlotNumber>
        ensures valid { IsSome result ↔ ((1 ≤ number) × (number ≤ 16)) }
        ensures value { IfSome result (λ s. s ≡ number) }
    {
        if (1..=16).contains(&number) {
            Some(SlotNumber { number })
        } else {
            None
        }
    }

    /// The slot that stands at this place, if there is one.
    pub fn at(place: usize) -> Option<SlotNumber>
        ensures valid { IsSome result ↔ (place < 16) }
        ensures value { IfSome result (λ s. s ≡ place + 1) }
    {
        if place < 16 {
            Some(SlotNumber {
                number: place as u8 + 1,
            })
        } else {
            None
        }
    }

    /// The number.
    pub fn get(self) -> u8
        ensures value { result ≡ self }
        ensures least { 1 ≤ result }
        ensures most { result ≤ 16 }
    {
        self.number
    }

    /// The place at which it stands: the number less one.
    pub fn place(self) -> usize
        ensures value { result + 1 ≡ self }
        ensures inside { result < 16 }
    {
        usize::from(self.get() - 1)
    }
}
