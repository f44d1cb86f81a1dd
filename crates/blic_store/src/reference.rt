// References to functions of a store.
ghost use Rattle.std.specs.Prelude.{◌≡◌, ◌<◌, ◌↔◌, ℕ, IsTrue};

use std::marker::Model;

/// A function of a store, by its number: 0 for false, 1 for true, and from 2 on the store's
/// decisions in the order in which they were made. It says nothing of which store it is of:
/// `Store::holds` tells whether a store has that many.
#[derive(Clone, Copy, Debug, PartialEq, Eq)]
pub struct Ref {
    number: u32,
}

impl Model for Ref {
    ghost Value = { ℕ };

    ghost view = { λ r. r.number };

    ghost inverse = { λ n. record { number = n } };
}

impl Ref {
    /// The function that is false everywhere.
    pub const FALSE: Ref = Ref { number: 0 };

    /// The function that is true everywhere.
    pub const TRUE: Ref = Ref { number: 1 };

    /// Whether the function is the same everywhere.
    pub fn is_const(self) -> bool
        ensures { IsTrue result ↔ (self < 2) }
    {
        self.number < 2
    }

    /// The ref's number.
    pub fn number(self) -> u32
        ensures { result ≡ self }
    {
        self.number
    }

    /// The ref with the number.
    pub fn numbered(number: u32) -> Ref
        ensures { result ≡ number }
    {
        Ref { number }
    }
}
