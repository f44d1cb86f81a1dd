// The elements of the field, one word each.
ghost use Rattle.blic_field.specs.Field.{add, modulus, mul, neg, sub};
ghost use Rattle.std.specs.Prelude.{◌≡◌, ◌+◌, ◌*◌, ◌%◌, ◌<◌, ◌≤◌, ◌↔◌, IfSome, IsNone, if◌then◌else◌, ℕ};

use blic_basic::Steps;
use std::marker::Model;
use std::sync::ledger::Ledger;

/// How many elements the field has: 2^61 - 1.
pub const MODULUS: u64 = 2305843009213693951;

/// An element of the field, seen as a number from 0 to `MODULUS` - 1.
#[derive(Clone, Copy, Debug, PartialEq, Eq)]
pub struct Fe {
    value: u64,
}

impl Model for Fe {
    ghost use Rattle.blic_field.specs.Field.{modulus};
    ghost use Rattle.std.specs.Prelude.{◌<◌, ℕ};

    ghost Value = { ℕ };

    ghost view = { λ a. a.value };

    ghost invariant = { λ a. a.value < modulus };

    ghost inverse = { λ n. record { value = n } };
}

impl Fe {
    /// The element 0.
    pub const ZERO: Fe = Fe { value: 0 };

    /// The element 1.
    pub const ONE: Fe = Fe { value: 1 };

    /// The element with this number: `None` from `MODULUS` on.
    pub fn from_u64(n: u64) -> Option<Fe>
        ensures value { IfSome result (λ element. element ≡ n) }
        ensures none { IsNone result ↔ (modulus ≤ n) }
    {
        if n < MODULUS {
            Some(Fe { value: n })
        } else {
            None
        }
    }

    /// 1 for true and 0 for false.
    pub fn from_bit(bit: bool) -> Fe
        ensures { result ≡ (if bit then 1 else 0) }
    {
        if bit { Fe::ONE } else { Fe::ZERO }
    }

    /// The number of the element, which is below `MODULUS`.
    pub fn value(self) -> u64
        ensures same { result ≡ self }
        ensures below { result < modulus }
    {
        self.value
    }

    /// The sum, modulo `MODULUS`.
    #[tactic(auto, unfolding(crate::specs::Field::add))]
    pub fn add(self, other: Fe) -> Fe
        ensures { result ≡ add self other }
    {
        Fe {
            value: reduced(self.value + other.value),
        }
    }

    /// The difference, modulo `MODULUS`.
    #[tactic(auto, unfolding(crate::specs::Field::sub))]
    pub fn sub(self, other: Fe) -> Fe
        ensures { result ≡ sub self other }
    {
        Fe {
            value: reduced(self.value + (MODULUS - other.value)),
        }
    }

    /// The negative, modulo `MODULUS`, which is 0 at 0.
    #[tactic(auto, unfolding(crate::specs::Field::neg))]
    pub fn neg(self) -> Fe
        ensures { result ≡ neg self }
    {
        Fe {
            value: reduced(MODULUS - self.value),
        }
    }

    /// The product, modulo `MODULUS`, which `steps` counts as one step.
    #[tactic(auto, unfolding(crate::specs::Field::mul))]
    pub fn mul<L: Ledger>(self, other: Fe, steps: &mut Steps<L>) -> Fe
        ensures product { result ≡ mul self other }
        ensures count { steps.new ≡ steps.old + 1 }
    {
        steps.tick();
        Fe {
            value: folded(u128::from(self.value) * u128::from(other.value)),
        }
    }
}

// A number below two moduli, made less than one.
fn reduced(n: u64) -> u64
    requires { n < 2 * modulus }
    ensures { result ≡ n % modulus }
{
    if n >= MODULUS { n - MODULUS } else { n }
}

// A product of two elements, reduced: its high bits are added to its low 61, since 2^61 is 1 modulo 2^61 - 1.
#[tactic(auto, using(std::proofs::lemmas::Nat::and_mask))]
fn folded(n: u128) -> u64
    requires { n < modulus * modulus }
    ensures { result ≡ n % modulus }
{
    let low = (n & u128::from(MODULUS)) as u64;
    let high = (n >> 61) as u64;
    reduced(low + high)
}
