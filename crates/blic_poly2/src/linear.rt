// Polynomials of degree at most one.
ghost use Rattle.blic_field.specs.Field.{add, blend, mul, or};
ghost use Rattle.blic_field.specs.Quadratic.{at, HasElements};
ghost use Rattle.blic_poly2.specs.Poly.{lin_at, LinHasElements};
ghost use Rattle.std.specs.Prelude.{◌≡◌, ◌+◌, ◌≤◌, ℕ};

use crate::poly::Poly2;
use blic_basic::Steps;
use blic_field::Fe;
use std::sync::ledger::Ledger;

/// The polynomial `c0 + c1*X`.
#[derive(Clone, Copy, Debug, PartialEq, Eq)]
pub struct Lin {
    pub c0: Fe,
    pub c1: Fe,
}

impl Lin {
    /// The polynomial at `s` on the line from `a` to `b`: `a` if `s` is 0 and `b` if it is 1. At most two products of elements.
    pub fn blend<L: Ledger>(s: Fe, a: &Lin, b: &Lin, steps: &mut Steps<L>) -> Lin
        ensures values { (x : ℕ) → lin_at result x ≡ blend s (lin_at a.now x) (lin_at b.now x) }
        ensures elements { LinHasElements result }
        ensures at_most { steps.new ≤ steps.old + 2 }
        ensures at_least { steps.old ≤ steps.new }
    {
        Lin {
            c0: blended(s, a.c0, b.c0, steps),
            c1: blended(s, a.c1, b.c1, steps),
        }
    }

    /// The product of the two. At most four products of elements.
    pub fn mul_lin<L: Ledger>(&self, other: &Lin, steps: &mut Steps<L>) -> Poly2
        ensures values { (x : ℕ) → at result x ≡ mul (lin_at self.now x) (lin_at other.now x) }
        ensures elements { HasElements result }
        ensures at_most { steps.new ≤ steps.old + 4 }
        ensures at_least { steps.old ≤ steps.new }
    {
        let crossed = self.c0.mul(other.c1, steps);
        Poly2 {
            c0: self.c0.mul(other.c0, steps),
            c1: crossed.add(self.c1.mul(other.c0, steps)),
            c2: self.c1.mul(other.c1, steps),
        }
    }

    /// The or of the two, `a + b - a*b`. At most four products of elements.
    pub fn or_lin<L: Ledger>(&self, other: &Lin, steps: &mut Steps<L>) -> Poly2
        ensures values { (x : ℕ) → at result x ≡ or (lin_at self.now x) (lin_at other.now x) }
        ensures elements { HasElements result }
        ensures at_most { steps.new ≤ steps.old + 4 }
        ensures at_least { steps.old ≤ steps.new }
    {
        let product = self.mul_lin(other, steps);
        Poly2 {
            c0: self.c0.add(other.c0).sub(product.c0),
            c1: self.c1.add(other.c1).sub(product.c1),
            c2: product.c2.neg(),
        }
    }
}

// The value at s on the line that is u at 0 and w at 1.
#[tactic(auto, using(crate::proofs::Values::blend_by_difference))]
pub(crate) fn blended<L: Ledger>(s: Fe, u: Fe, w: Fe, steps: &mut Steps<L>) -> Fe
    ensures value { result ≡ blend s u w }
    ensures count { steps.new ≡ steps.old + 1 }
{
    u.add(s.mul(w.sub(u), steps))
}
