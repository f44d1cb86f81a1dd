// Polynomials of degree at most two.
ghost use Rattle.blic_field.specs.Field.{blend};
ghost use Rattle.blic_field.specs.Quadratic.{at, HasElements};
ghost use Rattle.blic_poly2.specs.Poly.{reduced_at};
ghost use Rattle.std.specs.Prelude.{◌≡◌, ◌+◌, ◌≤◌, ℕ};

use crate::linear::blended;
use blic_basic::Steps;
use blic_field::Fe;
use std::marker::Model;
use std::sync::ledger::Ledger;

/// The polynomial `c0 + c1*X + c2*X*X`.
#[derive(Clone, Copy, Debug, PartialEq, Eq)]
pub struct Poly2 {
    pub c0: Fe,
    pub c1: Fe,
    pub c2: Fe,
}

impl Model for Poly2 {
    ghost use Rattle.blic_field.specs.Quadratic.{Quadratic};

    ghost Value = { Quadratic };

    ghost view = { λ p. record { c0 = p.c0; c1 = p.c1; c2 = p.c2 } };

    ghost inverse = { λ q. record { c0 = q.c0; c1 = q.c1; c2 = q.c2 } };
}

impl Poly2 {
    /// The value at `x`. At most two products of elements.
    pub fn at<L: Ledger>(&self, x: Fe, steps: &mut Steps<L>) -> Fe
        ensures value { result ≡ at self.now x }
        ensures at_most { steps.new ≤ steps.old + 2 }
        ensures at_least { steps.old ≤ steps.new }
    {
        let slope = self.c1.add(self.c2.mul(x, steps));
        self.c0.add(slope.mul(x, steps))
    }

    /// The value at `s` of the line through the values at 0 and 1. At most one product of elements.
    pub fn reduced_at<L: Ledger>(&self, s: Fe, steps: &mut Steps<L>) -> Fe
        ensures value { result ≡ reduced_at self.now s }
        ensures at_most { steps.new ≤ steps.old + 1 }
        ensures at_least { steps.old ≤ steps.new }
    {
        self.c0.add(s.mul(self.c1.add(self.c2), steps))
    }

    /// The polynomial at `s` on the line from `p0` to `p1`: `p0` if `s` is 0 and `p1` if it is 1. At most three products of elements.
    pub fn blend<L: Ledger>(s: Fe, p0: &Poly2, p1: &Poly2, steps: &mut Steps<L>) -> Poly2
        ensures values { (x : ℕ) → at result x ≡ blend s (at p0.now x) (at p1.now x) }
        ensures elements { HasElements result }
        ensures at_most { steps.new ≤ steps.old + 3 }
        ensures at_least { steps.old ≤ steps.new }
    {
        Poly2 {
            c0: blended(s, p0.c0, p1.c0, steps),
            c1: blended(s, p0.c1, p1.c1, steps),
            c2: blended(s, p0.c2, p1.c2, steps),
        }
    }
}
