// Values that Python's integers gave, at 0, 1 and -1 among others; a caller that counts and one that doesn't.
ghost use Rattle.blic_field.specs.Field.{add};
ghost use Rattle.blic_field.specs.Quadratic.{at};
ghost use Rattle.blic_poly2.specs.Poly.{reduced_at};
ghost use Rattle.std.specs.Prelude.{◌≡◌, ◌+◌, ◌<◌, ◌≤◌, ℕ};

use super::*;
use blic_basic::Steps;
use blic_field::{Fe, MODULUS};
use std::marker::Brand;
use std::sync::ledger::{Blank, Ledger};
use std::test::Fail;

const LAST: u64 = MODULUS - 1;

// Counts: two values cost at most four products.
fn sum_at_ends<L: Ledger>(p: &Poly2, steps: &mut Steps<L>) -> Fe
    ensures sum { result ≡ add (at p.now 0) (at p.now 1) }
    ensures at_most { steps.new ≤ steps.old + 4 }
{
    p.at(Fe::ZERO, steps).add(p.at(Fe::ONE, steps))
}

fn at_counted<L: Ledger>(p: &Poly2, x: Fe, blank: Blank) -> (Fe, Fe, Fe)
    requires name { blank.name ≡ L.name }
    requires parts { blank.parts ≡ L.parts }
    requires some { 0 < L.parts }
    ensures value { result.0 ≡ at p.now x }
    ensures reduced { result.1 ≡ reduced_at p.now x }
{
    let mut steps = Steps::<L>::new(blank);
    (
        p.at(x, &mut steps),
        p.reduced_at(x, &mut steps),
        sum_at_ends(p, &mut steps),
    )
}

// Counts nothing: its contract names no ledger.
fn at_uncounted(p: &Poly2, x: Fe) -> (Fe, Fe, Fe)
    ensures value { result.0 ≡ at p.now x }
    ensures reduced { result.1 ≡ reduced_at p.now x }
{
    at_counted::<Brand>(p, x, Blank::new(1))
}

fn blends_counted<L: Ledger>(s: Fe, p: &Poly2, q: &Poly2, blank: Blank) -> (Poly2, Lin)
    requires name { blank.name ≡ L.name }
    requires parts { blank.parts ≡ L.parts }
    requires some { 0 < L.parts }
{
    let mut steps = Steps::<L>::new(blank);
    let a = Lin { c0: p.c0, c1: p.c1 };
    let b = Lin { c0: q.c0, c1: q.c1 };
    (
        Poly2::blend(s, p, q, &mut steps),
        Lin::blend(s, &a, &b, &mut steps),
    )
}

fn blends(s: Fe, p: &Poly2, q: &Poly2) -> (Poly2, Lin) {
    blends_counted::<Brand>(s, p, q, Blank::new(1))
}

fn products_counted<L: Ledger>(a: &Lin, b: &Lin, blank: Blank) -> (Poly2, Poly2)
    requires name { blank.name ≡ L.name }
    requires parts { blank.parts ≡ L.parts }
    requires some { 0 < L.parts }
{
    let mut steps = Steps::<L>::new(blank);
    (a.mul_lin(b, &mut steps), a.or_lin(b, &mut steps))
}

fn products(a: &Lin, b: &Lin) -> (Poly2, Poly2) {
    products_counted::<Brand>(a, b, Blank::new(1))
}

fn lin(c0: u64, c1: u64) -> Option<Lin> {
    Some(Lin {
        c0: Fe::from_u64(c0)?,
        c1: Fe::from_u64(c1)?,
    })
}

fn poly((c0, c1, c2): (u64, u64, u64)) -> Option<Poly2> {
    Some(Poly2 {
        c0: Fe::from_u64(c0)?,
        c1: Fe::from_u64(c1)?,
        c2: Fe::from_u64(c2)?,
    })
}

const BIG: (u64, u64, u64) = (1234567890123456789, 2222222222222222222, 987654321098765432);

#[test]
fn values_and_reduced_values(rt: HostRuntime) -> Result<(), Fail> {
    for (p, x, value, reduced, sum_of_ends) in [
        ((LAST, LAST, LAST), 0, LAST, LAST, MODULUS - 4),
        ((LAST, LAST, LAST), 1, MODULUS - 3, MODULUS - 3, MODULUS - 4),
        ((LAST, LAST, LAST), LAST, LAST, 1, MODULUS - 4),
        (BIG, 0, BIG.0, BIG.0, 1067326305140513330),
        (
            BIG,
            1,
            2138601424230750492,
            2138601424230750492,
            1067326305140513330,
        ),
        (
            BIG,
            LAST,
            2305842998213693950,
            330534356016163086,
            1067326305140513330,
        ),
        ((1, LAST, 1), 3, 7, 1, 2),
        ((3, MODULUS - 5, 0), 5, MODULUS - 22, MODULUS - 22, 1),
        ((5, MODULUS - 29, 20), 2, 27, MODULUS - 13, 1),
        ((5, MODULUS - 29, 20), 3, 98, MODULUS - 22, 1),
    ] {
        let found = at_uncounted(
            &poly(p).ok_or("no element")?,
            Fe::from_u64(x).ok_or("no element")?,
        );
        assert_eq!(rt; found.0.value(), value, "{p:?} at {x}");
        assert_eq!(rt; found.1.value(), reduced, "{p:?} reduced at {x}");
        assert_eq!(rt; found.2.value(), sum_of_ends, "the ends of {p:?}");
    }
    Ok(())
}

#[test]
fn blends_between_two_polynomials(rt: HostRuntime) -> Result<(), Fail> {
    let p = poly(BIG).ok_or("no element")?;
    let q = poly((1999999999999999999, LAST, 1)).ok_or("no element")?;
    for (s, c0, c1, c2) in [
        (0, BIG.0, BIG.1, BIG.2),
        (1, 1999999999999999999, LAST, 1),
        (
            LAST,
            469135780246913579,
            2138601435230750494,
            1975308642197530863,
        ),
        (
            3,
            1225021210539392468,
            167241573982943455,
            330534367016163090,
        ),
    ] {
        let found = blends(Fe::from_u64(s).ok_or("no element")?, &p, &q);
        assert_eq!(rt; Some(found.0), poly((c0, c1, c2)), "at {s}");
        assert_eq!(rt; Some(found.1), lin(c0, c1), "at {s}");
    }
    Ok(())
}

#[test]
fn products_and_ors_of_linear_ones(rt: HostRuntime) -> Result<(), Fail> {
    for (a0, a1, b0, b1, product, or) in [
        (0, 0, 1, 1, (0, 0, 0), (1, 1, 0)),
        (1, LAST, 0, 1, (0, 1, LAST), (1, LAST, 1)),
        (
            LAST,
            LAST,
            LAST,
            LAST,
            (1, 2, 1),
            (MODULUS - 3, MODULUS - 4, LAST),
        ),
        (
            BIG.0,
            BIG.1,
            BIG.2,
            1999999999999999999,
            (960075274131157676, 1534168132182065233, 1084788404980466435),
            (1262146937091064545, 382211080826463037, 1221054604233227516),
        ),
    ] {
        let a = lin(a0, a1).ok_or("no element")?;
        let b = lin(b0, b1).ok_or("no element")?;
        let found = products(&a, &b);
        assert_eq!(rt; Some(found.0), poly(product), "{a:?} and {b:?}");
        assert_eq!(rt; Some(found.1), poly(or), "{a:?} or {b:?}");
    }
    Ok(())
}
