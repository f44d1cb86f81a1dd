// Values that Python's integers gave, each call at 0, 1 and -1 among them.
ghost use Rattle.blic_field.specs.Field.{mul};
ghost use Rattle.std.specs.Prelude.{◌≡◌, ◌+◌, ◌<◌, ℕ};

use super::*;
use blic_basic::Steps;
use std::marker::Brand;
use std::sync::ledger::{Blank, Ledger};
use std::test::Fail;

const LAST: u64 = MODULUS - 1;

// Counts, and promises its count.
fn cube<L: Ledger>(a: Fe, steps: &mut Steps<L>) -> Fe
    ensures value { result ≡ mul (mul a a) a }
    ensures count { steps.new ≡ steps.old + 2 }
{
    a.mul(a, steps).mul(a, steps)
}

fn product_and_cube<L: Ledger>(a: Fe, b: Fe, blank: Blank) -> (Fe, Fe)
    requires name { blank.name ≡ L.name }
    requires parts { blank.parts ≡ L.parts }
    requires some { 0 < L.parts }
    ensures product { result.0 ≡ mul a b }
    ensures cube { result.1 ≡ mul (mul a a) a }
{
    let mut steps = Steps::<L>::new(blank);
    (a.mul(b, &mut steps), cube(a, &mut steps))
}

// Counts nothing: its contract names no ledger.
fn uncounted(a: Fe, b: Fe) -> (Fe, Fe)
    ensures product { result.0 ≡ mul a b }
    ensures cube { result.1 ≡ mul (mul a a) a }
{
    product_and_cube::<Brand>(a, b, Blank::new(1))
}

#[test]
fn numbers_from_the_modulus_on_are_no_elements(rt: HostRuntime) -> Result<(), Fail> {
    for n in [0, 1, LAST] {
        assert_eq!(rt; Fe::from_u64(n).ok_or("no element")?.value(), n);
    }
    for n in [MODULUS, MODULUS + 1, 1 << 61, u64::MAX] {
        assert_eq!(rt; Fe::from_u64(n), None, "at {n}");
    }
    assert_eq!(rt; Fe::from_bit(false), Fe::ZERO);
    assert_eq!(rt; Fe::from_bit(true), Fe::ONE);
    assert_eq!(rt; (Fe::ZERO.value(), Fe::ONE.value()), (0, 1));
    Ok(())
}

// Two elements, their sum, their difference and their product.
const ROWS: [(u64, u64, u64, u64, u64); 14] = [
    (0, 0, 0, 0, 0),
    (0, 1, 1, LAST, 0),
    (0, LAST, LAST, 1, 0),
    (1, 0, 1, 1, 0),
    (1, 1, 2, 0, 1),
    (1, LAST, 0, 2, LAST),
    (LAST, 0, LAST, LAST, 0),
    (LAST, 1, 0, 2305843009213693949, LAST),
    (LAST, LAST, 2305843009213693949, 0, 1),
    (1 << 60, 2, 1152921504606846978, 1152921504606846974, 1),
    (1 << 60, 1 << 60, 1, 0, 576460752303423488),
    (
        2305843009213693949,
        2305843009213693948,
        2305843009213693946,
        1,
        6,
    ),
    (
        1234567890123456789,
        987654321098765432,
        2222222211222222221,
        246913569024691357,
        960075274131157676,
    ),
    (
        2222222222222222222,
        1999999999999999999,
        1916379213008528270,
        222222222222222223,
        1084788404980466435,
    ),
];

#[test]
fn sums_differences_and_products(rt: HostRuntime) -> Result<(), Fail> {
    for (a, b, sum, difference, product) in ROWS {
        let a = Fe::from_u64(a).ok_or("no element")?;
        let b = Fe::from_u64(b).ok_or("no element")?;
        assert_eq!(rt; a.add(b).value(), sum, "{a:?} + {b:?}");
        assert_eq!(rt; a.sub(b).value(), difference, "{a:?} - {b:?}");
        assert_eq!(rt; uncounted(a, b).0.value(), product, "{a:?} * {b:?}");
    }
    Ok(())
}

#[test]
fn negatives_and_cubes(rt: HostRuntime) -> Result<(), Fail> {
    for (a, negative, cube) in [
        (0, 0, 0),
        (1, LAST, 1),
        (LAST, 1, LAST),
        (2305843009213693949, 2, 2305843009213693943),
        (
            1234567890123456789,
            1071275119090237162,
            1074105107264984317,
        ),
    ] {
        let a = Fe::from_u64(a).ok_or("no element")?;
        assert_eq!(rt; a.neg().value(), negative, "-{a:?}");
        assert_eq!(rt; uncounted(a, a).1.value(), cube, "{a:?} cubed");
    }
    Ok(())
}
