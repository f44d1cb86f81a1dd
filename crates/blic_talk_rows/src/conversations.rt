// Whole conversations whose replies were worked out by hand.
ghost use Rattle.std.specs.Prelude.{◌≡◌, ◌<◌};

use blic_basic::{Steps, SureSource};
use blic_circuit::build;
use blic_claims::{Answers, Layout};
use blic_field::Fe;
use blic_messages::{Ask, Hello, Reply};
use blic_model::{Circuit, Formula};
use blic_plain::Plain;
use blic_prover::{Prover, Step};
use blic_qdimacs::read;
use blic_verifier::{Next, Verifier};
use std::alloc::Global;
use std::marker::Brand;
use std::process::Abort;
use std::sync::ledger::{Blank, Ledger};
use std::test::Fail;

fn formula_of(alloc: Global, text: &str) -> Result<Formula, Fail> {
    Ok(read(alloc, &mut SureSource::new(text.as_bytes())).map_err(|_| "no formula")?)
}

// The element of a number, or the negative of one.
fn element(n: i64) -> Result<Fe, Fail> {
    let size = Fe::from_u64(n.unsigned_abs()).ok_or("no element")?;
    Ok(if n < 0 { size.neg() } else { size })
}

// The numbers of a reply, one after another.
fn numbers_of(alloc: Global, reply: &Reply<'_>) -> Result<Vec<Fe>, Fail> {
    let mut numbers = Vec::new(alloc);
    match reply {
        Reply::Answer(bit) => numbers.push(Fe::from_bit(*bit))?,
        Reply::Polys(polys) => {
            for poly in polys.iter() {
                numbers.push(poly.c0)?;
                numbers.push(poly.c1)?;
                numbers.push(poly.c2)?;
            }
        }
        Reply::Values(u, w) => {
            numbers.push(*u)?;
            numbers.push(*w)?;
        }
        Reply::Refused(_) => return Err(Fail::from("refused")),
    }
    Ok(numbers)
}

const HELLO: Hello = Hello {
    wire: 1,
    circuit: 1,
    order: 0,
    digest: [0; 32],
};

// The prover's replies under the draws, and what the verifier says of the last.
fn talk<L: Ledger>(
    alloc: Global,
    circuit: &Circuit,
    draws: &[i64],
    blank: Blank,
) -> Result<(Vec<Vec<Fe>>, Next), Fail>
    requires name { blank.name ≡ L.name }
    requires parts { blank.parts ≡ L.parts }
    requires some { 0 < L.parts }
{
    let mut steps = Steps::<L>::new(blank);
    let layout = Layout::new(alloc, circuit).map_err(|_| "memory")?;
    let mut prover = Prover::new(alloc, circuit, &layout, HELLO).map_err(|_| "memory")?;
    let mut verifier = Verifier::new(alloc, circuit, &layout).map_err(|_| "memory")?;
    let mut plain = Plain::new(circuit);
    let mut replies = Vec::new(alloc);
    let mut ask = Ask::Hello(HELLO);
    let mut drawn = 0;
    for _ in 0..100 {
        let Step::Reply(given) = prover.step(&mut plain, &ask, &mut steps) else {
            return Err(Fail::from("no reply"));
        };
        let reply = prover.shown(given);
        replies.push(numbers_of(alloc, &reply)?)?;
        if verifier.wants_draw() {
            return Err(Fail::from("no draw"));
        }
        let next = verifier.take(&reply, &mut steps);
        if next == Next::Go {
            ask = Ask::Go;
        } else if verifier.wants_draw() {
            let r = element(*draws.get(drawn).ok_or("too many draws")?)?;
            drawn += 1;
            verifier.drawn(r, &mut steps);
            ask = Ask::Draw(r);
        } else {
            return Ok((replies, next));
        }
    }
    Err(Fail::from("no end"))
}

fn talked(alloc: Global, circuit: &Circuit, draws: &[i64]) -> Result<(Vec<Vec<Fe>>, Next), Fail> {
    talk::<Brand>(alloc, circuit, draws, Blank::new(1))
}

fn circuit_of(alloc: Global, text: &str) -> Result<Circuit, Fail> {
    let formula = formula_of(alloc, text)?;
    Ok(build(alloc, &formula, 0, 1).map_err(|_| "no circuit")?)
}

// Asserts that the circuit's conversation has these replies under the draws, and certifies that it is true.
fn assert_talk(
    rt: &impl Abort,
    alloc: Global,
    circuit: &Circuit,
    draws: &[i64],
    worked: &[&[i64]],
) -> Result<(), Fail> {
    let (replies, last) = talked(alloc, circuit, draws)?;
    assert_eq!(rt; last, Next::Done(true));
    assert_eq!(rt; replies.len(), worked.len());
    for (reply, numbers) in replies.iter().zip(worked.iter()) {
        assert_eq!(rt; reply.len(), numbers.len());
        for (number, want) in reply.iter().zip(numbers.iter()) {
            assert_eq!(rt; *number, element(*want)?);
        }
    }
    Ok(())
}

const WORKED: [&[i64]; 13] = [
    &[1],
    &[1, 1],
    &[1, -1, 1, 1, -1, 1],
    &[3, -2],
    &[3, -5, 0, 3, -5, 0],
    &[5, -29, 20, 5, -29, 20],
    &[-3, -9],
    &[1, -2, 0],
    &[1, -4, 0],
    &[-5, -3],
    &[2, -1, 0],
    &[1, 0, 0],
    &[7, 1],
];

const DIFFER: &str = "p cnf 2 2\na 1 0\ne 2 0\n1 2 0\n-1 -2 0\n";

#[test]
fn two_variables_that_differ_are_talked_about_as_worked_out_by_hand(
    rt: HostRuntime,
) -> Result<(), Fail> {
    let alloc = rt.alloc();
    let circuit = circuit_of(alloc, DIFFER)?;
    assert_talk(
        &rt,
        alloc,
        &circuit,
        &[3, 5, 2, 4, 6, 1, 7],
        WORKED.as_slice(),
    )?;
    for draws in [[0; 7], [1; 7]] {
        let (_, last) = talked(alloc, &circuit, &draws)?;
        assert_eq!(rt; last, Next::Done(true));
    }
    Ok(())
}

const TAUTOLOGY: &str = "p cnf 1 2\ne 1 0\n1 -1 0\n1 1 0\n";

#[test]
fn a_tautology_and_a_repeated_literal_are_talked_about_as_worked_out_by_hand(
    rt: HostRuntime,
) -> Result<(), Fail> {
    let alloc = rt.alloc();
    let circuit = circuit_of(alloc, TAUTOLOGY)?;
    let worked: [&[i64]; 8] = [
        &[1],
        &[0, 1],
        &[0, 1, 0, 0, 1, 0],
        &[1, 3],
        &[0, 2, -1],
        &[4, 4],
        &[1, -1, 1],
        &[5, -4],
    ];
    assert_talk(&rt, alloc, &circuit, &[3, 4, 5], worked.as_slice())
}
