// The problems of files, and why there is none.
use crate::{Problem, SolveLimits, Stop, seed_of};
use blic_basic::{MemSink, Sink, SureEntropy, SureFiles};
use std::alloc::{AllocError, Global};
use std::fmt::Write;
use std::process::Abort;
use std::test::Fail;

// The text in which a slash stands for the end of a line.
fn lines_of(alloc: Global, text: &str) -> Result<Vec<u8>, AllocError> {
    let mut bytes = Vec::new(alloc);
    for byte in text.as_bytes() {
        bytes.push(match *byte {
            b'/' => b'\n',
            byte => byte,
        })?;
    }
    Ok(bytes)
}

// The truth of a file's formula, its numbers, and how its digest begins.
fn told(
    alloc: Global,
    problem: &Problem,
    limits: SolveLimits,
) -> Result<Result<String, Stop>, Fail> {
    let truth = match problem.solve(alloc, limits) {
        Ok(truth) => truth,
        Err(stop) => return Ok(Err(stop)),
    };
    let hello = problem.hello(alloc).map_err(|_| "memory")?;
    let digest = hello.digest;
    let first = digest[0];
    let last = digest[31];
    let (vars, clauses) = (problem.vars(), problem.clauses());
    let (wire, circuit, order) = (hello.wire, hello.circuit, hello.order);
    let mut text = String::new(alloc);
    write!(
        text,
        "{truth} {vars} {clauses} {first} {last} {wire} {circuit} {order}/"
    )?;
    Ok(Ok(text))
}

// Asserts what is had of the file, or the status and the line that say why there is nothing.
fn assert_row(
    rt: &impl Abort,
    alloc: Global,
    file: &str,
    limits: SolveLimits,
    status: u8,
    line: &str,
) -> Result<(), Fail> {
    let bytes = lines_of(alloc, file)?;
    let mut files = SureFiles::new(&bytes);
    let had = match Problem::of_file(alloc, "f", &mut files) {
        Ok(problem) => told(alloc, &problem, limits)?,
        Err(stop) => Err(stop),
    };
    let wanted = lines_of(alloc, line)?;
    match had {
        Ok(text) => {
            assert_eq!(rt; status, 0, "{file}");
            assert_eq!(rt;
                lines_of(alloc, &text)?.as_slice(),
                wanted.as_slice(),
                "{file}"
            );
        }
        Err(stop) => {
            let mut out = MemSink::new(alloc, 7, Vec::new(alloc), 100).map_err(|_| "memory")?;
            stop.print(&mut out).map_err(|_| "a write fault")?;
            assert_eq!(rt; stop.status(), status, "{file}");
            assert_eq!(rt; out.bytes(), wanted.as_slice(), "{file}");
        }
    }
    Ok(())
}

fn within(nodes: u32, pairs: u32) -> SolveLimits {
    SolveLimits { nodes, pairs }
}

#[test]
fn files_give_problems_or_stops(rt: HostRuntime) -> Result<(), Fail> {
    let alloc = rt.alloc();
    let differs = "p cnf 2 2/a 1 0/e 2 0/1 2 0/-1 -2 0/";
    let ample = within(100, 100);
    let few_nodes = within(3, 100);
    let few_pairs = within(100, 1);
    assert_row(&rt, alloc, "p cnf 0 0/", ample, 0, "true 0 0 225 50 1 1 0/")?;
    assert_row(&rt, alloc, differs, ample, 0, "true 2 2 126 32 1 1 0/")?;
    assert_row(
        &rt,
        alloc,
        "p cnf 1 1/0/",
        ample,
        0,
        "false 1 1 243 11 1 1 0/",
    )?;
    assert_row(&rt, alloc, differs, few_nodes, 8, "c limit nodes at 3/")?;
    assert_row(&rt, alloc, differs, few_pairs, 8, "c limit pairs at 5/")?;
    assert_row(&rt, alloc, "", ample, 2, "c refused NoProblemLine line 0/")?;
    assert_row(
        &rt,
        alloc,
        "p cnf 1 1/1 /",
        ample,
        2,
        "c refused Unended line 2/",
    )?;
    assert_row(
        &rt,
        alloc,
        "c x/p cnf 1 1/2 0/",
        ample,
        2,
        "c refused VariableTooLarge line 3/",
    )
}

#[test]
fn a_given_seed_comes_before_the_next_one(rt: HostRuntime) {
    let mut entropy = SureEntropy::new([7; 32]);
    assert_eq!(rt; seed_of(Some([5; 32]), &mut entropy), Ok([5; 32]));
    assert_eq!(rt; seed_of(None, &mut entropy), Ok([7; 32]));
}
