// What `solve` answers and prints, and that trying all values gives the same.
use crate::running::{assert_runs, lines_of};
use blic_basic::SureSource;
use blic_cases::by_cases;
use blic_qdimacs::read;
use std::alloc::{AllocError, Global};
use std::fmt::Write;
use std::process::Abort;
use std::test::Fail;

fn assert_solves(
    rt: &impl Abort,
    alloc: Global,
    options: &str,
    file: &[u8],
    status: u8,
    line: &str,
) -> Result<(), Fail> {
    assert_runs(rt, alloc, "solve f", options, file, status, line)
}

// The status of the formula's truth by trying all values, if it is one of few variables.
fn status_by_cases(alloc: Global, file: &[u8]) -> Result<Option<u8>, Fail> {
    match read(alloc, &mut SureSource::new(file)) {
        Ok(formula) if formula.prefix().len() <= 20 => {
            let answer = by_cases(alloc, &formula).map_err(|_| "memory")?;
            Ok(Some(if answer { 10 } else { 20 }))
        }
        _ => Ok(None),
    }
}

// Rows of options, a file, its status and its line, with a bar between them. If the answer is a
// truth, trying all values gives the same one.
fn assert_rows(rt: &impl Abort, alloc: Global, rows: &str) -> Result<(), Fail> {
    for row in rows.lines() {
        let (options, rest) = row.split_once('|').ok_or("options and more")?;
        let (text, rest) = rest.split_once('|').ok_or("a file and more")?;
        let (status, line) = rest.split_once('|').ok_or("a status and a line")?;
        let status = status.parse::<u8>().map_err(|_| "a status")?;
        let file = lines_of(alloc, text)?;
        assert_solves(rt, alloc, options, file.as_slice(), status, line)?;
        if status >= 10 {
            let plain = status_by_cases(alloc, file.as_slice())?;
            assert_eq!(rt; plain.unwrap_or(status), status, "{text}");
        }
    }
    Ok(())
}

#[test]
fn a_file_that_spells_a_formula_gets_its_truth(rt: HostRuntime) -> Result<(), Fail> {
    assert_rows(
        &rt,
        rt.alloc(),
        "|p cnf 2 2/a 1 0/e 2 0/1 2 0/-1 -2 0/|10|s cnf 1 2 2/
|p cnf 2 2/e 2 0/a 1 0/1 2 0/-1 -2 0/|20|s cnf 0 2 2/
|p cnf 2 2/a 1 0/1 2 0/-1 -2 0/|20|s cnf 0 2 2/
|p cnf 2 2/a 1 2 0/-1 2 0/1 0/|20|s cnf 0 2 2/
|p cnf 3 1/a 1 0/e 2 0/a 3 0/1 -2 3 0/|10|s cnf 1 3 1/
|p cnf 1 0/|10|s cnf 1 1 0/
|p cnf 1 2/e 1 0/1 -1 0/1 1 0/|10|s cnf 1 1 2/
|p cnf 2 1%/e 1 2 0%/1%/c middle%/2 0%/|10|s cnf 1 2 1/
|cnf/p cnf 0 0/|10|s cnf 1 0 0/
|p cnf 1 1/0/|20|s cnf 0 1 1/
|p cnf 3 4/e 1 0/a 2 0/e 3 0/1 2 3 0/1 -2 -3 0/-1 2 -3 0/-1 -2 3 0/|10|s cnf 1 3 4/
|p cnf 3 4/a 1 0/e 2 0/a 3 0/1 2 3 0/1 -2 -3 0/-1 2 -3 0/-1 -2 3 0/|20|s cnf 0 3 4/
|p cnf 4 4/a 1 2 0/e 3 4 0/1 3 0/-1 -3 0/2 4 0/-2 -4 0/|10|s cnf 1 4 4/
|p cnf 4 4/a 1 0/e 4 0/a 2 0/e 3 0/1 3 0/-1 -3 0/2 4 0/-2 -4 0/|20|s cnf 0 4 4/
|p cnf 3 2/a 3 0/1 -3 0/2 3 0/|10|s cnf 1 3 2/
|p cnf 65535 0/|10|s cnf 1 65535 0/
|p cnf 21 1/e 1 2 3 4 5 6 7 8 9 10 11 12 13 14 15 16 17 18 19 20 21 0/1 0/|10|s cnf 1 21 1/
|p cnf 20 1/e 1 2 3 4 5 6 7 8 9 10 11 12 13 14 15 16 17 18 19 20 0/1 0/|10|s cnf 1 20 1/",
    )
}

#[test]
fn the_limits_of_solving_are_exact(rt: HostRuntime) -> Result<(), Fail> {
    assert_rows(
        &rt,
        rt.alloc(),
        "--nodes 7|p cnf 2 2/a 1 0/e 2 0/1 2 0/-1 -2 0/|10|s cnf 1 2 2/
--nodes 6|p cnf 2 2/a 1 0/e 2 0/1 2 0/-1 -2 0/|8|c limit nodes at 6/
--pairs 4|p cnf 2 2/a 1 0/e 2 0/1 2 0/-1 -2 0/|10|s cnf 1 2 2/
--pairs 3|p cnf 2 2/a 1 0/e 2 0/1 2 0/-1 -2 0/|8|c limit pairs at 9/
--nodes 6 --pairs 2|p cnf 2 2/a 1 0/e 2 0/1 2 0/-1 -2 0/|8|c limit pairs at 6/
--pairs 3 --nodes 6|p cnf 2 2/a 1 0/e 2 0/1 2 0/-1 -2 0/|8|c limit nodes at 6/
--pairs 9|p cnf 2 4/e 1 2 0/1 2 0/-1 -2 0/1 -2 0/-1 2 0/|20|s cnf 0 2 4/
--pairs 8|p cnf 2 4/e 1 2 0/1 2 0/-1 -2 0/1 -2 0/-1 2 0/|8|c limit pairs at 10/
--pairs 3|p cnf 2 2/e 1 2 0/1 2 0/1 2 0/|10|s cnf 1 2 2/
--pairs 2|p cnf 2 2/e 1 2 0/1 2 0/1 2 0/|8|c limit pairs at 3/
--nodes 3|p cnf 2 2/e 1 2 0/1 2 0/1 2 0/|10|s cnf 1 2 2/
--nodes 2|p cnf 2 2/e 1 2 0/1 2 0/1 2 0/|8|c limit nodes at 2/
--nodes 1 --pairs 1|p cnf 1 1/0/|20|s cnf 0 1 1/",
    )
}

// The smallest formulas of five families: equality, those of Kleine Büning, Karpinski and Flögel,
// quantified parity, three pigeons in two holes, and an adder of one bit.
#[test]
fn each_family_is_solved_right_at_its_limits_and_not_one_past_them(
    rt: HostRuntime,
) -> Result<(), Fail> {
    assert_rows(
        &rt,
        rt.alloc(),
        "--nodes 17 --pairs 12|p cnf 3 3/e 1 0/a 2 0/e 3 0/1 2 3 0/-1 -2 3 0/-3 0/|20|s cnf 0 3 3/
--nodes 16|p cnf 3 3/e 1 0/a 2 0/e 3 0/1 2 3 0/-1 -2 3 0/-3 0/|8|c limit nodes at 12/
--pairs 11|p cnf 3 3/e 1 0/a 2 0/e 3 0/1 2 3 0/-1 -2 3 0/-3 0/|8|c limit pairs at 17/
--nodes 41 --pairs 29|p cnf 5 6/e 1 2 3 0/a 4 0/e 5 0/-1 0/1 -2 -3 0/2 4 -5 0/3 -4 -5 0/4 5 0/-4 5 0/|20|s cnf 0 5 6/
--nodes 40|p cnf 5 6/e 1 2 3 0/a 4 0/e 5 0/-1 0/1 -2 -3 0/2 4 -5 0/3 -4 -5 0/4 5 0/-4 5 0/|8|c limit nodes at 27/
--pairs 28|p cnf 5 6/e 1 2 3 0/a 4 0/e 5 0/-1 0/1 -2 -3 0/2 4 -5 0/3 -4 -5 0/4 5 0/-4 5 0/|8|c limit pairs at 28/
--nodes 46 --pairs 41|p cnf 4 6/e 1 2 0/a 3 0/e 4 0/-4 1 2 0/-4 -1 -2 0/4 -1 2 0/4 1 -2 0/3 4 0/-3 -4 0/|20|s cnf 0 4 6/
--nodes 45|p cnf 4 6/e 1 2 0/a 3 0/e 4 0/-4 1 2 0/-4 -1 -2 0/4 -1 2 0/4 1 -2 0/3 4 0/-3 -4 0/|8|c limit nodes at 27/
--pairs 40|p cnf 4 6/e 1 2 0/a 3 0/e 4 0/-4 1 2 0/-4 -1 -2 0/4 -1 2 0/4 1 -2 0/3 4 0/-3 -4 0/|8|c limit pairs at 28/
--nodes 44 --pairs 47|p cnf 6 9/e 1 2 3 4 5 6 0/1 2 0/3 4 0/5 6 0/-1 -3 0/-1 -5 0/-3 -5 0/-2 -4 0/-2 -6 0/-4 -6 0/|20|s cnf 0 6 9/
--nodes 43|p cnf 6 9/e 1 2 3 4 5 6 0/1 2 0/3 4 0/5 6 0/-1 -3 0/-1 -5 0/-3 -5 0/-2 -4 0/-2 -6 0/-4 -6 0/|8|c limit nodes at 27/
--pairs 46|p cnf 6 9/e 1 2 3 4 5 6 0/1 2 0/3 4 0/5 6 0/-1 -3 0/-1 -5 0/-3 -5 0/-2 -4 0/-2 -6 0/-4 -6 0/|8|c limit pairs at 28/
--nodes 47 --pairs 42|p cnf 4 9/a 1 2 0/e 3 4 0/-3 1 2 0/-3 -1 -2 0/3 -1 2 0/3 1 -2 0/-4 1 0/-4 2 0/4 -1 -2 0/-4 4 0/4 -4 0/|10|s cnf 1 4 9/
--nodes 46|p cnf 4 9/a 1 2 0/e 3 4 0/-3 1 2 0/-3 -1 -2 0/3 -1 2 0/3 1 -2 0/-4 1 0/-4 2 0/4 -1 -2 0/-4 4 0/4 -4 0/|8|c limit nodes at 34/
--pairs 41|p cnf 4 9/a 1 2 0/e 3 4 0/-3 1 2 0/-3 -1 -2 0/3 -1 2 0/3 1 -2 0/-4 1 0/-4 2 0/4 -1 -2 0/-4 4 0/4 -4 0/|8|c limit pairs at 35/",
    )
}

#[test]
fn numbers_in_their_ranges_fit(rt: HostRuntime) -> Result<(), Fail> {
    assert_rows(
        &rt,
        rt.alloc(),
        "--nodes 0000000007|p cnf 2 2/a 1 0/e 2 0/1 2 0/-1 -2 0/|10|s cnf 1 2 2/
--nodes 0000000006|p cnf 2 2/a 1 0/e 2 0/1 2 0/-1 -2 0/|8|c limit nodes at 6/
--nodes=7 --pairs=4|p cnf 2 2/a 1 0/e 2 0/1 2 0/-1 -2 0/|10|s cnf 1 2 2/
--nodes 16777216 --pairs 33554432|p cnf 2 2/a 1 0/e 2 0/1 2 0/-1 -2 0/|10|s cnf 1 2 2/",
    )
}

#[test]
fn a_file_that_spells_none_gets_its_first_refusal(rt: HostRuntime) -> Result<(), Fail> {
    assert_rows(
        &rt,
        rt.alloc(),
        "||2|c refused NoProblemLine line 0/
|e 1 0/|2|c refused NoProblemLine line 1/
|p cnf 1/|2|c refused BadProblemLine line 1/
|p cnf 1 1%1 0|2|c refused BadProblemLine line 1/
|p cnf 1 1/1 x 0/|2|c refused BadToken line 2/
|p cnf 1 1/1 -0/|2|c refused BadToken line 2/
|p cnf 2 0/e -3 0/|2|c refused BadToken line 2/
|p cnf 1 1/1 0 c x/|2|c refused BadToken line 2/
|p cnf 1 1/2147483648 0/|2|c refused NumberTooLarge line 2/
|p cnf 2 0/e -2147483648 0/|2|c refused NumberTooLarge line 2/
|p cnf 65536 2147483648/|2|c refused NumberTooLarge line 1/
|p cnf 1 1/2 0/|2|c refused VariableTooLarge line 2/
|p cnf 2 1/e 1 2 0/a 1 0/1 0/|2|c refused BoundTwice line 3/
|p cnf 2 1/1 0/e 2 0/|2|c refused SetAfterClause line 3/
|p cnf 1 1/1 0/-1 0/|2|c refused TooManyClauses line 3/
|p cnf 1 1/0/0/|2|c refused TooManyClauses line 3/
|p cnf 1 2/1 0//c x/|2|c refused TooFewClauses line 2/
|p cnf 1 1/|2|c refused TooFewClauses line 1/
|p cnf 1 1/1/|2|c refused Unended line 2/
|p cnf 65536 0/|2|c refused TooManyVariables line 1/
|p cnf 1 1048577/|2|c refused ClauseLimit line 1/",
    )
}

// One clause of 6,000 literals.
fn long_clause(alloc: Global) -> Result<String, AllocError> {
    let mut set = String::from_str(alloc, "p cnf 6000 1\ne")?;
    let mut clause = String::new(alloc);
    for var in 1..6001 {
        write!(set, " {var}")?;
        write!(clause, "{var} ")?;
    }
    set.push_str(" 0\n")?;
    set.push_str(clause.as_str())?;
    set.push_str("0\n")?;
    Ok(set)
}

// 262,144 clauses of two literals over 600 variables, of which every other one is `1 2`.
fn one_clause_again_and_again(alloc: Global) -> Result<String, AllocError> {
    let mut text = String::from_str(alloc, "p cnf 600 262144\n")?;
    for k in 0..131_072u32 {
        let (first, second) = (k % 600 + 1, k / 600 + 3);
        write!(text, "1 2 0\n{first} {second} 0\n")?;
    }
    Ok(text)
}

#[test]
fn a_circuit_past_a_limit_is_refused_by_its_numbers(rt: HostRuntime) -> Result<(), Fail> {
    let alloc = rt.alloc();
    let points = long_clause(alloc)?;
    assert_solves(
        &rt,
        alloc,
        "",
        points.as_bytes(),
        8,
        "c limit points count 54002999/",
    )?;
    let claims = one_clause_again_and_again(alloc)?;
    assert_solves(
        &rt,
        alloc,
        "",
        claims.as_bytes(),
        8,
        "c limit claims at 2 count 131072/",
    )
}
