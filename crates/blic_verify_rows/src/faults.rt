// Calls that fail: of links, of the dialer, of the output and of the entropy.
use crate::frames::{FORMULA, asks, conversation, record, replies};
use crate::running::{dialer_of, lines_of, link_of, sent_over, sink, status_of, words_of};
use blic_basic::{MemEntropy, MemSink, NoWatch, SureFiles};
use blic_link::{Dialer, MemDialer};
use blic_top::run;
use std::alloc::Global;
use std::process::Abort;
use std::test::Fail;

// A dialer of three links, over which the honest replies of three conversations come in sevens. The calls of these numbers of the first
// link fail, and the dials of those numbers.
fn honest(alloc: Global, calls: Vec<u64>, dials: Vec<u64>) -> Result<MemDialer, Fail> {
    let mut links = Vec::new(alloc);
    links.push(link_of(alloc, replies(alloc, conversation(0), 0)?, 7, calls)?)?;
    for number in 1..3 {
        let coming = replies(alloc, conversation(number), 0)?;
        links.push(link_of(alloc, coming, 7, Vec::new(alloc))?)?;
    }
    dialer_of(alloc, links, dials)
}

// The lines of the first conversation and its answer.
fn faultless(alloc: Global) -> Result<Vec<u8>, Fail> {
    let mut text = record(alloc, conversation(0))?;
    text.extend_from_slice(b"s cnf 1 2 2\nruns 1\ndraws 7\nbad 20\n")?;
    Ok(text)
}

fn is_front(front: &[u8], whole: &[u8]) -> bool {
    whole.starts_with(front)
}

// The lines before the last ones of a run whose link failed.
fn lines_before<'t>(text: &'t [u8], last: &[u8]) -> Option<&'t [u8]> {
    text.strip_suffix(last)
}

// With a link of which this call fails: whether it was called so often.
fn fails_at(rt: &impl Abort, alloc: Global, call: u64) -> Result<bool, Fail> {
    let mut calls = Vec::new(alloc);
    calls.push(call)?;
    let mut dialer = honest(alloc, calls, Vec::new(alloc))?;
    let mut out = sink(alloc, Vec::new(alloc))?;
    let got = status_of(alloc, "verify f a --talk", FORMULA, &mut dialer, &mut out)?;
    let sent = sent_over(alloc, &dialer, 0)?;
    let wanted = asks(alloc, conversation(0), 14)?;
    assert!(rt; is_front(sent.as_slice(), wanted.as_slice()), "{call}");
    let lines = record(alloc, conversation(0))?;
    // All but Bye has 159 bytes: a fault of Bye changes nothing.
    let (status, last): (u8, &[u8]) = if sent.len() >= 159 && got == 10 {
        (10, b"s cnf 1 2 2\nruns 1\ndraws 7\nbad 20\n")
    } else {
        (5, b"c link fault\n")
    };
    assert_eq!(rt; got, status, "{call}");
    let before = lines_before(out.bytes(), last).ok_or("a last line")?;
    assert!(rt; is_front(before, lines.as_slice()), "{call}");
    Ok(dialer.faults() > 0)
}

#[test]
fn a_call_of_the_link_that_fails_ends_the_run(rt: HostRuntime) -> Result<(), Fail> {
    for call in 0..1000 {
        if !fails_at(&rt, rt.alloc(), call)? {
            assert!(rt; call > 80);
            return Ok(());
        }
    }
    Err(Fail::from("some call always fails"))
}

#[test]
fn a_dial_that_fails_ends_the_run(rt: HostRuntime) -> Result<(), Fail> {
    let alloc = rt.alloc();
    for (dial, status, line) in [
        (0, 5, "c link fault/"),
        (1, 5, "c link fault/"),
        (2, 5, "c link fault/"),
        (3, 10, "s cnf 1 2 2/runs 3/draws 7/bad 20/"),
    ] {
        let mut dials = Vec::new(alloc);
        dials.push(dial)?;
        let mut dialer = honest(alloc, Vec::new(alloc), dials)?;
        let mut out = sink(alloc, Vec::new(alloc))?;
        let words = "verify f a --repeat 3";
        let got = status_of(alloc, words, FORMULA, &mut dialer, &mut out)?;
        assert_eq!(rt; got, status, "{dial}");
        assert_eq!(rt; out.bytes(), lines_of(alloc, line)?.as_slice());
        assert_eq!(rt; dialer.entries() as u64, dial.min(3));
        assert!(rt; !dialer.lent());
    }
    Ok(())
}

#[test]
fn an_output_that_fails_has_a_front_of_the_lines(rt: HostRuntime) -> Result<(), Fail> {
    let alloc = rt.alloc();
    let whole = faultless(alloc)?;
    for room in [0, 1, 90, 91, 92, 500, 1_000] {
        let mut dialer = honest(alloc, Vec::new(alloc), Vec::new(alloc))?;
        let mut out = MemSink::new(alloc, 7, Vec::new(alloc), room).map_err(|_| "memory")?;
        let got = status_of(alloc, "verify f a --talk", FORMULA, &mut dialer, &mut out)?;
        assert_eq!(rt; got, 4, "{room}");
        assert_eq!(rt; out.bytes().len(), room);
        assert!(rt; is_front(out.bytes(), whole.as_slice()), "{room}");
        assert_eq!(rt; dialer.entries(), 1);
    }
    Ok(())
}

#[test]
fn where_no_seed_comes_nothing_is_dialed(rt: HostRuntime) -> Result<(), Fail> {
    let alloc = rt.alloc();
    let text = lines_of(alloc, FORMULA)?;
    let seed = "0000000000000000000000000000000000000000000000000000000000000000";
    for (given, status, links) in [("", 11, 0), (seed, 10, 1)] {
        let mut words = String::from_str(alloc, "verify f a")?;
        if !given.is_empty() {
            words.push_str(" --seed ")?;
            words.push_str(given)?;
        }
        let mut dialer = honest(alloc, Vec::new(alloc), Vec::new(alloc))?;
        let mut out = sink(alloc, Vec::new(alloc))?;
        if dialer.lent() {
            return Err(Fail::from("a link is lent"));
        }
        let got = run(
            alloc,
            &words_of(alloc, words.as_str())?,
            &mut SureFiles::new(text.as_slice()),
            &mut dialer,
            &mut MemEntropy::new(Vec::new(alloc), Vec::new(alloc)),
            &mut NoWatch::new(),
            &mut out,
        );
        assert_eq!(rt; got, status);
        assert_eq!(rt; dialer.entries(), links);
    }
    Ok(())
}
