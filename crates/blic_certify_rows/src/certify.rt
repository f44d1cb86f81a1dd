// What `certify` answers, prints and shows.
use crate::running::{assert_runs, lines_of, no_links, sink, words_of};
use blic_basic::{
    Bend, BendWatch, MemEntropy, MemSink, MemWatch, NoWatch, SureEntropy, SureFiles, Watch,
};
use blic_top::run;
use std::alloc::{AllocError, Global};
use std::process::Abort;
use std::test::Fail;

#[test]
fn the_limits_of_solving_hold_for_certifying(rt: HostRuntime) -> Result<(), Fail> {
    let alloc = rt.alloc();
    let text = lines_of(alloc, "p cnf 2 2/a 1 0/e 2 0/1 2 0/-1 -2 0/")?;
    for (options, status, lines) in [
        (
            "--nodes 7 --pairs 4",
            10,
            "s cnf 1 2 2/runs 1/draws 7/bad 20/",
        ),
        ("--nodes 6", 8, "c limit nodes at 6/"),
        ("--pairs 3", 8, "c limit pairs at 9/"),
    ] {
        assert_runs(
            &rt,
            alloc,
            "certify f",
            options,
            text.as_slice(),
            status,
            lines,
        )?;
    }
    Ok(())
}

#[test]
fn a_certified_answer_comes_with_its_numbers(rt: HostRuntime) -> Result<(), Fail> {
    for (file, status, lines) in [
        (
            "p cnf 2 2/a 1 0/e 2 0/1 2 0/-1 -2 0/",
            10,
            "s cnf 1 2 2/runs 1/draws 7/bad 20/",
        ),
        (
            "p cnf 2 2/e 2 0/a 1 0/1 2 0/-1 -2 0/",
            20,
            "s cnf 0 2 2/runs 1/draws 7/bad 20/",
        ),
        ("p cnf 0 0/", 10, "s cnf 1 0 0/runs 1/draws 0/bad 0/"),
        ("p cnf 1 1/0/", 20, "s cnf 0 1 1/runs 1/draws 0/bad 0/"),
        (
            "p cnf 1 2/e 1 0/1 -1 0/1 1 0/",
            10,
            "s cnf 1 1 2/runs 1/draws 3/bad 8/",
        ),
        (
            "p cnf 2 1%/e 1 2 0%/1%/c middle%/2 0%/",
            10,
            "s cnf 1 2 1/runs 1/draws 3/bad 12/",
        ),
        (
            "p cnf 4 2/e 1 2 3 4 0/1 2 0/3 4 0/",
            10,
            "s cnf 1 4 2/runs 1/draws 14/bad 48/",
        ),
        (
            "p cnf 6 9/1 2 0/3 4 0/5 6 0/-1 -3 0/-1 -5 0/-3 -5 0/-2 -4 0/-2 -6 0/-4 -6 0/",
            20,
            "s cnf 0 6 9/runs 1/draws 70/bad 182/",
        ),
        ("p cnf 1 1/1 x 0/", 2, "c refused BadToken line 2/"),
    ] {
        let alloc = rt.alloc();
        let text = lines_of(alloc, file)?;
        assert_runs(&rt, alloc, "certify f", "", text.as_slice(), status, lines)?;
    }
    Ok(())
}

const UNIT: &str = "p cnf 1 1/e 1 0/1 0/";

// The frames of the conversation about one unit clause, as they are printed.
const UNIT_TALK: &str = "> 0000002601000100010000\
    19c093b901df91f40f515cc7134e7ed67fcffecb3edd7d0c61a513ac4f5f1354/\
    < 000000018101/> 0000000002/< 000000108300000000000000000000000000000001/> 0000000005/";

// Certifies the unit clause over the watch, and asserts the status and what is printed.
fn assert_watched<W: Watch>(
    rt: &impl Abort,
    alloc: Global,
    options: &str,
    watch: &mut W,
    status: u8,
    lines: &str,
) -> Result<(), Fail> {
    let mut words = words_of(alloc, "certify f")?;
    words.append(&mut words_of(alloc, options)?)?;
    let mut out = sink(alloc, Vec::new(alloc), 1000)?;
    let text = lines_of(alloc, UNIT)?;
    let mut entropy = SureEntropy::new([7; 32]);
    let got = run(
        alloc,
        &words,
        &mut SureFiles::new(text.as_slice()),
        &mut no_links(alloc)?,
        &mut entropy,
        watch,
        &mut out,
    );
    assert_eq!(rt; got, status, "{lines}");
    assert_eq!(rt; out.bytes(), lines_of(alloc, lines)?.as_slice());
    Ok(())
}

const UNIT_NUMBERS: &str = "s cnf 1 1 1/runs 1/draws 0/bad 0/";

#[test]
fn with_talk_each_frame_is_a_line(rt: HostRuntime) -> Result<(), Fail> {
    let alloc = rt.alloc();
    let mut lines = String::from_str(alloc, UNIT_TALK)?;
    lines.push_str(UNIT_NUMBERS)?;
    let mut watch = MemWatch::new(alloc);
    assert_watched(&rt, alloc, "--talk", &mut watch, 10, lines.as_str())?;
    assert!(rt; watch.whole());
    assert_eq!(rt; watch.frames(), 5);
    let mut silent = MemWatch::new(alloc);
    assert_watched(&rt, alloc, "", &mut silent, 10, UNIT_NUMBERS)?;
    assert_eq!(rt; silent.frames(), 5);
    for i in 0..5 {
        if i < watch.frames() && i < silent.frames() {
            assert_eq!(rt; watch.frame(i), silent.frame(i));
        }
    }
    Ok(())
}

#[test]
fn a_reply_is_judged_as_the_watch_left_it(rt: HostRuntime) -> Result<(), Fail> {
    let alloc = rt.alloc();
    for (byte, status, line) in [
        (0, 6, "c rejected node 3 combine/"),
        (2, 13, "c not a frame/"),
        (1, 10, UNIT_NUMBERS),
    ] {
        let bend = Bend {
            reply: 0,
            place: 5,
            byte,
        };
        let mut watch = BendWatch::new(alloc, vec![in alloc; bend]?);
        assert_watched(&rt, alloc, "", &mut watch, status, line)?;
    }
    Ok(())
}

// The line of a frame: that of an ask, or of a reply.
fn push_line(
    alloc: Global,
    lines: &mut Vec<u8>,
    is_ask: bool,
    frame: &[u8],
) -> Result<(), AllocError> {
    let hex = hex::encode(alloc, frame)?;
    lines.extend_from_slice(if is_ask { b"> " } else { b"< " })?;
    lines.extend_from_slice(hex.as_bytes())?;
    lines.push(b'\n')?;
    Ok(())
}

#[test]
fn a_reply_that_is_no_frame_has_no_line(rt: HostRuntime) -> Result<(), Fail> {
    let alloc = rt.alloc();
    let text = lines_of(alloc, "p cnf 2 2/a 1 0/e 2 0/1 2 0/-1 -2 0/")?;
    for reply in 0..13 {
        // No answer is 255, and no element begins with it.
        let bend = Bend {
            reply,
            place: 5,
            byte: 255,
        };
        let mut watch = BendWatch::new(alloc, vec![in alloc; bend]?);
        let mut out = MemSink::new(alloc, 7, Vec::new(alloc), 10_000).map_err(|_| "memory")?;
        let got = run(
            alloc,
            &words_of(alloc, "certify f --talk")?,
            &mut SureFiles::new(text.as_slice()),
            &mut no_links(alloc)?,
            &mut SureEntropy::new([7; 32]),
            &mut watch,
            &mut out,
        );
        assert_eq!(rt; got, 13);
        assert_eq!(rt; watch.frames() as u64, 2 * reply + 2);
        let mut lines = Vec::new(alloc);
        for i in 0..watch.frames() {
            if (i as u64) < 2 * reply + 1 {
                push_line(alloc, &mut lines, i % 2 == 0, watch.frame(i))?;
            }
        }
        lines.extend_from_slice(b"c not a frame\n")?;
        assert_eq!(rt; out.bytes(), lines.as_slice());
    }
    Ok(())
}

#[test]
fn the_seed_is_that_of_the_words_or_of_the_entropy(rt: HostRuntime) -> Result<(), Fail> {
    let alloc = rt.alloc();
    let seed = "certify f --seed 00112233445566778899aabbccddeeff00112233445566778899AABBCCDDEEFF";
    for (words, status, line) in [
        ("certify f", 11, "c entropy fault/"),
        (seed, 10, "s cnf 1 2 2/runs 1/draws 7/bad 20/"),
    ] {
        let words = words_of(alloc, words)?;
        let mut out = sink(alloc, Vec::new(alloc), 100)?;
        let text = lines_of(alloc, "p cnf 2 2/a 1 0/e 2 0/1 2 0/-1 -2 0/")?;
        let mut entropy = MemEntropy::new(Vec::new(alloc), Vec::new(alloc));
        let mut watch = NoWatch::new();
        let mut files = SureFiles::new(text.as_slice());
        let got = run(
            alloc,
            &words,
            &mut files,
            &mut no_links(alloc)?,
            &mut entropy,
            &mut watch,
            &mut out,
        );
        assert_eq!(rt; got, status);
        assert_eq!(rt; out.bytes(), lines_of(alloc, line)?.as_slice());
    }
    Ok(())
}
