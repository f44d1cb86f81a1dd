// Lies that a bad draw lets pass, and conversations one after another.
use crate::frames::{FORMULA, asks, conversation, lie, lying_replies, push_hex, replies, reply_in};
use crate::running::{
    assert_ends, dialer_of, lines_of, link_of, sent_over, sink, status_of, words_of,
};
use blic_basic::{Bend, BendWatch, SureEntropy, SureFiles};
use blic_link::Dialer;
use blic_top::run;
use std::alloc::Global;
use std::process::Abort;
use std::test::Fail;

const SEED: &str = "0000000000000000000000000000000000000000000000000000000000000000";

const TRUE_ONCE: &str = "s cnf 1 2 2/runs 1/draws 7/bad 20/";

const FALSE_ONCE: &str = "s cnf 0 2 2/runs 1/draws 7/bad 20/";

const TRUE_TWICE: &str = "s cnf 1 2 2/runs 2/draws 7/bad 20/";

// Verifies with the seed of zeros over links on which these replies come, and asserts the status and the lines, and that so many links
// were hung up.
fn assert_over(
    rt: &impl Abort,
    alloc: Global,
    options: &str,
    comings: &[Vec<u8>],
    used: u32,
    end: (u8, &str),
) -> Result<(), Fail> {
    for most in [1, 7, 4_000_000] {
        let mut links = Vec::new(alloc);
        for coming in comings {
            links.push(link_of(alloc, coming.to_vec(alloc)?, most, Vec::new(alloc))?)?;
        }
        let mut dialer = dialer_of(alloc, links, Vec::new(alloc))?;
        let mut out = sink(alloc, Vec::new(alloc))?;
        let mut words = String::from_str(alloc, "verify f a --seed ")?;
        words.push_str(SEED)?;
        words.push_str(options)?;
        let got = status_of(alloc, words.as_str(), FORMULA, &mut dialer, &mut out)?;
        assert_ends(rt, alloc, (got, &out), end.0, end.1)?;
        assert_eq!(rt; dialer.entries(), used);
    }
    Ok(())
}

#[test]
fn a_bad_draw_lets_a_lie_pass(rt: HostRuntime) -> Result<(), Fail> {
    let alloc = rt.alloc();
    let honest = replies(alloc, conversation(0), 0)?;
    assert_over(&rt, alloc, "", &[honest], 1, (10, TRUE_ONCE))?;
    let lying = lying_replies(alloc, 0)?;
    assert_over(&rt, alloc, "", &[lying], 1, (20, FALSE_ONCE))
}

#[test]
fn the_second_conversation_has_draws_of_its_own(rt: HostRuntime) -> Result<(), Fail> {
    let alloc = rt.alloc();
    let first = replies(alloc, conversation(0), 0)?;
    let second = replies(alloc, conversation(1), 0)?;
    let both = [first, second];
    assert_over(&rt, alloc, " --repeat 2", &both, 2, (10, TRUE_TWICE))?;
    let first = replies(alloc, conversation(0), 0)?;
    let again = [first, replies(alloc, conversation(0), 0)?];
    let line = "c rejected node 9 combine/";
    assert_over(&rt, alloc, " --repeat 2", &again, 2, (6, line))
}

#[test]
fn another_answer_than_the_first_is_told(rt: HostRuntime) -> Result<(), Fail> {
    let alloc = rt.alloc();
    let first = replies(alloc, conversation(0), 0)?;
    let both = [first, lying_replies(alloc, 1)?];
    assert_over(&rt, alloc, " --repeat 2", &both, 2, (15, "c runs differ/"))?;
    let first = replies(alloc, conversation(0), 0)?;
    assert_over(&rt, alloc, " --repeat 2", &[first], 1, (5, "c link fault/"))
}

#[test]
fn each_conversation_sends_its_own_asks(rt: HostRuntime) -> Result<(), Fail> {
    let alloc = rt.alloc();
    let mut links = Vec::new(alloc);
    for number in 0..3 {
        let coming = replies(alloc, conversation(number), 0)?;
        links.push(link_of(alloc, coming, 7, Vec::new(alloc))?)?;
    }
    let mut dialer = dialer_of(alloc, links, Vec::new(alloc))?;
    let mut out = sink(alloc, Vec::new(alloc))?;
    let words = "verify f a --repeat 3";
    let got = status_of(alloc, words, FORMULA, &mut dialer, &mut out)?;
    assert_ends(
        &rt,
        alloc,
        (got, &out),
        10,
        "s cnf 1 2 2/runs 3/draws 7/bad 20/",
    )?;
    for number in 0..3 {
        let sent = sent_over(alloc, &dialer, number)?;
        let wanted = asks(alloc, conversation(number), 14)?;
        assert_eq!(rt; sent.as_slice(), wanted.as_slice());
    }
    Ok(())
}

// The bytes that make the first honest replies of the second conversation those of the liar. It has the replies from number 13 on.
fn bends(alloc: Global) -> Result<Vec<Bend>, Fail> {
    let mut bends = Vec::new(alloc);
    for (i, digits) in lie(1).lines().enumerate() {
        let mut lying = Vec::new(alloc);
        push_hex(alloc, &mut lying, digits)?;
        let mut honest = Vec::new(alloc);
        let line = conversation(1).lines().nth(i).ok_or("a reply")?;
        push_hex(alloc, &mut honest, reply_in(line))?;
        for (place, (byte, other)) in lying.iter().zip(honest.iter()).enumerate() {
            if byte != other {
                bends.push(Bend {
                    reply: 13 + i as u64,
                    place: place as u64,
                    byte: *byte,
                })?;
            }
        }
    }
    Ok(bends)
}

#[test]
fn a_watch_that_lies_in_the_second_conversation_is_told(rt: HostRuntime) -> Result<(), Fail> {
    let alloc = rt.alloc();
    let text = lines_of(alloc, FORMULA)?;
    let mut words = String::from_str(alloc, "certify f --repeat 2 --seed ")?;
    words.push_str(SEED)?;
    let mut watch = BendWatch::new(alloc, bends(alloc)?);
    let mut out = sink(alloc, Vec::new(alloc))?;
    let mut dialer = dialer_of(alloc, Vec::new(alloc), Vec::new(alloc))?;
    if dialer.lent() {
        return Err(Fail::from("a link is lent"));
    }
    let got = run(
        alloc,
        &words_of(alloc, words.as_str())?,
        &mut SureFiles::new(text.as_slice()),
        &mut dialer,
        &mut SureEntropy::new([7; 32]),
        &mut watch,
        &mut out,
    );
    assert_ends(&rt, alloc, (got, &out), 15, "c runs differ/")
}
