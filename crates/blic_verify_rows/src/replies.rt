// What the bytes that a server sends come to, in pieces of any length.
use crate::frames::{FORMULA, asks, conversation, push_hex, replies};
use crate::running::{assert_ends, dialer_of, link_of, sent_over, sink, status_of};
use blic_link::MemLink;
use std::alloc::Global;
use std::process::Abort;
use std::test::Fail;

// Single bytes, sevens, and all at once.
const PIECES: [usize; 3] = [1, 7, 4_000_000];

// The answer 1, and the values 1 and 1.
const TWO: &str = "000000018101000000108300000000000000010000000000000001";

// Verifies over the link, and asserts the status, what is printed, and that the first `asked` asks are sent and nothing else.
fn assert_over(
    rt: &impl Abort,
    alloc: Global,
    link: MemLink,
    asked: usize,
    end: (u8, &str),
) -> Result<(), Fail> {
    let links = vec![in alloc; link]?;
    let mut dialer = dialer_of(alloc, links, Vec::new(alloc))?;
    let mut out = sink(alloc, Vec::new(alloc))?;
    let got = status_of(alloc, "verify f a", FORMULA, &mut dialer, &mut out)?;
    assert_ends(rt, alloc, (got, &out), end.0, end.1)?;
    assert_eq!(rt; dialer.entries(), 1);
    let sent = sent_over(alloc, &dialer, 0)?;
    let wanted = asks(alloc, conversation(0), asked)?;
    assert_eq!(rt; sent.as_slice(), wanted.as_slice(), "{}", end.1);
    Ok(())
}

// That for each length of the pieces in which the bytes come.
fn assert_comes_to(
    rt: &impl Abort,
    alloc: Global,
    coming: &[u8],
    asked: usize,
    end: (u8, &str),
) -> Result<(), Fail> {
    for most in PIECES {
        let link = link_of(alloc, coming.to_vec(alloc)?, most, Vec::new(alloc))?;
        assert_over(rt, alloc, link, asked, end)?;
    }
    Ok(())
}

// Rows of bytes, how many asks are sent, the status and the line, with a bar between them. The bytes come after `before`.
fn assert_rows(rt: &impl Abort, alloc: Global, before: &str, rows: &str) -> Result<(), Fail> {
    for row in rows.lines() {
        let (digits, rest) = row.split_once('|').ok_or("bytes and more")?;
        let (asked, rest) = rest.split_once('|').ok_or("a count and more")?;
        let (status, line) = rest.split_once('|').ok_or("a status and a line")?;
        let asked = asked.parse::<usize>().map_err(|_| "a count")?;
        let status = status.parse::<u8>().map_err(|_| "a status")?;
        let mut coming = Vec::new(alloc);
        push_hex(alloc, &mut coming, before)?;
        push_hex(alloc, &mut coming, digits)?;
        assert_comes_to(rt, alloc, coming.as_slice(), asked, (status, line))?;
    }
    Ok(())
}

fn rows_after_two() -> &'static str {
    "000000188200000000000000011ffffffffffffffe0000000000000001|3|6|c rejected count turn 2 want 2 got 1/
000000108300000000000000010000000000000001|3|6|c rejected kind turn 2/
000000308200000000000000011ffffffffffffffe000000000000000100000000000000021ffffffffffffffe0000000000000001|3|6|c rejected node 9 poly 0 claim 1/
00000030821fffffffffffffff|3|13|c not a frame/
0000002082|3|13|c not a frame/
0018001882|3|13|c not a frame/
|3|12|c link cut/
000000|3|12|c link cut/
000000108300000000|3|12|c link cut/
0018000082|3|12|c link cut/
000000018401|3|7|c server refused OutOfTurn/
000000018402|3|7|c server refused NothingLeft/
000000018404|3|7|c server refused Broken/"
}

#[test]
fn what_a_server_sends_after_two_replies_decides(rt: HostRuntime) -> Result<(), Fail> {
    assert_rows(&rt, rt.alloc(), TWO, rows_after_two())
}

fn rows_from_the_start() -> &'static str {
    "000000018100000000108300000000000000010000000000000001|2|6|c rejected node 12 combine/
000000018102|1|13|c not a frame/
000000278403000100020003000102030405060708090a0b0c0d0e0f101112131415161718191a1b1c1d1e1f|1|7|c server refused NotServed ours 1 1 0 7ed887f54758e37830871385fe974ba5602196aeedd06bd5fcca66805ae36020 theirs 1 2 3 000102030405060708090a0b0c0d0e0f101112131415161718191a1b1c1d1e1f/"
}

#[test]
fn what_a_server_sends_first_decides(rt: HostRuntime) -> Result<(), Fail> {
    assert_rows(&rt, rt.alloc(), "", rows_from_the_start())
}

const CERTIFIED: &str = "s cnf 1 2 2/runs 1/draws 7/bad 20/";

#[test]
fn honest_replies_are_certified_and_what_follows_is_not_read(rt: HostRuntime) -> Result<(), Fail> {
    let alloc = rt.alloc();
    let mut coming = replies(alloc, conversation(0), 0)?;
    assert_eq!(rt; asks(alloc, conversation(0), 14)?.len(), 164);
    assert_comes_to(&rt, alloc, coming.as_slice(), 14, (10, CERTIFIED))?;
    push_hex(alloc, &mut coming, "ffffffffff")?;
    assert_comes_to(&rt, alloc, coming.as_slice(), 14, (10, CERTIFIED))
}

#[test]
fn the_longest_reply_is_counted(rt: HostRuntime) -> Result<(), Fail> {
    let alloc = rt.alloc();
    let mut polynomial = Vec::new(alloc);
    push_hex(
        alloc,
        &mut polynomial,
        "00000000000000011ffffffffffffffe0000000000000001",
    )?;
    let mut coming = Vec::new(alloc);
    push_hex(alloc, &mut coming, TWO)?;
    push_hex(alloc, &mut coming, "0018000082")?;
    for _ in 0..65_536 {
        coming.extend_from_slice(polynomial.as_slice())?;
    }
    let line = "c rejected count turn 2 want 2 got 65536/";
    assert_comes_to(&rt, alloc, coming.as_slice(), 3, (6, line))
}

#[test]
fn what_follows_broken_bytes_is_not_read(rt: HostRuntime) -> Result<(), Fail> {
    let alloc = rt.alloc();
    let mut coming = Vec::new(alloc);
    push_hex(alloc, &mut coming, TWO)?;
    for _ in 0..1_000_005 {
        coming.push(255)?;
    }
    assert_comes_to(&rt, alloc, coming.as_slice(), 3, (13, "c not a frame/"))
}

#[test]
fn a_failing_receive_is_a_fault_of_the_link(rt: HostRuntime) -> Result<(), Fail> {
    let alloc = rt.alloc();
    for most in PIECES {
        let mut coming = Vec::new(alloc);
        push_hex(alloc, &mut coming, TWO)?;
        // The link has room for two replies and three asks, and then fails.
        let link = MemLink::new(alloc, coming, most, Vec::new(alloc), 27 + 53).map_err(
            |_| "memory",
        )?;
        assert_over(&rt, alloc, link, 3, (5, "c link fault/"))?;
    }
    Ok(())
}

#[test]
fn a_dial_that_finds_no_link_is_a_fault_of_the_link(rt: HostRuntime) -> Result<(), Fail> {
    let alloc = rt.alloc();
    let mut dialer = dialer_of(alloc, Vec::new(alloc), Vec::new(alloc))?;
    let mut out = sink(alloc, Vec::new(alloc))?;
    let got = status_of(alloc, "verify f a", FORMULA, &mut dialer, &mut out)?;
    assert_ends(&rt, alloc, (got, &out), 5, "c link fault/")?;
    assert_eq!(rt; dialer.missed(), 1);
    Ok(())
}
