// Running the program over a file, links and an output in memory.
use blic_basic::{MemSink, NoWatch, SureEntropy, SureFiles};
use blic_link::{Dialer, MemDialer, MemLink};
use blic_top::run;
use std::alloc::{AllocError, Global};
use std::process::Abort;
use std::test::Fail;

pub(crate) fn words_of(alloc: Global, words: &str) -> Result<Vec<String>, AllocError> {
    let mut all = Vec::new(alloc);
    for word in words.split_whitespace() {
        all.push(String::from_str(alloc, word)?)?;
    }
    Ok(all)
}

/// The text in which a slash stands for the end of a line.
pub(crate) fn lines_of(alloc: Global, text: &str) -> Result<Vec<u8>, AllocError> {
    let mut bytes = Vec::new(alloc);
    for byte in text.as_bytes() {
        bytes.push(if *byte == b'/' { b'\n' } else { *byte })?;
    }
    Ok(bytes)
}

/// An output that takes seven bytes in a call, but for the calls of these numbers, which fail.
pub(crate) fn sink(alloc: Global, failing: Vec<u64>) -> Result<MemSink, Fail> {
    Ok(MemSink::new(alloc, 7, failing, 10_000).map_err(|_| "memory")?)
}

/// A link over which these bytes come, and over which at most `most` bytes pass in a call. The calls of these numbers fail.
pub(crate) fn link_of(
    alloc: Global,
    coming: Vec<u8>,
    most: usize,
    failing: Vec<u64>,
) -> Result<MemLink, Fail> {
    let room = coming.len().min(2_000_000) + 200;
    Ok(MemLink::new(alloc, coming, most.max(1), failing, room).map_err(|_| "memory")?)
}

/// A dialer of these links. The dials of these numbers fail.
pub(crate) fn dialer_of(
    alloc: Global,
    links: Vec<MemLink>,
    failing: Vec<u64>,
) -> Result<MemDialer, Fail> {
    if !MemDialer::fits(&links) {
        return Err(Fail::from("links that were just made"));
    }
    Ok(MemDialer::new(alloc, links, failing).map_err(|_| "memory")?)
}

/// Runs the command on the file, with a seed of 32 zeros where the words give none. Answers the status.
pub(crate) fn status_of(
    alloc: Global,
    words: &str,
    file: &str,
    dialer: &mut MemDialer,
    out: &mut MemSink,
) -> Result<u8, Fail> {
    if dialer.lent() {
        return Err(Fail::from("a link is lent"));
    }
    let words = words_of(alloc, words)?;
    let text = lines_of(alloc, file)?;
    let mut files = SureFiles::new(text.as_slice());
    let mut entropy = SureEntropy::new([0; 32]);
    let mut watch = NoWatch::new();
    Ok(run(
        alloc,
        &words,
        &mut files,
        dialer,
        &mut entropy,
        &mut watch,
        out,
    ))
}

/// Asserts the status, and what is printed.
pub(crate) fn assert_ends(
    rt: &impl Abort,
    alloc: Global,
    got: (u8, &MemSink),
    status: u8,
    lines: &str,
) -> Result<(), Fail> {
    let (got, out) = got;
    assert_eq!(rt; got, status, "{lines}");
    assert_eq!(rt; out.bytes(), lines_of(alloc, lines)?.as_slice());
    Ok(())
}

/// The bytes that were sent over link `i` of those that were hung up.
pub(crate) fn sent_over(alloc: Global, dialer: &MemDialer, i: u32) -> Result<Vec<u8>, Fail> {
    if i < dialer.entries() {
        sent(alloc, dialer.entry(i))
    } else {
        Err(Fail::from("no such link"))
    }
}

fn sent(alloc: Global, link: &MemLink) -> Result<Vec<u8>, Fail> {
    let mut bytes = Vec::new(alloc);
    for i in 0..link.pieces() {
        if link.piece_was_sent(i) {
            bytes.extend_from_slice(link.piece(i))?;
        }
    }
    Ok(bytes)
}
