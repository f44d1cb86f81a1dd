// Running the program over files and an output in memory.
ghost use Rattle.std.specs.Prelude.{◌≡◌, IfOk, false};

use blic_basic::{MemSink, NoWatch, SureEntropy, SureFiles};
use blic_link::MemDialer;
use blic_top::run;
use std::alloc::{AllocError, Global};
use std::process::Abort;
use std::test::Fail;

pub(crate) fn words_of(alloc: Global, words: &str) -> Result<Vec<String>, AllocError> {
    let mut all = Vec::new(alloc);
    for word in words.split_whitespace() {
        all.push(String::from_str(alloc, word)?)?;
    }
    Ok(all)
}

pub(crate) fn sink(alloc: Global, failing: Vec<u64>, room: usize) -> Result<MemSink, Fail> {
    Ok(MemSink::new(alloc, 7, failing, room).map_err(|_| "memory")?)
}

// A dialer that has no links.
pub(crate) fn no_links(alloc: Global) -> Result<MemDialer, Fail>
    ensures free { IfOk result (λ d. d.is_lent ≡ false) }
{
    Ok(MemDialer::new(alloc, Vec::new(alloc), Vec::new(alloc)).map_err(|_| "memory")?)
}

// The text in which a slash stands for the end of a line, and a percent sign for a carriage return.
pub(crate) fn lines_of(alloc: Global, text: &str) -> Result<Vec<u8>, AllocError> {
    let mut bytes = Vec::new(alloc);
    for byte in text.as_bytes() {
        bytes.push(match *byte {
            b'/' => b'\n',
            b'%' => b'\r',
            byte => byte,
        })?;
    }
    Ok(bytes)
}

// Runs a command on the file with these options, and asserts its status and what it prints.
pub(crate) fn assert_runs(
    rt: &impl Abort,
    alloc: Global,
    command: &str,
    options: &str,
    file: &[u8],
    status: u8,
    lines: &str,
) -> Result<(), Fail> {
    let mut words = words_of(alloc, command)?;
    words.append(&mut words_of(alloc, options)?)?;
    let mut out = sink(alloc, Vec::new(alloc), 1000)?;
    let mut entropy = SureEntropy::new([7; 32]);
    let got = run(
        alloc,
        &words,
        &mut SureFiles::new(file),
        &mut no_links(alloc)?,
        &mut entropy,
        &mut NoWatch::new(),
        &mut out,
    );
    assert_eq!(rt; got, status, "{command} {options} {lines}");
    assert_eq!(rt; out.bytes(), lines_of(alloc, lines)?.as_slice());
    Ok(())
}
