//! The program `blic`: it hands its arguments, the files, TCP, random bytes and standard output to `run`.
#![tactic(auto)]

use blic_basic::{NoWatch, RandomFile, RealFiles, StdoutSink, Wrote, write_all_counted};
use blic_link::TcpDialer;
use blic_top::run;
use std::process::ExitCode;
use std::rt::Env;
use std::{env, io};

fn main(rt: HostRuntime) -> ExitCode {
    let mut out = StdoutSink::new(io::writer(&rt));
    let mut files = RealFiles::new(&rt);
    let mut dialer = TcpDialer::new(&rt);
    let mut entropy = RandomFile::new(&rt);
    let mut watch = NoWatch::new();
    let status = match words(&rt) {
        Ok(words) => run(
            rt.alloc(),
            &words,
            &mut files,
            &mut dialer,
            &mut entropy,
            &mut watch,
            &mut out,
        ),
        Err(error) if error.kind() == io::ErrorKind::OutOfMemory => {
            match write_all_counted(&mut out, b"c want of memory\n") {
                Wrote::All => 9,
                Wrote::Failed(_) => 4,
            }
        }
        // An argument that is no text fits no command.
        Err(_) => run(
            rt.alloc(),
            &Vec::new(rt.alloc()),
            &mut files,
            &mut dialer,
            &mut entropy,
            &mut watch,
            &mut out,
        ),
    };
    ExitCode::from(status)
}

// The arguments behind the program's name.
fn words<R: Env + AllocGlobal>(rt: &R) -> io::Result<Vec<String>> {
    let mut words = Vec::new(rt.alloc());
    for word in env::args(rt)?.skip(1) {
        words.push(word)?;
    }
    Ok(words)
}
