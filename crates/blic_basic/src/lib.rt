//! What a program has outside itself: sources, sinks, files and seeds that count their faults, and
//! watches that see frames.
#![tactic(auto)]

mod bend_watch;
mod entropy;
mod files;
mod listed;
mod mem_entropy;
mod mem_file;
mod mem_files;
mod mem_sink;
mod mem_source;
mod mem_watch;
mod piece;
mod random_file;
mod real;
mod sink;
mod source;
mod spare;
mod steps;
mod sure;
mod watch;

pub use bend_watch::{Bend, BendWatch};
pub use entropy::{Entropy, Seeded};
pub use files::{Files, Opened};
pub use listed::Listed;
pub use mem_entropy::MemEntropy;
pub use mem_file::MemFile;
pub use mem_files::MemFiles;
pub use mem_sink::MemSink;
pub use mem_source::MemSource;
pub use mem_watch::MemWatch;
pub use random_file::RandomFile;
pub use real::{RealFiles, RealSource, StdoutSink};
pub use sink::{Given, Sink, Wrote, write_all_counted};
pub use source::{Source, Taken};
pub use steps::Steps;
pub use sure::{SureEntropy, SureFiles, SureSink, SureSource};
use thiserror::Error;
pub use watch::{NoWatch, Watch};

/// Out of memory: the error of calls that can't fail in any other way.
#[derive(Clone, Copy, Debug, PartialEq, Eq, Error)]
#[error("memory ran out")]
pub struct NoMem;

impl From<std::alloc::AllocError> for NoMem {
    fn from(_: std::alloc::AllocError) -> NoMem {
        NoMem
    }
}

impl<T: Drop> From<std::alloc::AllocFailed<T>> for NoMem {
    fn from(_: std::alloc::AllocFailed<T>) -> NoMem {
        NoMem
    }
}

#[cfg(test)]
mod tests;
