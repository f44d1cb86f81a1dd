// The error of printing.
use thiserror::Error;

/// A call on the output failed, and its count of faults rose. The output holds a prefix of what was to be printed.
#[derive(Clone, Copy, Debug, PartialEq, Eq, Error)]
#[error("the output failed, and holds only a prefix of what was to be printed")]
pub struct WriteFault;
