// What a command is asked for.
use crate::options::Options;

/// What the arguments ask for. `'w` is the lifetime of the arguments, which lend the file's name and the
/// address.
#[derive(Clone, Copy)]
pub enum Request<'w> {
    /// Solve the formula of a file, within the options' limits.
    Solve {
        file: &'w str,
        options: Options,
    },
    /// Solve the formula of a file and certify the answer, as often as `repeat` says, within the options'
    /// limits.
    Certify {
        file: &'w str,
        options: Options,
    },
    /// Check the answer of the prover at an address for the formula of a file. The address, such as host:port,
    /// is the argument as it stands, which may be empty; the options' limits on solving play no part.
    Verify {
        file: &'w str,
        address: &'w str,
        options: Options,
    },
    /// Certify the formulas that are made from a number of pairs of variables, from 1 to 500.
    Exercise {
        pairs: u32,
        options: Options,
    },
}
