// The formula of a file.
ghost use Rattle.blic_input.specs.Beginning.{ReadsFile};
ghost use Rattle.blic_qdimacs.specs.Reading.{ReadCounts};

use blic_basic::{Files, Opened};
use blic_model::Formula;
use blic_qdimacs::{ReadError, read};
use std::alloc::Global;

/// Reads the formula of the file of this name.
pub(crate) fn read_file<F: Files>(
    alloc: Global,
    name: &str,
    files: &mut F,
) -> Result<Formula, ReadError>
    ensures says { ReadsFile (F.files files.old) name.now result }
    ensures cause { ReadCounts (F.faults files.old) (F.faults files.new) result }
{
    match files.open_file(name) {
        Opened::Failed => Err(ReadError::Fault),
        Opened::Source(mut source) => {
            let formula = read(alloc, &mut source);
            files.close_file(source);
            formula
        }
    }
}
