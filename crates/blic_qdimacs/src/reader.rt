// Reads a formula from a source.
ghost use Rattle.std.specs.Prelude.{◌≡◌, ◌≤◌, ◌+◌, ◌<◌, ℕ, [], OnOk, IfSome, IfOk, IfErr, length};
ghost use Rattle.blic_basic.specs.Outside.{Takes, TakeCounts, IfGot};
ghost use Rattle.blic_model.specs.Limits.{IsFormula};
ghost use Rattle.blic_qdimacs.specs.Machine.{within_by_bytes};
ghost use Rattle.blic_qdimacs.specs.Meaning.{meaning};
ghost use Rattle.blic_qdimacs.specs.Reading.{Reads, ReadCounts};
ghost use Rattle.blic_qdimacs.specs.Taking.{ForTaken, StopsEarly};

use crate::byte_reader::ByteReader;
use crate::error::ReadError;
use blic_basic::{Source, Taken};
use blic_model::Formula;
use std::alloc::Global;

// The most bytes that a file may have.
const MOST_BYTES: usize = 67_108_864;

// The room for one piece of a file.
const PIECE: usize = 65_536;

// Takes at most so many bytes.
fn take_at_most<S: Source>(source: &mut S, buffer: &mut [u8], most: usize) -> Taken
    requires some { 0 < length buffer.old }
    requires more { 0 < most }
    ensures bytes { Takes (S.left source.old) (S.left source.new) result buffer.new }
    ensures few { IfGot result (λ n. n ≤ most) }
    ensures cause { TakeCounts (S.faults source.old) (S.faults source.new) result }
{
    let n = buffer.len().min(most);
    source.take(&mut buffer[..n])
}

fn read_by_bytes<S: Source>(alloc: Global, source: &mut S) -> Result<Formula, ReadError>
    ensures exact { IfSome (S.left source.old) (λ bytes. Reads result (within_by_bytes 67108864 bytes)) }
    ensures formula { IfOk result (λ formula. IsFormula formula) }
    ensures end { OnOk result (IfSome (S.left source.new) (λ rest. rest ≡ [])) }
    ensures taken { ForTaken (S.left source.old) (S.left source.new) (λ taken. length taken ≤ 67108865) }
    ensures early { IfErr result (λ e. ForTaken (S.left source.old) (S.left source.new) (StopsEarly 65535 e)) }
    ensures cause { ReadCounts (S.faults source.old) (S.faults source.new) result }
{
    let mut reader = ByteReader::new(alloc)?;
    let mut buffer = [0; PIECE];
    let mut taken = 0;
    'pieces: while taken <= MOST_BYTES {
        match take_at_most(source, &mut buffer, MOST_BYTES + 1 - taken) {
            Taken::Got(n) => {
                reader.feed(&buffer[..n.min(MOST_BYTES - taken)])?;
                taken += n;
            }
            Taken::End => return reader.finish(),
            Taken::Failed => return Err(ReadError::Fault),
        }
    }
    Err(ReadError::TooLong { line: reader.line })
}

/// Reads a formula from all that the source has left: a file in QDIMACS of at most 67,108,864
/// bytes. A file without sets is a plain CNF. Variables of the clauses that stand in no set are
/// existential, outermost, in rising order.
///
/// After an `Ok` nothing is left of the source. The first bytes decide a refusal if it comes
/// whatever follows them: then at most 65,535 bytes more than these are taken. Whatever is answered,
/// at most 67,108,865 bytes are taken in all.
#[tactic(auto, using(crate::proofs::Meant::reads_meant))]
pub fn read<S: Source>(alloc: Global, source: &mut S) -> Result<Formula, ReadError>
    // The formula is the one that the bytes spell, and a refusal is the first that stands in them.
    ensures exact { IfSome (S.left source.old) (λ bytes. Reads result (meaning bytes)) }
    ensures formula { IfOk result (λ formula. IsFormula formula) }
    ensures end { OnOk result (IfSome (S.left source.new) (λ rest. rest ≡ [])) }

    // One byte more than a file may have is enough to refuse it.
    ensures taken { ForTaken (S.left source.old) (S.left source.new) (λ taken. length taken ≤ 67108865) }

    // The piece with the byte that decides a refusal is the last one.
    ensures early { IfErr result (λ e. ForTaken (S.left source.old) (S.left source.new) (StopsEarly 65535 e)) }
    ensures cause { ReadCounts (S.faults source.old) (S.faults source.new) result }
{
    read_by_bytes(alloc, source)
}
