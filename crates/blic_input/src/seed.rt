// The seed of a conversation's draws.
ghost use Rattle.blic_input.specs.Beginning.{IsSeeded};
ghost use Rattle.blic_input.specs.Faults.{Counts, Entropy as TheEntropy, fault_told};

use crate::stop::Stop;
use blic_basic::{Entropy, Seeded};

/// The seed that is given, or else the next one that comes. It stops if one is asked for and none comes.
pub fn seed_of<E: Entropy>(given: Option<[u8; 32]>, entropy: &mut E) -> Result<[u8; 32], Stop>
    ensures seed { IsSeeded given (E.seeds entropy.old) (E.seeds entropy.new) result }
    ensures cause { Counts TheEntropy (fault_told result) (E.faults entropy.old) (E.faults entropy.new) }
{
    match given {
        Some(seed) => Ok(seed),
        None => match entropy.seed() {
            Seeded::Seed(seed) => Ok(seed),
            Seeded::Failed => Err(Stop::NoSeed),
        },
    }
}
