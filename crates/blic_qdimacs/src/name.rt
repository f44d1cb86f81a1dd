// The digest that names a formula.
ghost use Rattle.std.specs.Prelude.{◌≡◌, IfOk};
ghost use Rattle.sha2.specs.Sha256.{sha256};
ghost use Rattle.blic_qdimacs.specs.Text.{canonical_text};

use crate::writer::canonical;
use blic_basic::NoMem;
use blic_model::Formula;
use sha2::{Digest, Sha256};
use std::alloc::Global;

/// The digest that names a formula: the SHA-256 (FIPS 180-4) of its canonical text. It fails
/// only if memory runs out.
pub fn name_of(alloc: Global, formula: &Formula) -> Result<[u8; 32], NoMem>
    ensures { IfOk result (λ name. name ≡ sha256 (canonical_text formula.now)) }
{
    let text = canonical(alloc, formula)?;
    Ok(Sha256::digest(text.as_slice()))
}
