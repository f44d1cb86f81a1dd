// Laws of the reader's grammar and of the canonical text, for the crates above.
ghost use Rattle.std.specs.Prelude.{◌≡◌, ℕ, List};
ghost use Rattle.blic_model.specs.Formula.{PrenexFormula};
ghost use Rattle.blic_model.specs.Limits.{IsFormula};
ghost use Rattle.blic_qdimacs.specs.Judged.{IsJudged};
ghost use Rattle.blic_qdimacs.specs.Meaning.{Spells};
ghost use Rattle.blic_qdimacs.specs.Text.{canonical_text};

/// Each text either spells exactly one formula, which is within the limits, or has exactly one
/// first refusal, which is neither a fault nor running out of memory. It does nothing when it runs.
pub fn judgement_law()
    ensures { (bytes : List ℕ) → IsJudged bytes }
{}

/// The canonical text of a formula within the limits spells that formula. It does nothing when it
/// runs.
pub fn canonical_text_law()
    ensures { (f : PrenexFormula) → IsFormula f → Spells (canonical_text f) f }
{}

/// Two formulas within the limits that have one canonical text are equal. It does nothing when it
/// runs.
pub fn canonical_law()
    ensures { (f g : PrenexFormula) → IsFormula f → IsFormula g → canonical_text f ≡ canonical_text g → f ≡ g }
{}
