// The laws of the generated formulas.
ghost use Rattle.std.specs.Prelude.{◌≤◌, ℕ, Bool};
ghost use Rattle.blic_model.specs.Limits.{IsFormula};
ghost use Rattle.blic_gen.specs.Chain.{chain};

/// A chain of 1 to 500 pairs of variables is a formula within the limits.
pub fn chain_law()
    ensures { (n : ℕ) (truth : Bool) → 1 ≤ n → n ≤ 500 → IsFormula (chain n truth) }
{}
