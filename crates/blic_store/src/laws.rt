// The laws of stores.
ghost use Rattle.std.specs.Prelude.{◌≡◌, ◌≤◌, ℕ, length};
ghost use Rattle.blic_store.specs.Diagram.{IsRef, function};
ghost use Rattle.blic_store.specs.Function.{Function, Same};
ghost use Rattle.blic_store.specs.Growth.{Answers, Diagrams, PassesLimit};

use crate::reference::Ref;
use crate::store::Store;

/// In a store equal functions have equal refs.
pub fn same_law(store: &Store, a: Ref, b: Ref)
    requires a_held { IsRef store.now.nodes a }
    requires b_held { IsRef store.now.nodes b }
    requires same { Same (function store.now.nodes a) (function store.now.nodes b) }
    ensures { a ≡ b }
{
    store.canonical_law();
}

/// If a function passes the limit, no store has it within the limit: each list that has the
/// function is at least as long as each that adds parts of it alone.
pub fn full_law()
    ensures { (f : Function) (old new : Diagrams) (r : ℕ) → Answers f old new r
        → length new.nodes ≤ new.limit → PassesLimit f old → ⊥ }
{}
