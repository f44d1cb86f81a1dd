// The laws of graphs.
ghost use Rattle.std.specs.Prelude.{◌≤◌, ℕ, List, length};
ghost use Rattle.blic_graph.specs.Pairs.{IsGraph, PassesMost};
ghost use Rattle.blic_graph.specs.declared.pair.Pair.{Pair};
ghost use Rattle.blic_store.specs.Canonical.{IsCanonical};
ghost use Rattle.blic_store.specs.Diagram.{IsRef};
ghost use Rattle.blic_store.specs.Function.{Function};
ghost use Rattle.blic_store.specs.Growth.{Adds};
ghost use Rattle.blic_store.specs.declared.decision.Decision.{Decision};

/// Where two functions have more pairs than `most`, no list within `most` has them all.
pub fn pairs_full_law()
    ensures { (nodes : List Decision) (a b most : ℕ) (pairs : List Pair) → IsGraph nodes a b pairs
        → length pairs ≤ most → PassesMost nodes a b most → ⊥ }
{}

/// The pairs of two functions stay their pairs while the store grows.
pub fn growth_law()
    ensures { (f : Function) (old new : List Decision) (a b : ℕ) (pairs : List Pair)
        → IsCanonical old → IsRef old a → IsRef old b → Adds f old new
        → IsGraph old a b pairs → IsGraph new a b pairs }
{}
