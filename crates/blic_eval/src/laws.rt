// The law of circuits.
ghost use Rattle.std.specs.Prelude.{◌≡◌, ◌<◌, ℕ, List, length, slice_index_or};
ghost use Rattle.blic_model.specs.declared.node.Node.{Node};
ghost use Rattle.blic_model.specs.Circuit.{free, node_at};
ghost use Rattle.blic_model.specs.Degree.{IsPoint};
ghost use Rattle.blic_model.specs.Reduction.{poly};
ghost use Rattle.blic_model.specs.Shape.{IsShaped};
ghost use Rattle.blic_model.specs.Value.{Point, holds, value};
ghost use Rattle.blic_store.specs.Function.{Function, Same};
ghost use Rattle.blic_apply.specs.declared.operation.Op.{Op};
ghost use Rattle.blic_eval.specs.Extension.{extension, joined_poly};

/// A circuit's values and polynomials are those of its nodes' Boolean functions, and equal functions
/// have the same ones.
pub fn circuit_law()
    ensures value { (nodes : List Node) (levels : ℕ) → IsShaped nodes levels → (k : ℕ) (s : Point) → IsPoint s
        → value nodes levels k s ≡ extension (holds nodes k) levels s }
    ensures conjunction { (nodes : List Node) (levels : ℕ) → IsShaped nodes levels → (k a b j : ℕ) → node_at nodes k ≡ Node.And a b
        → k < length nodes → j < length (free nodes levels k) → (s : Point) → IsPoint s
        → poly nodes levels k j s ≡ joined_poly Op.And (holds nodes a) (holds nodes b) levels (slice_index_or (free nodes levels k) j 0) s }
    ensures disjunction { (nodes : List Node) (levels : ℕ) → IsShaped nodes levels → (k a b j : ℕ) → node_at nodes k ≡ Node.Or a b
        → k < length nodes → j < length (free nodes levels k) → (s : Point) → IsPoint s
        → poly nodes levels k j s ≡ joined_poly Op.Or (holds nodes a) (holds nodes b) levels (slice_index_or (free nodes levels k) j 0) s }
    ensures same { (f g : Function) → Same f g → (levels : ℕ) (s : Point) → extension f levels s ≡ extension g levels s }
    ensures same_joined { (op : Op) (f g h i : Function) → Same f h → Same g i → (levels level : ℕ) (s : Point)
        → joined_poly op f g levels level s ≡ joined_poly op h i levels level s }
{}
