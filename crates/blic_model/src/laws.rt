// The laws of circuits, over the definitions that other contracts cite.
ghost use Rattle.std.specs.Prelude.{◌≡◌, ◌<◌, ◌≤◌, ℕ, List, false, length, true};
ghost use Rattle.std.specs.List.{list_any};
ghost use Rattle.blic_model.specs.Building.{circuit_of, nodes_of};
ghost use Rattle.blic_model.specs.Circuit.{is_free, node_at, root};
ghost use Rattle.blic_model.specs.Formula.{PrenexFormula};
ghost use Rattle.blic_model.specs.Limits.{IsFormula};
ghost use Rattle.blic_model.specs.Laws.{ClaimsFollowParents, FirstPart, FreeFollowsChildren, HoldsFollowsChildren, LastPart, NextPart, PartDependsOnFree, PartIsQuadratic, PolyGivesPart, PolyHasElements, PolyIsUnique, ReducedIsLinear, RootHasOneClaim, RootValueIsTruth, ValueDependsOnFree, ValueFollowsChildren, ValueIsBoolean, ValueIsElement, ValueIsLinear};
ghost use Rattle.blic_model.specs.Order.{IsOrdered};
ghost use Rattle.blic_model.specs.Shape.{IsShaped, is_child, levels_below};
ghost use Rattle.blic_model.specs.declared.node.Node.{Node};

/// What the shape of a circuit is: each node's children have smaller numbers, no two nodes are equal, each node but the
/// last is a child of another, and the last depends on no level.
pub fn shape_law()
    ensures size { (nodes : List Node) (levels : ℕ) → IsShaped nodes levels → (0 < length nodes) × (length nodes ≤ 4194304) × (levels < 4294967296) }
    ensures ordered { (nodes : List Node) (levels : ℕ) → IsShaped nodes levels → IsOrdered nodes }
    ensures in_range { (nodes : List Node) (levels : ℕ) → IsShaped nodes levels → (k : ℕ) → k < length nodes → levels_below levels (node_at nodes k) ≡ true }
    ensures distinct { (nodes : List Node) (levels : ℕ) → IsShaped nodes levels → (i j : ℕ) → i < j → j < length nodes → node_at nodes i ≡ node_at nodes j → ⊥ }
    ensures child { (nodes : List Node) (levels : ℕ) → IsShaped nodes levels → (k : ℕ) → k < root nodes → list_any (is_child k) nodes ≡ true }
    ensures closed { (nodes : List Node) (levels : ℕ) → IsShaped nodes levels → (x : ℕ) → x < levels → is_free nodes (root nodes) x ≡ false }
{}

/// What `is_free`, `holds`, `value` and `claims` are, as equations from one node to others: what a node depends on, its
/// Boolean value and its value at a point follow from those of its children, and its claims from those of its parents.
/// With induction on the numbers of nodes these equations determine all four, so that they can be read without the
/// tables by which they are defined.
pub fn steps_law()
    ensures free { FreeFollowsChildren }
    ensures holds { HoldsFollowsChildren }
    ensures value { ValueFollowsChildren }
    ensures root_claim { RootHasOneClaim }
    ensures claims { ClaimsFollowParents }
{}

/// At a point of zeros and ones a node's value is its Boolean value.
pub fn boolean_value_law()
    ensures { ValueIsBoolean }
{}

/// A node's value and its parts depend on its free levels alone, and its value at a point is an element.
pub fn dependence_law()
    ensures value { ValueDependsOnFree }
    ensures part { PartDependsOnFree }
    ensures element { ValueIsElement }
{}

/// Degree reduction leads from the operands of a binary node to its value. Each step makes one free level
/// linear; until then the part is of degree at most 2 in that level, so that one polynomial, and no other, gives it.
pub fn reduction_law()
    ensures first { FirstPart }
    ensures next { NextPart }
    ensures last { LastPart }
    ensures value_is_linear { ValueIsLinear }
    ensures part_is_quadratic { PartIsQuadratic }
    ensures reduced_is_linear { ReducedIsLinear }
    ensures polynomial { PolyGivesPart }
    ensures coefficients { PolyHasElements }
    ensures unique { PolyIsUnique }
{}

/// The circuit of a formula has the shape of a circuit and 2,424,829 nodes at most, and the value of its root is the
/// formula's truth, at every point.
pub fn circuit_law()
    ensures root_value { RootValueIsTruth }
    ensures root { (f : PrenexFormula) → IsFormula f → root (circuit_of f).nodes ≡ (nodes_of f).number }
    ensures shape { (f : PrenexFormula) → IsFormula f → IsShaped (circuit_of f).nodes (length (circuit_of f).order) }
    ensures size { (f : PrenexFormula) → IsFormula f → length (circuit_of f).nodes ≤ 2424829 }
    ensures closed { (f : PrenexFormula) → IsFormula f → (x : ℕ) → is_free (circuit_of f).nodes (root (circuit_of f).nodes) x ≡ false }
{}
