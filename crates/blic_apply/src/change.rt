// What is done to one function.
ghost use Rattle.std.specs.Prelude.{◌≡◌, ◌≤◌, ◌+◌, IfNone, IfSome};
ghost use Rattle.blic_store.specs.Diagram.{IsRef};
ghost use Rattle.blic_apply.specs.Changing.{IsChanged, IsUnsettled};

use blic_store::{Ref, Store};

/// What is done to one function.
#[derive(Clone, Copy, Debug, PartialEq, Eq)]
pub enum Change {
    Negate,
    Fix { level: u32, bit: bool },
}

impl Change {
    /// The changed function, if the parts of the function need not be looked at.
    pub fn settled(self, store: &Store, r: Ref) -> Option<Ref>
        requires { IsRef store.now.nodes r }
        ensures some { IfSome result (IsChanged self store.now.nodes r) }
        ensures none { IfNone result (IsUnsettled self store.now.nodes r) }
    {
        match self {
            Change::Negate => constant_negated(r),
            Change::Fix { level, bit } => fixed_at_top(store, r, level, bit),
        }
    }
}

// The other constant, if the function is constant.
fn constant_negated(r: Ref) -> Option<Ref>
    ensures some { IfSome result (λ s. r + s ≡ 1) }
    ensures none { IfNone result (2 ≤ r) }
{
    if r == Ref::FALSE {
        Some(Ref::TRUE)
    } else if r == Ref::TRUE {
        Some(Ref::FALSE)
    } else {
        None
    }
}

// The function with the level's bit fixed, if it decides at no level above that one.
fn fixed_at_top(store: &Store, r: Ref, level: u32, bit: bool) -> Option<Ref>
    requires { IsRef store.now.nodes r }
    ensures some { IfSome result (IsChanged (Change.Fix level bit) store.now.nodes r) }
    ensures none { IfNone result (IsUnsettled (Change.Fix level bit) store.now.nodes r) }
{
    store.canonical_law();
    if store.depth(r) < u64::from(level) {
        return None;
    }
    Some(store.cofactor(r, level, bit))
}
