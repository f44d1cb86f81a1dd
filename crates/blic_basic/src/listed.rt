// Values that stand for a list.
ghost use Rattle.std.specs.Prelude.{ℕ, List};
ghost use Rattle.blic_basic.specs.Listing.{Entry};

/// Stands for a list of entries, and has a mark. Both exist in contracts alone: a value that is
/// shared under a lock says by them what was done to it, and by whom.
pub trait Listed {
    /// The entries in their order, each with the number of the seat that added it.
    ghost entries: { Self → List Entry };

    /// The numbers that nobody who adds an entry changes.
    ghost mark: { Self → List ℕ };
}
