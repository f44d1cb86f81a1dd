// Sets of levels.
ghost use Rattle.std.specs.Prelude.{◌≡◌, ◌≤◌, ◌+◌, ◌==◌, ◌&&◌, ◌||◌, ℕ, Bool, false, not, filter, length};
ghost use Rattle.blic_model.specs.LevelSets.{levels_from, word, set_where, no_level};

/// A set of levels among 256 from a first one on, with a bit for each of them.
#[derive(Clone, Copy)]
pub(crate) struct LevelSet {
    low: u128,
    high: u128,
}

impl LevelSet {
    /// How many levels a set tells of.
    pub(crate) const ROOM: u64 = 256;

    pub(crate) fn none() -> LevelSet
        ensures empty { result ≡ no_level }
        ensures levels { (first : ℕ) → result ≡ set_where (λ x. false) first }
    {
        LevelSet { low: 0, high: 0 }
    }

    /// The level alone; no level, if it is not one of the 256 from the first one on.
    pub(crate) fn of(first: u64, level: u32) -> LevelSet
        requires { first ≤ 4294967296 }
        ensures { result ≡ set_where (λ x. x == level) first }
    {
        LevelSet {
            low: bit(first, level),
            high: bit(first + 128, level),
        }
    }

    /// The levels of both.
    pub(crate) fn union(self, other: LevelSet) -> LevelSet
        ensures { (p q : ℕ → Bool) (first : ℕ) → self ≡ set_where p first → other ≡ set_where q first → result ≡ set_where (λ x. p x || q x) first }
    {
        LevelSet {
            low: self.low | other.low,
            high: self.high | other.high,
        }
    }

    /// The levels but one, of 256 from the first one on.
    pub(crate) fn without(self, first: u64, level: u32) -> LevelSet
        requires { first ≤ 4294967296 }
        ensures { (p : ℕ → Bool) → self ≡ set_where p first → result ≡ set_where (λ x. p x && not (x == level)) first }
    {
        LevelSet {
            low: self.low & !bit(first, level),
            high: self.high & !bit(first + 128, level),
        }
    }

    pub(crate) fn len(self) -> u32
        ensures { (p : ℕ → Bool) (first : ℕ) → self ≡ set_where p first → result ≡ length (filter p (levels_from first 256)) }
    {
        self.low.count_ones() + self.high.count_ones()
    }

    pub(crate) fn is_empty(self) -> bool
        ensures { result ≡ (self.low == 0) && (self.high == 0) }
    {
        self.low == 0 && self.high == 0
    }
}

// The level's bit among 128 from the first one on; none if it isn't one of them.
fn bit(first: u64, level: u32) -> u128
    ensures { result ≡ word (λ x. x == level) first }
{
    let level = u64::from(level);
    if first <= level && level - first < 128 {
        1 << (level - first)
    } else {
        0
    }
}
