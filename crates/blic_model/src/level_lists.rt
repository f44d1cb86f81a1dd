// Lists of levels that stand in one list.
ghost use Rattle.std.specs.Prelude.{◌≡◌, ◌≤◌, ◌<◌, ◌+◌, ◌++◌, ◌∷◌, ◌==◌, ℕ, List, [], length, not, true, filter, IfOk, IfSome, OnOk, slice_index, slice_index_or};
ghost use Rattle.std.specs.Prelude.{◌⊎◌};
ghost use Rattle.std.specs.List.{position_or_len};
ghost use Rattle.blic_model.specs.LevelLists.{stretch, merged, StandsOnce};
ghost use Rattle.blic_model.specs.Stretches.{IsInside, BeginsWith, IsAt, IsMergedUpTo};

use blic_basic::NoMem;
use std::alloc::Global;
use std::marker::Model;

/// Lists of levels, seen as their list. One that is a part of an earlier one takes no room.
#[derive(Drop)]
pub(crate) struct LevelLists {
    levels: Vec<u32>,
    stretches: Vec<Stretch>,
}

/// From where to where a list stands.
#[derive(Clone, Copy)]
struct Stretch {
    start: usize,
    end: usize,
}

impl Model for LevelLists {
    ghost use Rattle.std.specs.Prelude.{List, ℕ};
    ghost use Rattle.blic_model.specs.Stretches.{lists_at, AreInside};

    ghost Value = { List (List ℕ) };

    ghost view = { λ l. lists_at l.levels.items l.stretches.items };

    ghost invariant = { λ l. AreInside l.levels.items l.stretches.items };
}

impl LevelLists {
    pub(crate) fn new(alloc: Global) -> LevelLists
        ensures { result ≡ [] }
    {
        LevelLists {
            levels: Vec::new(alloc),
            stretches: Vec::new(alloc),
        }
    }

    /// The length of list `k`.
    pub(crate) fn len(&self, k: usize) -> usize
        requires { k < length self.now }
        ensures { result ≡ length (slice_index_or self.now k []) }
    {
        let at = self.stretches[k];
        at.end - at.start
    }

    /// For how many levels the lists take room.
    pub(crate) fn room(&self) -> usize {
        self.levels.len()
    }

    /// Level `i` of list `k`.
    pub(crate) fn level(&self, k: usize, i: usize) -> u32
        requires list { k < length self.now }
        requires level { i < length (slice_index_or self.now k []) }
        ensures { result ≡ slice_index (slice_index_or self.now k []) i }
    {
        let at = self.stretches[k];
        self.levels[at.start + i]
    }

    /// Adds a list of no level.
    pub(crate) fn push_none(&mut self) -> Result<(), NoMem>
        ensures { OnOk result (self.new ≡ self.old ++ [] ∷ []) }
    {
        self.stretches.push(Stretch { start: 0, end: 0 })?;
        Ok(())
    }

    /// Adds a list of one level.
    pub(crate) fn push_level(&mut self, level: u32) -> Result<(), NoMem>
        ensures { OnOk result (self.new ≡ self.old ++ (level ∷ []) ∷ []) }
    {
        let start = self.levels.len();
        self.levels.push(level)?;
        self.stretches.push(Stretch {
            start,
            end: start + 1,
        })?;
        Ok(())
    }

    /// Adds list `k` once more.
    pub(crate) fn push_same(&mut self, k: usize) -> Result<(), NoMem>
        requires { k < length self.old }
        ensures { OnOk result (self.new ≡ self.old ++ slice_index_or self.old k [] ∷ []) }
    {
        let at = self.stretches[k];
        self.stretches.push(at)?;
        Ok(())
    }

    /// Adds list `k` without a level, which stands in it at most once.
    pub(crate) fn push_without(&mut self, k: usize, level: u32) -> Result<(), NoMem>
        requires list { k < length self.old }
        requires once { StandsOnce level (slice_index_or self.old k []) }
        ensures { OnOk result (self.new ≡ self.old ++ filter (λ x. not (x == level)) (slice_index_or self.old k []) ∷ []) }
    {
        let at = self.stretches[k];
        let made = without(&mut self.levels, at, level)?;
        self.stretches.push(made)?;
        Ok(())
    }

    /// Adds the levels of lists `j` and `k`, which rise.
    pub(crate) fn push_merged(&mut self, j: usize, k: usize) -> Result<(), NoMem>
        requires left { j < length self.old }
        requires right { k < length self.old }
        ensures { OnOk result (self.new ≡ self.old ++ merged (slice_index_or self.old j []) (slice_index_or self.old k []) ∷ []) }
    {
        let left = self.stretches[j];
        let right = self.stretches[k];
        let made = merge(&mut self.levels, left, right)?;
        self.stretches.push(made)?;
        Ok(())
    }
}

// The stretch without a level, which stands in it at most once: a part of it, or one at the end.
fn without(levels: &mut Vec<u32>, at: Stretch, left_out: u32) -> Result<Stretch, NoMem>
    requires inside { IsInside (length levels.old.items) at }
    requires once { StandsOnce left_out (stretch levels.old.items at.start at.end) }
    ensures kept { BeginsWith levels.new.items levels.old.items }
    ensures made { IfOk result (λ s. IsAt levels.new.items s (filter (λ x. not (x == left_out)) (stretch levels.old.items at.start at.end))) }
{
    if let Some(part) = part_without(levels, at, left_out) {
        return Ok(part);
    }
    let start = levels.len();
    copy_without(levels, at, left_out)?;
    Ok(Stretch {
        start,
        end: levels.len(),
    })
}

// The part that is left of a stretch without a level; none if the level stands between others.
fn part_without(levels: &[u32], at: Stretch, left_out: u32) -> Option<Stretch>
    requires inside { IsInside (length levels.now) at }
    requires once { StandsOnce left_out (stretch levels.now at.start at.end) }
    ensures { IfSome result (λ s. IsAt levels.now s (filter (λ x. not (x == left_out)) (stretch levels.now at.start at.end))) }
{
    let Stretch { start, end } = at;
    if start == end {
        return Some(at);
    }
    if levels[start] == left_out {
        return Some(Stretch {
            start: start + 1,
            end,
        });
    }
    if levels[end - 1] == left_out {
        return Some(Stretch {
            start,
            end: end - 1,
        });
    }
    if place_of(&levels[start..end], left_out) < end - start {
        return None;
    }
    Some(at)
}

// The place of a level, or the length if there is none.
fn place_of(levels: &[u32], level: u32) -> usize
    ensures { result ≡ position_or_len (λ x. x == level) levels.now }
{
    for (i, other) in levels.iter().enumerate() {
        if *other == level {
            return i;
        }
    }
    levels.len()
}

// Copies a stretch to the end, without a level.
fn copy_without(levels: &mut Vec<u32>, at: Stretch, left_out: u32) -> Result<(), NoMem>
    requires { IsInside (length levels.old.items) at }
    ensures kept { BeginsWith levels.new.items levels.old.items }
    ensures copied { OnOk result (levels.new.items ≡ levels.old.items ++ filter (λ x. not (x == left_out)) (stretch levels.old.items at.start at.end)) }
{
    for i in at.start..at.end {
        let level = levels[i];
        if level != left_out {
            levels.push(level)?;
        }
    }
    Ok(())
}

// Two rising stretches in one: a stretch that is both, or one at the end.
fn merge(levels: &mut Vec<u32>, left: Stretch, right: Stretch) -> Result<Stretch, NoMem>
    requires left { IsInside (length levels.old.items) left }
    requires right { IsInside (length levels.old.items) right }
    ensures kept { BeginsWith levels.new.items levels.old.items }
    ensures made { IfOk result (λ s. IsAt levels.new.items s (merged (stretch levels.old.items left.start left.end) (stretch levels.old.items right.start right.end))) }
{
    if is_same(left, right) {
        return Ok(left);
    }
    let start = levels.len();
    let (i, j) = copy_merged(levels, left, right)?;
    copy(levels, i, left.end)?;
    copy(levels, j, right.end)?;
    Ok(Stretch {
        start,
        end: levels.len(),
    })
}

fn is_same(left: Stretch, right: Stretch) -> bool
    ensures { result ≡ true → (left.start ≡ right.start) × (left.end ≡ right.end) }
{
    left.start == right.start && left.end == right.end
}

// Copies two rising stretches to the end, as one, up to the end of one of them; the answer says what is left of them.
fn copy_merged(
    levels: &mut Vec<u32>,
    left: Stretch,
    right: Stretch,
) -> Result<(usize, usize), NoMem>
    requires left { IsInside (length levels.old.items) left }
    requires right { IsInside (length levels.old.items) right }
    ensures kept { BeginsWith levels.new.items levels.old.items }
    ensures rest { IfOk result (λ rest. IsMergedUpTo levels.old.items levels.new.items left right rest.0 rest.1 × ((left.end ≤ rest.0) ⊎ (right.end ≤ rest.1))) }
{
    let mut i = left.start;
    let mut j = right.start;
    'both: while i < left.end && j < right.end {
        let a = levels[i];
        let b = levels[j];
        if a < b {
            levels.push(a)?;
            i += 1;
        } else if b < a {
            levels.push(b)?;
            j += 1;
        } else {
            levels.push(a)?;
            i += 1;
            j += 1;
        }
    }
    Ok((i, j))
}

// Copies a stretch to the end.
fn copy(levels: &mut Vec<u32>, start: usize, end: usize) -> Result<(), NoMem>
    requires forwards { start ≤ end }
    requires inside { end ≤ length levels.old.items }
    ensures kept { BeginsWith levels.new.items levels.old.items }
    ensures copied { OnOk result (levels.new.items ≡ levels.old.items ++ stretch levels.old.items start end) }
{
    for i in start..end {
        let level = levels[i];
        levels.push(level)?;
    }
    Ok(())
}
