// The limits of circuits: claims on a binary node, and points.
ghost use Rattle.std.specs.Prelude.{◌≡◌, ◌≤◌, length, sum_by, IfOk, MatchOption, slice_index};
ghost use Rattle.blic_model.specs.Counts.{points as points_of};
ghost use Rattle.blic_model.specs.Circuit.{below};
ghost use Rattle.blic_model.specs.CircuitLimits.{FewClaimsFrom, IsGreatestOver};
ghost use Rattle.blic_model.specs.CircuitTables.{IsTabled, HasLevels, HasClaims, points_at};
ghost use Rattle.blic_model.specs.LevelLists.{free_lists};
ghost use Rattle.blic_model.specs.LevelSets.{levels_from};

use crate::free_levels::free_levels_within;
use crate::level_lists::LevelLists;
use crate::level_set::LevelSet;
use crate::level_sets::LevelSets;
use crate::node::Node;
use blic_basic::NoMem;
use std::alloc::Global;

pub const MOST_CLAIMS: u32 = 65_536;

pub const MOST_POINTS: u64 = 16_777_216;

/// Free levels are listed to count points if no more than this many levels are stored: twice the points that a
/// circuit may have.
const MOST_LISTED: usize = 33_554_432;

/// The greatest binary node past the limit on claims.
pub(crate) fn greatest_over(nodes: &[Node], counts: &[u32]) -> Option<u32>
    requires claims { HasClaims nodes.now counts.now }
    requires few { length nodes.now ≤ 4194304 }
    ensures { MatchOption result (FewClaimsFrom nodes.now 0) (λ k. IsGreatestOver nodes.now k (slice_index counts.now k)) }
{
    for i in (0..nodes.len()).rev() {
        if nodes[i].is_binary() && MOST_CLAIMS < counts[i] {
            return Some(i as u32);
        }
    }
    None
}

/// The number of points. It takes memory for each node, and for 33,554,432 levels in lists at most.
pub(crate) fn count_points(
    alloc: Global,
    nodes: &[Node],
    counts: &[u32],
    levels: usize,
) -> Result<u64, NoMem>
    requires nodes { IsTabled nodes.now }
    requires levels { HasLevels nodes.now levels }
    requires claims { HasClaims nodes.now counts.now }
    ensures { IfOk result (λ count. count ≡ points_of nodes.now levels) }
{
    match free_levels_within(alloc, nodes, MOST_LISTED)? {
        Some(lists) => Ok(count_listed(nodes, counts, levels, &lists)),
        None => count_in_parts(alloc, nodes, counts, levels),
    }
}

// The number of points, from the lists of free levels.
fn count_listed(nodes: &[Node], counts: &[u32], levels: usize, lists: &LevelLists) -> u64
    requires nodes { IsTabled nodes.now }
    requires levels { HasLevels nodes.now levels }
    requires claims { HasClaims nodes.now counts.now }
    requires lists { lists.now ≡ free_lists nodes.now levels (length nodes.now) }
    ensures { result ≡ points_of nodes.now levels }
{
    let mut points = 0;
    for (k, node) in nodes.iter().enumerate() {
        if node.is_binary() {
            points += u64::from(counts[k]) * lists.len(k) as u64;
        }
    }
    points
}

// The number of points, counted for 256 levels at a time: it takes memory for each node alone.
fn count_in_parts(
    alloc: Global,
    nodes: &[Node],
    counts: &[u32],
    levels: usize,
) -> Result<u64, NoMem>
    requires nodes { IsTabled nodes.now }
    requires levels { HasLevels nodes.now levels }
    requires claims { HasClaims nodes.now counts.now }
    ensures { IfOk result (λ count. count ≡ points_of nodes.now levels) }
{
    let mut sets = LevelSets::new(alloc, nodes.len())?;
    let mut points = 0;
    let mut first = 0;
    while first < levels as u64 {
        points += count_within(nodes, counts, &mut sets, first);
        first += LevelSet::ROOM;
    }
    Ok(points)
}

// The number of points at 256 levels from the first one on.
fn count_within(nodes: &[Node], counts: &[u32], sets: &mut LevelSets, first: u64) -> u64
    requires nodes { IsTabled nodes.now }
    requires claims { HasClaims nodes.now counts.now }
    requires long { length sets.old ≡ length nodes.now }
    requires first { first ≤ 4294967296 }
    ensures count { result ≡ sum_by (points_at nodes.now (levels_from first 256)) (below (length nodes.now)) }
    ensures long { length sets.new ≡ length nodes.now }
{
    sets.fill(nodes, first);
    let mut points = 0;
    for (k, node) in nodes.iter().enumerate() {
        if node.is_binary() {
            points += u64::from(counts[k]) * u64::from(sets.get(k).len());
        }
    }
    points
}
