// Writes to the elements of points.
ghost use Rattle.std.specs.Prelude.{◌≡◌, ◌<◌, ◌≤◌, ◌+◌, ◌*◌, ◌⊎◌, ℕ, length, slice_index};
ghost use Rattle.blic_claims.specs.Elements.{column, levels_of, point_from, fixed_bit, fixed_point, HasPointAt, StaysOutside, StandsFrom, Covers};

use crate::layout::Row;
use blic_field::Fe;
use blic_model::Circuit;

/// Where the point of a claim on a node starts.
#[derive(Clone, Copy)]
pub(crate) struct Place {
    pub(crate) node: u32,
    pub(crate) start: usize,
}

/// A level that is fixed.
#[derive(Clone, Copy)]
pub(crate) struct Fixed {
    pub(crate) level: u32,
    pub(crate) bit: bool,
}

/// Element `j` of each claim of the row becomes r.
pub(crate) fn set_column(elements: &mut [Fe], row: Row, j: usize, r: Fe)
    requires room { row.start + row.claims * row.width ≤ length elements.old }
    requires inside { j < row.width }
    ensures { elements.new ≡ column row.start row.width j r row.claims elements.old }
{
    for c in 0..row.claims as usize {
        elements[row.start + (c * row.width as usize + j)] = r;
    }
}

/// Copies a point, with the level fixed, to one on a child. The free levels of both nodes rise, so
/// one walk along both finds where each element comes from.
pub(crate) fn copy_point(
    elements: &mut [Fe],
    circuit: &Circuit,
    from: Place,
    to: Place,
    fixed: Option<Fixed>,
)
    requires from_node { from.node < length circuit.now.nodes }
    requires to_node { to.node < length circuit.now.nodes }
    requires source { from.start + length (levels_of circuit.now from.node) ≤ length elements.old }
    requires room { to.start + length (levels_of circuit.now to.node) ≤ length elements.old }
    requires apart { (from.start + length (levels_of circuit.now from.node) ≤ to.start) ⊎ (to.start + length (levels_of circuit.now to.node) ≤ from.start) }
    requires covered { Covers (levels_of circuit.now from.node) fixed (levels_of circuit.now to.node) }
    ensures written { HasPointAt elements.new to.start (fixed_point fixed (point_from (levels_of circuit.now from.node) from.start elements.old)) (levels_of circuit.now to.node) }
    ensures kept { StaysOutside to.start (length (levels_of circuit.now to.node)) elements.old elements.new }
{
    let mut j = 0;
    for i in 0..circuit.free_count(to.node) {
        let level = circuit.free_at(to.node, i);
        let element = match bit_at(fixed, level) {
            Some(bit) => Fe::from_bit(bit),
            None => {
                j = place_of(circuit, from.node, level, j);
                elements[from.start + j as usize]
            }
        };
        elements[to.start + i as usize] = element;
    }
}

// The bit of a level, if it is the one that is fixed.
fn bit_at(fixed: Option<Fixed>, level: u32) -> Option<bool>
    ensures { result ≡ fixed_bit fixed level }
{
    match fixed {
        Some(f) if level == f.level => Some(f.bit),
        _ => None,
    }
}

// The place of a level among the free levels of a node, from place `j` on.
fn place_of(circuit: &Circuit, node: u32, level: u32, j: u32) -> u32
    requires node { node < length circuit.now.nodes }
    requires stands { StandsFrom j (levels_of circuit.now node) level }
    ensures behind { j ≤ result }
    ensures inside { result < length (levels_of circuit.now node) }
    ensures level { slice_index (levels_of circuit.now node) result ≡ level }
{
    circuit.is_within_limits();
    let mut place = j;
    while circuit.free_at(node, place) != level {
        place += 1;
    }
    place
}
