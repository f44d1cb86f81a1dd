// Sums over the first nodes of a circuit.
ghost use Rattle.std.specs.Prelude.{◌≡◌, ◌+◌, IfOk};
ghost use Rattle.blic_claims.specs.Counters.{both_totals, totals_of};

use blic_basic::NoMem;
use blic_model::Node;

/// The coordinates and the claims of nodes, and the points, draws and replies for the binary ones.
#[derive(Clone, Copy)]
pub(crate) struct Totals {
    pub(crate) coordinates: u64,
    pub(crate) claims: u64,
    pub(crate) points: u64,
    pub(crate) draws: u64,
    pub(crate) replies: u64,
}

impl Totals {
    /// The sums over no node.
    pub(crate) const NONE: Totals = Totals {
        coordinates: 0,
        claims: 0,
        points: 0,
        draws: 0,
        replies: 0,
    };

    /// The sums over one node, with so many claims and free levels.
    pub(crate) fn of(claims: u32, width: u32, node: Node) -> Totals
        ensures { result ≡ totals_of claims width node }
    {
        let coordinates = u64::from(claims) * u64::from(width);
        let binary = node.is_binary();
        Totals {
            coordinates,
            claims: u64::from(claims),
            points: if binary { coordinates } else { 0 },
            draws: if binary { u64::from(width) } else { 0 },
            replies: if binary { u64::from(width) + 1 } else { 0 },
        }
    }

    /// The sums over both.
    pub(crate) fn plus(self, other: Totals) -> Result<Totals, NoMem>
        ensures { IfOk result (λ sums. sums ≡ both_totals self other) }
    {
        Ok(Totals {
            coordinates: sum(self.coordinates, other.coordinates)?,
            claims: sum(self.claims, other.claims)?,
            points: sum(self.points, other.points)?,
            draws: sum(self.draws, other.draws)?,
            replies: sum(self.replies, other.replies)?,
        })
    }
}

fn sum(a: u64, b: u64) -> Result<u64, NoMem>
    ensures { IfOk result (λ sum. sum ≡ a + b) }
{
    a.checked_add(b).ok_or(NoMem)
}
