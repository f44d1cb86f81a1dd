// Who waits for links of clients.
ghost use Rattle.std.specs.Prelude.{◌≡◌, ℕ, Bool};
ghost use Rattle.blic_link.specs.Accepting.{Listens, ListenCounts, Accepts, AcceptCounts};

use crate::link::Link;
use blic_basic::Listed;

/// What listening answered.
#[derive(Clone, Copy, Debug, PartialEq, Eq)]
pub enum Listened {
    Ready,
    /// Nobody listens at the address.
    Failed,
}

/// What waiting for a client answered.
#[derive(Drop)]
pub enum Accepted<L> {
    Link(L),
    /// No link could be had. This one can't be used.
    Failed(L),
}

/// Takes links of clients, one at a time. Whether listening, and whether accepting, may fail are
/// two facts of the type. A call that failed shows its own, and nothing else does.
pub trait Acceptor: Listed + Drop {
    type L: Link;

    /// Whether listening may fail at all.
    ghost listening_may_fail: { Bool };

    /// Whether accepting may fail at all.
    ghost accepting_may_fail: { Bool };

    /// How many calls have failed.
    ghost faults: { Self → ℕ };

    /// Begins to listen at the address.
    fn listen(&mut self, address: &str) -> Listened
        ensures may { Listens result listening_may_fail }
        ensures cause { ListenCounts (faults self.old) (faults self.new) result };

    /// Waits for the next client, and takes its link. Nothing passed over it yet, and no call of it
    /// failed, also if it can't be used.
    fn next(&mut self) -> Accepted<Self::L>
        ensures link { Accepts Self.L.is_usable Self.L.pieces Self.L.faults result accepting_may_fail }
        ensures cause { AcceptCounts (faults self.old) (faults self.new) result };
}
