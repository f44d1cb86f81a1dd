// Who makes links to servers.
ghost use Rattle.std.specs.Prelude.{◌≡◌, ◌≤◌, ◌+◌, ◌-◌, ◌^◌, ℕ, Bool, true, false, List, Option, min};
ghost use Rattle.blic_link.specs.Dialing.{Entry, Dials, DialCounts, HangsUp};

use crate::link::Link;

/// What dialing answered.
#[derive(Drop)]
pub enum Dialed<L> {
    Link(L),
    /// No link could be made.
    Failed,
}

/// Makes links, one at a time, and takes them back.
pub trait Dialer {
    type L: Link;

    /// An entry for each link that was hung up, in their order, if contracts can speak of them (if they
    /// are told).
    ghost entries: { Self → Option (List Entry) };

    /// How many calls have failed, those of the links that were hung up included.
    ghost faults: { Self → ℕ };

    /// How many dials have failed.
    ghost missed: { Self → ℕ };

    /// Whether a link was dialed and not yet hung up.
    ghost is_lent: { Self → Bool };

    /// Whether a link was dialed and not yet hung up.
    fn lent(&self) -> bool
        ensures { result ≡ is_lent self.now };

    /// Makes a link to the address. Nothing passed over it yet, and no call of it failed.
    fn dial(&mut self, address: &str) -> Dialed<Self::L>
        requires { is_lent self.old ≡ false }
        ensures link { Dials Self.L.is_usable Self.L.pieces Self.L.faults result }
        ensures cause { DialCounts (faults self.old) (faults self.new) (missed self.old) (missed self.new) (is_lent self.new) result }
        ensures same { entries self.new ≡ entries self.old };

    /// Takes the link back, and adds its faults to the count, which stops at 2^64 - 1. It takes no
    /// memory.
    fn hang_up(&mut self, link: Self::L)
        requires { is_lent self.old ≡ true }
        ensures free { is_lent self.new ≡ false }
        ensures entry { HangsUp (entries self.old) (entries self.new) (Self.L.pieces link) (Self.L.coming link) (Self.L.faults link) }
        ensures later { faults self.old ≤ faults self.new }
        ensures adds { faults self.new ≡ min (faults self.old + Self.L.faults link) (2 ^ 64 - 1) }
        ensures same { missed self.new ≡ missed self.old };
}
