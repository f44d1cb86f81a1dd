// Pairs as they are kept.
ghost use Rattle.std.specs.Prelude.{◌≡◌, ◌+◌, ◌*◌, ◌<◌, IfSome};
ghost use Rattle.blic_graph.specs.Packing.{IsPackable, side_from};

use crate::pair::Side;
use blic_store::Ref;

/// Numbers from here on have no room in a side.
pub(crate) const ROOM: u32 = 536870912;

/// A pair in 20 bytes.
#[derive(Clone, Copy)]
pub(crate) struct Packed {
    pub level: u32,
    pub first: Ref,
    pub second: Ref,
    pub low: u32,
    pub high: u32,
}

/// The side in 4 bytes: the number of a pair, or by the top bits which of the two functions is
/// constant, and the number of the other one. `None` if that has no room.
pub(crate) fn pack(side: &Side) -> Option<u32>
    requires { IsPackable side.now }
    ensures { IfSome result (λ code. side_from code ≡ side.now) }
{
    match *side {
        Side::Pair(k) => tagged(0, k),
        Side::Done(first, second) => {
            if first == Ref::FALSE {
                tagged(1, second.number())
            } else if first == Ref::TRUE {
                tagged(2, second.number())
            } else if second == Ref::FALSE {
                tagged(3, first.number())
            } else {
                tagged(4, first.number())
            }
        }
    }
}

// The number under a tag.
fn tagged(tag: u32, number: u32) -> Option<u32>
    requires { tag < 5 }
    ensures { IfSome result (λ code. (code ≡ tag * 536870912 + number) × (number < 536870912)) }
{
    if number < ROOM {
        Some(tag * ROOM + number)
    } else {
        None
    }
}

/// The side of a code.
pub(crate) fn unpack(code: u32) -> Side
    ensures { result ≡ side_from code }
{
    if code < ROOM {
        Side::Pair(code)
    } else if code < 2 * ROOM {
        Side::Done(Ref::FALSE, Ref::numbered(code - ROOM))
    } else if code < 3 * ROOM {
        Side::Done(Ref::TRUE, Ref::numbered(code - 2 * ROOM))
    } else if code < 4 * ROOM {
        Side::Done(Ref::numbered(code - 3 * ROOM), Ref::FALSE)
    } else {
        Side::Done(Ref::numbered(code - 4 * ROOM), Ref::TRUE)
    }
}
