// Runs of draws.
ghost use Rattle.std.specs.Prelude.{◌≡◌, ◌<◌, ◌≤◌, ◌+◌, ◌^◌};
ghost use Rattle.blic_draw.specs.DrawRun.{draw_from};

use crate::draws::Draws;
use blic_field::Fe;
use std::marker::Model;

/// The draws of a seed from one of them on. Contracts number them from 0.
#[derive(Drop)]
pub struct DrawRun {
    draws: Draws,
    first: u64,
}

impl Model for DrawRun {
    ghost use Rattle.std.specs.Prelude.{◌≤◌, ◌-◌, ◌^◌};
    ghost use Rattle.blic_draw.specs.DrawRun.{DrawsOf};

    ghost Value = { DrawsOf };

    ghost view = { λ r. record { source = record { seed = r.draws.seed; first = r.first }; place = r.draws.place - r.first } };

    ghost invariant = { λ r. (r.first ≤ r.draws.place) × (r.first ≤ 2 ^ 61) };
}

impl DrawRun {
    /// The draws of the seed from draw `first` on, which is at most 2^61.
    pub fn new(seed: [u8; 32], first: u64) -> DrawRun
        requires { first ≤ 2 ^ 61 }
        ensures { result ≡ record { source = record { seed = seed; first = first }; place = 0 } }
    {
        DrawRun {
            draws: Draws::at(seed, first),
            first,
        }
    }

    /// The next draw, whose number in the run is below 2^60.
    pub fn next(&mut self) -> Fe
        requires { self.old.place < 2 ^ 60 }
        ensures draw { result ≡ draw_from self.old.source self.old.place }
        ensures place { self.new ≡ record self.old { place = self.old.place + 1 } }
    {
        self.draws.next()
    }
}
