ghost use Rattle.std.specs.Prelude.{◌≡◌, ◌+◌, ◌<◌, ◌≤◌, ◌↔◌, IsSome, IfSome, min};
ghost use Rattle.generator_model.specs.Generated.{number_at, event_at};
ghost use Rattle.event_script.specs.Views.{event_view, IsEvent};

use crate::event::{event_with, next_number};
use event_script::Event;

/// The first `count` events, at most a million, that `seed` generates.
///
/// With x(0) the seed, x(i) = (6364136223846793005 x(i-1) + 1442695040888963407) mod 2^64 and u the upper 32 bits of
/// x(i), event i, from 1 on, is
/// - the day i / 1000 after 2024-01-15, where 1000 divides i,
/// - else the samples 600000000 + u mod 200000000 in the flow and 510000000 + u mod 80000000 in the return, in
///   microohms, where i mod 10 is 1,
/// - else 1 + u mod 9 pulses.
#[derive(Debug, PartialEq, Eq, Drop)]
pub struct Script {
    pub seed: u64,
    pub count: u32,
    /// How many of the events were given.
    pub given: u32,
    /// The generator's number at the last event that was given.
    number: u64,
    pub ghost bounded: { count ≤ 1000000 },
    pub ghost within: { given ≤ count },
    pub ghost at: { number ≡ number_at seed given },
}

impl Script {
    /// The script of a seed, of which no event was given.
    #[tactic(auto, using(crate::proofs::Steps::first_number))]
    pub fn from_number(seed: u64, count: u32) -> Script
        requires { count ≤ 1000000 }
        ensures seed { result.seed ≡ seed }
        ensures count { result.count ≡ count }
        ensures given { result.given ≡ 0 }
    {
        Script {
            seed,
            count,
            given: 0,
            number: seed,
        }
    }

    /// The next event, and None exactly where all of them were given.
    #[tactic(auto, using(crate::proofs::Steps::later_number, crate::proofs::Steps::drawn))]
    pub fn next_event(&mut self) -> Option<Event>
        ensures some { IsSome result ↔ (self.old.given < self.old.count) }
        ensures event { IfSome result
            (λ event. event_view event ≡ event_at self.old.seed (self.old.given + 1)) }
        ensures range { IfSome result IsEvent }
        ensures given { self.new.given ≡ min (self.old.given + 1) self.old.count }
        ensures seed { self.new.seed ≡ self.old.seed }
        ensures count { self.new.count ≡ self.old.count }
    {
        if self.given == self.count {
            return None;
        }
        self.given += 1;
        self.number = next_number(self.number);
        Some(event_with(self.given, (self.number >> 32) as u32))
    }
}
