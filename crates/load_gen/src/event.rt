ghost use Rattle.std.specs.Prelude.{◌≡◌, ◌≤◌};
ghost use Rattle.generator_model.specs.Generated.{event_with, next_number};
ghost use Rattle.event_script.specs.Views.{event_view, IsEvent};

use billing_memory::Day;
use event_script::Event;

/// The factor of the generator.
const FACTOR: u64 = 6_364_136_223_846_793_005;

/// The summand of the generator.
const SUMMAND: u64 = 1_442_695_040_888_963_407;

/// The number of 2024-01-15.
const FIRST_DAY: u16 = 8_780;

const EVENTS_PER_DAY: u32 = 1_000;

const EVENTS_PER_SAMPLE: u32 = 10;

/// The number of the generator after `number`.
#[tactic(auto, using(crate::proofs::Steps::wrapped))]
pub(crate) fn next_number(number: u64) -> u64
    ensures { result ≡ next_number number }
{
    number.wrapping_mul(FACTOR).wrapping_add(SUMMAND)
}

/// The event in the place `i`, with its draw.
#[tactic(auto, using(crate::proofs::Steps::first_day))]
pub(crate) fn event_with(i: u32, draw: u32) -> Event
    requires { i ≤ 1000000 }
    ensures event { event_view result ≡ event_with i draw }
    ensures range { IsEvent result }
{
    if i % EVENTS_PER_DAY == 0 {
        let number = FIRST_DAY + (i / EVENTS_PER_DAY) as u16;
        Event::Date {
            day: Day { number },
        }
    } else if i % EVENTS_PER_SAMPLE == 1 {
        Event::Sample {
            rf: 600_000_000 + draw % 200_000_000,
            rr: 510_000_000 + draw % 80_000_000,
        }
    } else {
        Event::Pulse {
            n: 1 + u64::from(draw % 9),
        }
    }
}
