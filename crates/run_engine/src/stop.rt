//! How the answer to a line ends a run.
ghost use Rattle.std.specs.Prelude.{◌≡◌};

use crate::Ended;
use event_script::LineFault;
use register_store::Unreadable;

/// Why a cut could not be ordered, or its order not be told.
#[derive(Clone, Copy)]
pub(crate) enum OrderFault {
    /// The memory failed.
    Memory,
    /// The output failed.
    Write,
}

/// What the board did not let through.
#[derive(Clone, Copy)]
pub(crate) enum Halt {
    /// The memory could not be read, or did not hold what it was given.
    Unread(Unreadable),
    /// The output failed.
    Write,
}

/// How the answer to a line ends a run.
#[derive(Clone, Copy)]
pub(crate) enum Stop {
    /// The line is refused.
    Refused(LineFault),
    /// The board failed.
    Halted(Halt),
}

impl From<Unreadable> for Ended {
    ghost use Rattle.run_engine.specs.Stops.{ended_unread};

    ghost from_gives = { λ fault ended. ended ≡ ended_unread fault };

    fn from(fault: Unreadable) -> Self {
        match fault {
            Unreadable::Unformatted { byte } => Ended::Unformatted { byte },
            Unreadable::Foreign { at } => Ended::Foreign { at },
            Unreadable::Memory => Ended::Memory,
        }
    }
}

impl From<Halt> for Ended {
    ghost use Rattle.run_engine.specs.Stops.{ended_halted};

    ghost from_gives = { λ halt ended. ended ≡ ended_halted halt };

    fn from(halt: Halt) -> Self {
        match halt {
            Halt::Unread(fault) => Ended::from(fault),
            Halt::Write => Ended::Write,
        }
    }
}

impl From<OrderFault> for Stop {
    ghost use Rattle.run_engine.specs.Stops.{stop_of_order};

    ghost from_gives = { λ fault stop. stop ≡ stop_of_order fault };

    fn from(fault: OrderFault) -> Self {
        match fault {
            OrderFault::Memory => Stop::Halted(Halt::Unread(Unreadable::Memory)),
            OrderFault::Write => Stop::Halted(Halt::Write),
        }
    }
}

impl Stop {
    ghost use Rattle.run_engine.specs.Stops.{ended_by};

    /// How a run ends whose `n`-th line ends it so.
    pub(crate) fn ended(self, n: u32) -> Ended
        ensures { result ≡ ended_by n self }
    {
        match self {
            Stop::Refused(kind) => Ended::Line { n, kind },
            Stop::Halted(halt) => Ended::from(halt),
        }
    }
}
