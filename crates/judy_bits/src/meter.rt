//! A count of visits.

ghost use Rattle.std.specs.Prelude.{◌≡◌, ◌+◌, ◌-◌, ◌^◌, ◌<◌, ℕ};

use judy_unmetered::Unmetered;
use std::marker::Model;

/// How many nodes a call has entered. A meter has no copy, so that none is set back to one made before.
#[derive(Debug, PartialEq, Eq, Drop)]
pub struct Meter {
    count: u64,
}

impl Model for Meter {
    ghost Value = { ℕ };

    ghost view = { λ a. a.count };

    ghost inverse = { λ visits. record { count = visits } };
}

impl Meter {
    /// A meter with no visits so far, apart from all others: so it takes leave.
    pub fn new(_leave: Unmetered) -> Meter
        ensures { result ≡ 0 }
    {
        Meter { count: 0 }
    }

    /// The visits so far.
    pub fn visits(&self) -> u64
        ensures { result ≡ self.now }
    {
        self.count
    }

    /// One visit more; there are fewer than `u64::MAX` so far.
    pub fn tick(&mut self)
        requires { self.old < 2 ^ 64 - 1 }
        ensures { self.new ≡ self.old + 1 }
    {
        self.count += 1;
    }
}
