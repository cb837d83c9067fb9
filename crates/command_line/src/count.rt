// How many parts a chain has.
ghost use Rattle.std.specs.Prelude.{◌≡◌, ◌≤◌};
ghost use Rattle.command_line.specs.Given.{count_in};

use std::marker::Model;

// The most parts of a chain.
const MOST_PARTS: u64 = 4_096;

/// How many parts a chain has: 1 to 4,096.
#[derive(Debug, Clone, Copy, PartialEq, Eq)]
pub struct Count {
    number: u64,
}

impl Model for Count {
    ghost use Rattle.std.specs.Prelude.{ℕ, ◌≤◌};

    ghost Value = { ℕ };

    ghost view = { λ c. c.number };

    ghost inverse = { λ number. record { number = number } };

    ghost invariant = { λ c. (1 ≤ c.number) × (c.number ≤ 4_096) };
}

impl Count {
    /// This number; `None` exactly where it is no such number.
    pub fn of(number: u64) -> Option<Count>
        ensures { result ≡ count_in number }
    {
        if number == 0 || number > MOST_PARTS {
            return None;
        }
        Some(Count { number })
    }

    /// The number.
    pub fn number(self) -> u64
        ensures number { result ≡ self }
        ensures least { 1 ≤ result }
        ensures most { result ≤ 4_096 }
    {
        self.number
    }
}
