// A chain of parts, made one after the other.
ghost use Rattle.std.specs.Prelude.{◌≡◌, ◌+◌, ◌<◌, ◌++◌, ◌^◌, OnOk, OnErr, IfOk};
ghost use Rattle.stream_gen.specs.Parts.{Made, part_bytes, number_at};
ghost use Rattle.sx_base.specs.Bytes.{IsFront};

use crate::commands::uuid_of;
use crate::draws::draw;
use crate::parts::{push_first_part, push_later_part};
use std::alloc::{AllocError, Global};
use std::marker::Model;
use sx_base::Blob;

/// A chain of which some parts are made. It is seen as the number that it is made from, and how
/// many parts are made.
#[derive(Debug, Drop)]
pub struct Chain {
    alloc: Global,
    seed: u64,
    parts: u64,
    number: u64,
}

impl Model for Chain {
    ghost use Rattle.std.specs.Prelude.{◌≡◌};
    ghost use Rattle.stream_gen.specs.Parts.{Made, number_at};

    ghost Value = { Made };

    ghost view = { λ c. record { seed = c.seed; parts = c.parts } };

    ghost invariant = { λ c. c.number ≡ number_at c.seed c.parts };
}

impl Chain {
    /// A chain of which no part is made. Takes no memory.
    pub fn new(alloc: Global, seed: u64) -> Chain
        ensures start { result ≡ record { seed = seed; parts = 0 } }
    {
        Chain {
            alloc,
            seed,
            parts: 0,
            number: seed,
        }
    }

    /// Appends the next part, a whole stream. Without memory the chain is unchanged, and the blob
    /// begins with the bytes that it had; some of the part may stand behind them.
    pub fn next_part(&mut self, to: &mut Blob) -> Result<(), AllocError>
        requires room { self.old.parts + 1 < 2 ^ 64 }
        ensures appended { OnOk result
            (to.new ≡ to.old ++ part_bytes self.old.seed (self.old.parts + 1)) }
        ensures kept { IsFront to.old to.new }
        ensures next { OnOk result
            (self.new ≡ record { seed = self.old.seed; parts = self.old.parts + 1 }) }
        ensures same { OnErr result (self.new ≡ self.old) }
    {
        let number = push_part(self.alloc, self.seed, self.parts, self.number, to)?;
        self.number = number;
        self.parts += 1;
        Ok(())
    }

    /// Goes past the next part without making it. Takes no memory.
    pub fn skip_part(&mut self)
        requires room { self.old.parts + 1 < 2 ^ 64 }
        ensures next { self.new ≡ record { seed = self.old.seed; parts = self.old.parts + 1 } }
    {
        self.number = number_past(self.seed, self.parts, self.number);
        self.parts += 1;
    }
}

// Appends the part after so many parts, and gives the number that stands behind it.
fn push_part(
    alloc: Global,
    seed: u64,
    parts: u64,
    number: u64,
    to: &mut Blob,
) -> Result<u64, AllocError>
    requires room { parts + 1 < 2 ^ 64 }
    requires number { number ≡ number_at seed parts }
    ensures appended { OnOk result (to.new ≡ to.old ++ part_bytes seed (parts + 1)) }
    ensures kept { IsFront to.old to.new }
    ensures next { IfOk result (λ next. next ≡ number_at seed (parts + 1)) }
{
    if parts == 0 {
        push_first_part(alloc, uuid_of(seed, 1), to)?;
        return Ok(number);
    }
    let drawn = draw(number);
    let uuid = uuid_of(seed, parts + 1);
    push_later_part(alloc, uuid, uuid_of(seed, parts), parts + 1, &drawn, to)?;
    Ok(drawn.number)
}

// The number that stands behind the part after so many parts.
fn number_past(seed: u64, parts: u64, number: u64) -> u64
    requires room { parts + 1 < 2 ^ 64 }
    requires number { number ≡ number_at seed parts }
    ensures next { result ≡ number_at seed (parts + 1) }
{
    if parts == 0 {
        return number;
    }
    draw(number).number
}
