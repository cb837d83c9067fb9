// Parts of chains, and whole chains.
ghost use Rattle.std.specs.Prelude.{◌≡◌, ◌≤◌, ◌++◌, [], OnOk, Ok, Err};
ghost use Rattle.send_model.specs.Words.{Gen};
ghost use Rattle.sx_base.specs.Calls.{Caused, Wrote, Ends, SteadyIfDone};
ghost use Rattle.sx_base.specs.Outside.{AppendsPart};
ghost use Rattle.stream_gen.specs.Parts.{part_bytes};
ghost use Rattle.sx_base.specs.Bytes.{IsFront};

use crate::chain::Chain;
use std::alloc::{AllocError, Global};
use sx_base::{Blob, Outcome, Sink, write_whole};

/// Appends one part of a chain of `count` parts, a whole stream of version 1; parts are counted
/// from 1. The numbers for the parts before are drawn first. Without memory the blob begins with
/// the bytes that it had, and some of the part may stand behind them.
pub fn generate(
    alloc: Global,
    count: u64,
    seed: u64,
    part: u64,
    to: &mut Blob,
) -> Result<(), AllocError>
    requires first { 1 ≤ part }
    requires last { part ≤ count }
    ensures appended { OnOk result (to.new ≡ to.old ++ part_bytes seed part) }
    ensures kept { IsFront to.old to.new }
{
    let mut chain = Chain::new(alloc, seed);
    for _ in 1..part {
        chain.skip_part();
    }
    chain.next_part(to)
}

/// Writes a chain of so many parts, 1 to 4096, one after the other, each in one piece.
pub fn write_chain<O: Sink>(alloc: Global, count: u64, seed: u64, out: &mut O) -> Outcome
    requires some { 1 ≤ count }
    requires few { count ≤ 4_096 }
    ensures later { O.faults out.old ≤ O.faults out.new }
    ensures cause { Caused 0 0 (O.faults out.old) (O.faults out.new) result }
    ensures steady { SteadyIfDone (O.faults out.old) (O.faults out.new) result }
    ensures written { Wrote (O.taken out.old) (O.taken out.new)
        (λ written. Ends (Gen count seed) [] [] result written) }
{
    let mut chain = Chain::new(alloc, seed);
    let mut part = Blob::new(alloc);
    for _ in 0..count {
        part.clear();
        let Ok(()) = chain.next_part(&mut part) else {
            return Outcome::NoMemory;
        };
        let Ok(()) = write_whole(out, part.as_slice()) else {
            return Outcome::OutputFault;
        };
    }
    Outcome::Done
}
