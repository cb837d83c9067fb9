// Scrubbing a store.
ghost use Rattle.std.specs.Prelude.{◌≡◌, ◌≤◌, ◌++◌, OnOk, IfOk, ℕ, List, []};
ghost use Rattle.send_model.specs.Answer.{and_number};
ghost use Rattle.store_model.specs.Scrub.{scrub_line};
ghost use Rattle.store_model.specs.NamedFiles.{unnamed};
ghost use Rattle.store_model.specs.Requests.{ScrubStore, at_entry};
ghost use Rattle.store_model.specs.Answers.{Answers};
ghost use Rattle.sx_base.specs.Calls.{Wrote};
ghost use Rattle.sx_base.specs.Crash.{LeavesOnly};
ghost use Rattle.sx_base.specs.Disk.{IsImage};
ghost use Rattle.store_commands.specs.Ending.{answer_of, scrub_ways, PrintingCaused};

use crate::ends::{StoreEnd, ended_scrub};
use std::alloc::{AllocError, Global};
use store_scrub::{Scrub, scrub};
use stream_dump::push_decimal;
use sx_base::{Blob, Disk, Outcome, Sink, write_whole};

/// Reads all groups of a store, compares their checksums, and writes how many they are and how many
/// have none. What the disk gives stays as it is.
pub fn scrub_store<D: Disk, O: Sink>(alloc: Global, disk: &mut D, out: &mut O) -> StoreEnd
    ensures answered { D.tells → Wrote (O.taken out.old) (O.taken out.new)
        (λ written. (words : List (List ℕ)) (store : ℕ)
        → Answers (ScrubStore store) (at_entry words (D.seen disk.old) (unnamed []))
        (answer_of [] [] result) written (D.seen disk.new)) }
    ensures cause { PrintingCaused scrub_ways
        (D.faults disk.old) (D.faults disk.new) (O.faults out.old) (O.faults out.new) result }
    ensures len { D.len disk.new ≡ D.len disk.old }
    ensures seen { D.tells → D.seen disk.new ≡ D.seen disk.old }
    ensures any_moment { D.tells →
        LeavesOnly D.moment D.left_since disk.old disk.new (IsImage (D.pending disk.old)) }
    ensures later { D.faults disk.old ≤ D.faults disk.new }
    ensures out_later { O.faults out.old ≤ O.faults out.new }
{
    let found = match scrub(disk) {
        Ok(found) => found,
        Err(stop) => return ended_scrub(stop),
    };
    let Ok(line) = scrub_line(alloc, found) else {
        return StoreEnd::Ends(Outcome::NoMemory);
    };
    match write_whole(out, line.as_slice()) {
        Ok(()) => StoreEnd::Ends(Outcome::Done),
        Err(_) => StoreEnd::Ends(Outcome::OutputFault),
    }
}

// The line of what was found.
fn scrub_line(alloc: Global, found: Scrub) -> Result<Blob, AllocError>
    ensures line { IfOk result (λ line. line ≡ scrub_line found.groups found.unsealed) }
{
    let mut line = Blob::new(alloc);
    line.push_all(b"scrub")?;
    push_number(found.groups, &mut line)?;
    push_number(found.unsealed, &mut line)?;
    line.push_all(b"\n")?;
    Ok(line)
}

// A number in decimal digits, after a space.
fn push_number(n: u64, to: &mut Blob) -> Result<(), AllocError>
    ensures pushed { OnOk result (to.new ≡ to.old ++ and_number n) }
{
    to.push_all(b" ")?;
    push_decimal(n, to)
}
