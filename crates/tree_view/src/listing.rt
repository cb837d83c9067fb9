// Listing the subvolumes of a store.
ghost use Rattle.std.specs.Prelude.{◌≤◌};
ghost use Rattle.store_model.specs.StoreLines.{listed};
ghost use Rattle.sx_base.specs.Calls.{Wrote, SteadyIfDone};
ghost use Rattle.sx_base.specs.Later.{OutputLater};
ghost use Rattle.tree_view.specs.Printing.{AddsText, output, Prints, PrintCaused};

use crate::writing::write_entry;
use std::alloc::Global;
use stream_dump::{Gathered, finish};
use subvol_catalog::Catalog;
use sx_base::{Outcome, Sink};

/// Writes a line for each entry in the order in which they began: its name, its key, whether it is
/// complete, and the key of its parent. With `Done` `out` got all lines; where it failed, or there
/// was no memory, a front part of them.
pub fn list<V, O: Sink>(alloc: Global, catalog: &Catalog<V>, out: &mut O) -> Outcome
    ensures later { O.faults out.old ≤ O.faults out.new }
    ensures steady { SteadyIfDone (O.faults out.old) (O.faults out.new) result }
    ensures cause { PrintCaused (O.faults out.old) (O.faults out.new) result }
    ensures listed { Wrote (O.taken out.old) (O.taken out.new)
        (Prints (listed catalog.now) result) }
{
    let mut text = Gathered::new(alloc);
    match write_entries(catalog, &mut text, out) {
        Ok(()) => finish(&mut text, out, Outcome::Done),
        Err(outcome) => outcome,
    }
}

// Writes the lines of all entries.
fn write_entries<V, O: Sink>(
    catalog: &Catalog<V>,
    text: &mut Gathered,
    out: &mut O,
) -> Result<(), Outcome>
    ensures out { OutputLater O.Sink out.old out.new result }
    ensures added { AddsText (listed catalog.now) (output O.Sink out.old text.old.bytes)
        (output O.Sink out.new text.new.bytes) result }
{
    for entry in catalog.iter() {
        write_entry(entry, text, out)?;
    }
    Ok(())
}
