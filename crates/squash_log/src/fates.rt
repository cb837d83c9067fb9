// The fates of WRITE commands.
ghost use Rattle.std.specs.Prelude.{◌≡◌, ◌<◌, ◌^◌, ◌+◌, ◌-◌, ℕ, List, [], ◌∷◌, ◌++◌, ◌&&◌, Bool, not, length, drop, nat_lt, OnOk, IfOk, MatchOption};
ghost use Rattle.std.specs.List.{list_all, range_with_len};
ghost use Rattle.std.specs.Option.{option_to_list};
ghost use Rattle.squash_log.specs.Cells.{cell_lives, lives_in, lives_from};
ghost use Rattle.squash_log.specs.Fates.{spans, own_fate, fate_in, fate_by, fates_of, fate_meant};
ghost use Rattle.squash_log.specs.Stacks.{IsMarked, AreMarked, grown};

use crate::change::{Change, FileRange};
use crate::fate::{Fate, Span};
use crate::lives::{Ended, Files, go_back};
use crate::log::Log;
use extent_map::{Extents, Nowhere};
use std::alloc::{AllocError, Global};
use std::collections::BTreeMap;
use std::marker::Model;

// What lives of a WRITE, where its stretches are kept with those of others.
#[derive(Debug, Clone, Copy)]
pub(crate) enum Mark {
    // All of its bytes.
    Whole,
    // So many stretches; and whether its file has to be made longer beside them.
    Parts { count: u64, lengthens: bool },
}

/// The fates of the WRITE commands of a part, in their order. It is kept as two stacks, and takes
/// 16 bytes for each WRITE, and as many for each stretch of one that does not live as a whole.
#[derive(Debug, Drop)]
pub struct Fates {
    marks: Vec<Mark>,
    spans: Vec<Span>,
}

impl Model for Fates {
    ghost use Rattle.std.specs.Prelude.{◌≡◌, List, length};
    ghost use Rattle.squash_log.specs.Fates.{Fate as Meant};
    ghost use Rattle.squash_log.specs.Stacks.{unstacked, all_counts};

    ghost Value = { List Meant };

    ghost view = { λ f. unstacked f.marks.items f.spans.items };

    ghost invariant = { λ f. all_counts f.marks.items ≡ length f.spans.items };
}

/// What lives of each WRITE of a log, where it is known which files are there in the end, of each
/// of which all bytes live then. It goes through the log from its end, and gives the log's memory
/// back on the way. Fails for want of memory alone.
pub fn find_fates<E: Ended>(alloc: Global, log: Log, ended: &E) -> Result<Fates, AllocError>
    ensures { IfOk result (λ fates. fates ≡ fates_of log (λ i place. E.there ended.now i)) }
{
    let mut log = log;
    let mut files: Files = BTreeMap::new(alloc);
    let mut marks = Vec::new(alloc);
    let mut spans = Vec::new(alloc);
    while let Some(change) = log.pop() {
        mark_change(ended, &files, &change, &mut marks, &mut spans)?;
        go_back(alloc, ended, &mut files, &change)?;
    }
    Ok(Fates { marks, spans })
}

// Marks a WRITE; other changes have no mark.
fn mark_change<E: Ended>(
    ended: &E,
    files: &Files,
    change: &Change,
    marks: &mut Vec<Mark>,
    spans: &mut Vec<Span>,
) -> Result<(), AllocError>
    ensures { OnOk result (AreMarked (own_fate change.now (lives_in (E.there ended.now) files.now))
        marks.old.items marks.new.items spans.old.items spans.new.items) }
{
    if let Change::Wrote(range) = change {
        let mark = mark_range(ended, files, range, spans)?;
        marks.push(mark)?;
    }
    Ok(())
}

// The mark of a WRITE to a range, whose stretches are put behind the others.
fn mark_range<E: Ended>(
    ended: &E,
    files: &Files,
    range: &FileRange,
    spans: &mut Vec<Span>,
) -> Result<Mark, AllocError>
    ensures { IfOk result
        (IsMarked (fate_in range.now (lives_in (E.there ended.now) files.now)) spans.old.items
        spans.new.items) }
{
    let Some(cells) = files.get(&range.ino) else {
        if range.len == 0 {
            return Ok(Mark::Whole);
        }
        if ended.is_there(range.ino) {
            return Ok(Mark::Whole);
        }
        return Ok(Mark::Parts {
            count: 0,
            lengthens: is_longer(range),
        });
    };
    mark_cells(cells, range, spans)
}

// The same by the cells of the file.
fn mark_cells(
    cells: &Extents<Nowhere>,
    range: &FileRange,
    spans: &mut Vec<Span>,
) -> Result<Mark, AllocError>
    ensures { IfOk result (IsMarked (fate_by (lives_from cells.now range.now.at) range.now)
        spans.old.items spans.new.items) }
{
    if is_whole(cells, range.at, range.len) {
        return Ok(Mark::Whole);
    }
    let have = spans.len();
    push_spans(cells, range.at, range.len, spans)?;
    let count = (spans.len() - have) as u64;
    let lengthens = has_to_lengthen(cells, range);
    Ok(Mark::Parts { count, lengthens })
}

// Whether a file was shorter than the end of a range, which is not empty, and the last byte of the
// range does not live.
fn has_to_lengthen(cells: &Extents<Nowhere>, range: &FileRange) -> bool
    requires { 0 < range.now.len }
    ensures { result ≡ (nat_lt range.now.size (range.now.at + range.now.len)
        && not (lives_from cells.now range.now.at (range.now.len - 1))) }
{
    if !is_longer(range) {
        return false;
    }
    !has_last(cells, range.at, range.len)
}

// Whether a file was shorter than the end of a range.
fn is_longer(range: &FileRange) -> bool
    ensures { result ≡ nat_lt range.now.size (range.now.at + range.now.len) }
{
    if range.at > range.size {
        return true;
    }
    range.len > range.size - range.at
}

// Whether all bytes of a range live.
fn is_whole(cells: &Extents<Nowhere>, at: u64, len: u64) -> bool
    ensures { result ≡ list_all (lives_from cells.now at) (range_with_len 0 len) }
{
    if len == 0 {
        return true;
    }
    let size = cells.size();
    if at > size {
        return false;
    }
    if len > size - at {
        return false;
    }
    let mut place = 0;
    for (origin, count) in cells.pieces(at, len) {
        if origin.is_none() {
            return false;
        }
        place += count;
    }
    true
}

// Whether the last byte of a range lives, which is not empty.
fn has_last(cells: &Extents<Nowhere>, at: u64, len: u64) -> bool
    requires { 0 < len }
    ensures { result ≡ lives_from cells.now at (len - 1) }
{
    let size = cells.size();
    if at >= size {
        return false;
    }
    if len > size - at {
        return false;
    }
    match cells.pieces(at + (len - 1), 1).next() {
        Some((origin, _)) => origin.is_some(),
        None => false,
    }
}

// Puts the stretches of a range behind others.
fn push_spans(
    cells: &Extents<Nowhere>,
    at: u64,
    len: u64,
    to: &mut Vec<Span>,
) -> Result<(), AllocError>
    ensures { OnOk result
        (to.new.items ≡ to.old.items ++ spans (lives_from cells.now at) 0 len) }
{
    let size = cells.size();
    if at >= size {
        return Ok(());
    }
    let mut running = None;
    let mut place = 0;
    for (origin, count) in cells.pieces(at, len.min(size - at)) {
        if origin.is_some() {
            running = Some(longer(running, place, count));
        } else {
            push_span(to, running)?;
            running = None;
        }
        place += count;
    }
    push_span(to, running)?;
    Ok(())
}

// A stretch with more bytes behind it, or a new one.
fn longer(running: Option<Span>, place: u64, count: u64) -> Span
    requires { MatchOption running (Unit {0}) (λ span. span.len + count < 2 ^ 64) }
    ensures { result ≡ grown running place count }
{
    match running {
        Some(span) => Span {
            at: span.at,
            len: span.len + count,
        },
        None => Span {
            at: place,
            len: count,
        },
    }
}

// Puts a stretch behind others, if there is one.
fn push_span(to: &mut Vec<Span>, running: Option<Span>) -> Result<(), AllocError>
    ensures { OnOk result (to.new.items ≡ to.old.items ++ option_to_list running) }
{
    if let Some(span) = running {
        to.push(span)?;
    }
    Ok(())
}

impl Fates {
    /// The fate of the next WRITE, if there is one. Takes no memory.
    pub fn first(&self) -> Option<Fate<'_>>
        ensures { MatchOption result (self.now ≡ [])
            (λ fate. self.now ≡ fate_meant fate ∷ drop 1 self.now) }
    {
        let mark = self.marks.last()?;
        match mark {
            Mark::Whole => Some(Fate::Whole),
            Mark::Parts { count, lengthens } => {
                let from = self.spans.len() - *count as usize;
                Some(Fate::Parts {
                    spans: &self.spans[from..],
                    lengthens: *lengthens,
                })
            }
        }
    }

    /// Goes past the fate of the next WRITE, if there is one. Takes no memory.
    pub fn pass(&mut self)
        ensures { self.new ≡ drop 1 self.old }
    {
        let Some(mark) = self.marks.pop() else {
            return;
        };
        match mark {
            Mark::Whole => {}
            Mark::Parts { count, .. } => {
                let from = self.spans.len() - count as usize;
                self.spans.truncate(from);
            }
        }
    }
}
