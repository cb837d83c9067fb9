// The message of a run, remembered for its explanation.
ghost use Rattle.std.specs.Prelude.{◌≡◌};

use sx_base::{Failed, Sink};

// How many bytes of the notes are kept: all notes are shorter but those that say what is missing.
const KEPT: usize = 160;

/// A sink that remembers the first bytes that it took. What it takes and its faults are those of
/// the inner sink.
#[derive(Debug, Drop)]
pub(crate) struct KeptNotes<N> {
    inner: N,
    kept: [u8; KEPT],
    count: usize,
}

impl<N: Sink> KeptNotes<N> {
    /// The inner sink, of which nothing is remembered yet.
    pub(crate) fn new(inner: N) -> KeptNotes<N> {
        KeptNotes {
            inner,
            kept: [0; KEPT],
            count: 0,
        }
    }

    /// The bytes that are remembered.
    pub(crate) fn note(&self) -> &[u8] {
        &self.kept[..self.count.min(KEPT)]
    }

    /// The inner sink, for what is not to be remembered.
    pub(crate) fn inner(&mut self) -> &mut N {
        &mut self.inner
    }

    // Remembers bytes, as far as there is room.
    fn keep(&mut self, bytes: &[u8])
        ensures same { self.new.inner ≡ self.old.inner }
    {
        self.count = put_behind(&mut self.kept, self.count, bytes);
    }
}

// Puts bytes behind the first ones of a buffer, as far as there is room, and gives how many there
// are then.
fn put_behind(kept: &mut [u8], count: usize, bytes: &[u8]) -> usize {
    let mut count = count;
    for byte in bytes {
        if count < kept.len() {
            kept[count] = *byte;
            count += 1;
        }
    }
    count
}

impl<N: Sink> Sink for KeptNotes<N> {
    ghost taken = { λ s. N.taken s.inner };

    ghost faults = { λ s. N.faults s.inner };

    fn write(&mut self, piece: &[u8]) -> Result<usize, Failed> {
        self.keep(piece);
        self.inner.write(piece)
    }
}

/// The word of a note at a place, counted from 0; none where there are fewer.
pub(crate) fn word_of(note: &[u8], place: usize) -> &[u8] {
    let line = match note {
        [line @ .., b'\n'] => line,
        line => line,
    };
    line.split(|byte| *byte == b' ').nth(place).unwrap_or(&[])
}
