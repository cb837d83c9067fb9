// Reading the bytes of a store's files from its disk.
ghost use Rattle.std.specs.Prelude.{◌≡◌, ◌+◌, ◌≤◌, ℕ, List, length, take, drop, OnOk};
ghost use Rattle.send_model.specs.Store as meant;
ghost use Rattle.subvol_catalog.specs.Entries.{key_of};
ghost use Rattle.clone_pieces.specs.Origins.{AreAsLong};
ghost use Rattle.sx_base.specs.Causes.{HasCause, Steady};

use store_journal::Store;
use subvol_catalog::Key;
use sx_base::{Disk, Failed};

// What reads the bytes of files.
pub(crate) trait Fetch {
    ghost tells: { Type 0 };

    // The bytes of each file, by its subvolume and its inode number.
    ghost held: { Self → meant.Key → ℕ → List ℕ };

    ghost faults: { Self → ℕ };

    // It can be read from.
    ghost ready: { Self → Type 0 };

    // Since it was as the first, it was only read from, and then it was as the second.
    ghost later: { Self → Self → Type 0 };

    // Fills the buffer with the bytes of a file from the place `at` on.
    fn fetch(&mut self, key: Key, ino: u64, at: u64, buf: &mut [u8]) -> Result<(), Failed>
        requires ready { ready self.old }
        requires within { at + length buf.old ≤ length (held self.old (key_of key) ino) }
        ensures bytes { tells → OnOk result
            (buf.new ≡ take (length buf.new) (drop at (held self.old (key_of key) ino))) }
        ensures later { later self.old self.new }
        ensures cause { HasCause (faults self.old) (faults self.new) result }
        ensures steady { Steady (faults self.old) (faults self.new) result };

    ghost stays: { (a : Self) → later a a };

    ghost further: { (a b c : Self) → later a b → later b c → later a c };

    ghost still_ready: { (a b : Self) → later a b → ready a → ready b };

    ghost as_long: { (a b : Self) → later a b → AreAsLong (held b) (held a) };

    ghost still_held: { (a b : Self) → tells → later a b → held b ≡ held a };

    ghost not_less: { (a b : Self) → later a b → faults a ≤ faults b };
}

// A store and the disk that it stands on.
#[derive(Drop)]
pub(crate) struct StoreReader<'a, D> {
    pub(crate) store: &'a Store,
    pub(crate) disk: &'a mut D,
}

impl<'a, D: Disk> Fetch for StoreReader<'a, D> {
    ghost use Rattle.store_journal.specs.Reading.{HasSize, file_cells};
    ghost use Rattle.store_journal.specs.Standing.{with_bytes};
    ghost use Rattle.store_compose.specs.Reading.{IsReadOn};
    ghost use Rattle.store_compose.specs.ReadRuns.{read_none, read_both, read_sized, read_long, read_held};

    ghost tells = { D.tells };

    ghost held = { λ r. file_cells (with_bytes (D.seen r.disk.now) r.store.now.core) };

    ghost faults = { λ r. D.faults r.disk.now };

    ghost ready = { λ r. HasSize (D.len r.disk.now) r.store.now };

    ghost later = { λ a b. IsReadOn D.Disk
        (record { store = a.store.now; name = a.disk.ghost_name; disk = a.disk.now })
        (record { store = b.store.now; name = b.disk.ghost_name; disk = b.disk.now }) };

    fn fetch(&mut self, key: Key, ino: u64, at: u64, buf: &mut [u8]) -> Result<(), Failed> {
        match self.store.read_range(self.disk, key, ino, at, buf) {
            Ok(()) => Ok(()),
            Err(_) => Err(Failed),
        }
    }

    ghost stays = { λ a. read_none D.Disk.own D.only_now
        (record { store = a.store.now; name = a.disk.ghost_name; disk = a.disk.now }) };

    ghost further = { λ a b c first second. read_both D.Disk.own first second };

    ghost still_ready = { λ a b read ready. read_sized D.Disk.own read ready };

    ghost as_long = { λ a b read. read_long D.Disk.own read };

    ghost still_held = { λ a b tells read. read_held D.Disk.own tells read };

    ghost not_less = { λ a b read. read.read.later };
}
