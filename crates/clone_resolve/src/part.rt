// The part that is being received.
ghost use Rattle.std.specs.Prelude.{◌≡◌};
ghost use Rattle.subvol_catalog.specs.Entries.{key_of};

use extent_map::Origin;
use std::marker::Model;
use subvol::Subvol;
use subvol_catalog::Key;

/// The part that is being received: its key and its subvolume so far.
#[derive(Debug, Drop)]
pub struct Part<O: Origin> {
    pub(crate) key: Key,
    pub(crate) sub: Subvol<O>,
}

impl<O: Origin> Model for Part<O> {
    ghost use Rattle.std.specs.Prelude.{Option};
    ghost use Rattle.subvol_catalog.specs.Entries.{key_of};
    ghost use Rattle.send_model.specs.Store as meant;

    ghost Value = { meant.Part (Option O) };

    ghost view = { λ p. record { key = key_of p.key; subvolume = p.sub } };
}

impl<O: Origin> Part<O> {
    /// The key. Takes no memory.
    pub fn key(&self) -> Key
        ensures { key_of result ≡ self.now.key }
    {
        self.key
    }

    /// The subvolume so far. Takes no memory.
    pub fn sub(&self) -> &Subvol<O>
        ensures { result.now ≡ self.now.subvolume }
    {
        &self.sub
    }
}
