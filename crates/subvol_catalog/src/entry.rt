// One subvolume of a catalogue.
ghost use Rattle.std.specs.Prelude.{◌≡◌};

use crate::key::Key;
use sx_base::Blob;
use uuid::Uuid;

/// A subvolume of a catalogue.
#[derive(Debug, Drop)]
pub struct Entry<V> {
    /// Its name.
    pub name: Blob,
    /// Its key.
    pub key: Key,
    /// The key of the subvolume that it started from, if there was one.
    pub parent: Option<Key>,
    /// What it holds. It has none while it is unfinished.
    pub value: Option<V>,
}

impl<V> Entry<V> {
    // The UUID of its key.
    pub(crate) fn uuid(&self) -> Uuid
        ensures { result ≡ self.now.key.uuid }
    {
        self.key.uuid
    }
}
