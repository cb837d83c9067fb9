// Bytes that grow.
ghost use Rattle.std.specs.Prelude.{◌≡◌, ℕ, ◌+◌, ◌≤◌, List, [], ◌++◌, length, take, IfOk, OnOk, OnErr};
ghost use Rattle.sx_base.specs.Bytes.{put_at};

use std::alloc::{AllocError, Global};
use std::marker::Model;

/// Bytes that grow, seen as their list. A blob keeps the allocator that it was made with.
#[derive(Debug, Drop)]
pub struct Blob {
    bytes: Vec<u8>,
}

impl Model for Blob {
    ghost Value = { List ℕ };

    ghost view = { λ b. b.bytes.items };
}

impl Blob {
    /// A blob without bytes. Takes no memory.
    pub fn new(alloc: Global) -> Blob
        ensures empty { result ≡ [] }
    {
        Blob {
            bytes: Vec::new(alloc),
        }
    }

    /// Appends the bytes, or changes nothing where there is no memory.
    pub fn push_all(&mut self, bytes: &[u8]) -> Result<(), AllocError>
        ensures appended { OnOk result (self.new ≡ self.old ++ bytes.now) }
        ensures same { OnErr result (self.new ≡ self.old) }
    {
        self.bytes.extend_from_slice(bytes)
    }

    /// The bytes.
    pub fn as_slice(&self) -> &[u8]
        ensures bytes { result.now ≡ self.now }
    {
        self.bytes.as_slice()
    }

    /// Takes all bytes away and keeps the room. Takes no memory.
    pub fn clear(&mut self)
        ensures empty { self.new ≡ [] }
    {
        self.bytes.clear();
    }

    /// An equal blob.
    pub fn copy(&self) -> Result<Blob, AllocError>
        ensures equal { IfOk result (λ copy. copy ≡ self.now) }
    {
        let bytes = Vec::from_slice(*self.bytes.allocator(), self.bytes.as_slice())?;
        Ok(Blob { bytes })
    }

    /// Replaces the bytes from the place `at` on, which all lie in the blob. Takes no memory.
    pub fn put(&mut self, at: usize, bytes: &[u8])
        requires within { at + length bytes.now ≤ length self.old }
        ensures replaced { self.new ≡ put_at at bytes.now self.old }
    {
        let row = self.bytes.as_mut_slice();
        row[at..at + bytes.len()].copy_from_slice(bytes);
    }

    /// Keeps the first `len` bytes, and there are so many. Takes no memory.
    pub fn cut(&mut self, len: usize)
        requires within { len ≤ length self.old }
        ensures kept { self.new ≡ take len self.old }
    {
        self.bytes.truncate(len);
    }

    /// The blob as a vector. Takes no memory.
    pub fn into_vec(self) -> Vec<u8>
        ensures bytes { result.items ≡ self }
    {
        self.bytes
    }
}

/// A blob of these bytes. Takes no memory.
impl From<Vec<u8>> for Blob {
    ghost from_gives = { λ bytes blob. blob ≡ bytes.items };

    fn from(bytes: Vec<u8>) -> Blob {
        Blob { bytes }
    }
}
