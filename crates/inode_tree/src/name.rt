// Names and bytes as keys of maps.
ghost use Rattle.std.specs.Prelude.{◌≡◌, ◌<◌, ◌≤◌, ◌+◌, [], length, IfOk};
ghost use Rattle.send_model.specs.Map.{bytes_cmp};
ghost use Rattle.inode_tree.specs.Openings.{byte_at, two_at, four_at, eight_at};

use shared_map::{Copied, Key, Sought};
use std::alloc::{AllocError, Global};
use std::cmp::Ordering;
use std::marker::Model;
use std::rc::RcSlice;

/// Bytes that their copies share, seen as their list: the target of a symbolic link, or the name or
/// the value of an extended attribute.
#[derive(Debug, Drop)]
pub struct Bytes {
    // None where there are no bytes, so that these take no memory.
    bytes: Option<RcSlice<u8>>,
}

impl Model for Bytes {
    ghost use Rattle.std.specs.Prelude.{ℕ, List, []};
    ghost use Rattle.std.specs.Option.{option_map_or};
    ghost use Rattle.std.specs.Rc.{rc_slice_items};

    ghost Value = { List ℕ };

    ghost view = { λ b. option_map_or rc_slice_items b.bytes [] };
}

impl Bytes {
    // No bytes.
    pub(crate) fn none() -> Bytes
        ensures { result ≡ [] }
    {
        Bytes { bytes: None }
    }

    /// These bytes. Fails for want of memory alone.
    pub(crate) fn new(alloc: Global, bytes: &[u8]) -> Result<Bytes, AllocError>
        ensures { IfOk result (λ copy. copy ≡ bytes.now) }
    {
        if bytes.is_empty() {
            return Ok(Bytes { bytes: None });
        }
        let copy = RcSlice::from_slice(alloc, bytes)?;
        Ok(Bytes { bytes: Some(copy) })
    }

    /// The bytes.
    pub fn as_slice(&self) -> &[u8]
        ensures { result.now ≡ self.now }
    {
        match &self.bytes {
            Some(bytes) => bytes.as_slice(),
            None => b"",
        }
    }
}

impl Copied for Bytes {
    fn copy(&self) -> Result<Bytes, AllocError> {
        match &self.bytes {
            Some(bytes) => {
                let copy = bytes.clone()?;
                Ok(Bytes { bytes: Some(copy) })
            }
            None => Ok(Bytes { bytes: None }),
        }
    }
}

impl Key for Bytes {
    ghost use Rattle.send_model.specs.Map.{bytes_cmp};
    ghost use Rattle.std.proofs.lemmas.Cmp.{nat_list_cmp_total};

    ghost order = { bytes_cmp };

    fn copy_key(&self) -> Result<Bytes, AllocError> {
        self.copy()
    }

    fn most_entries() -> usize {
        128
    }

    ghost total = { nat_list_cmp_total };
}

// Bytes in a look-up.
#[derive(Drop)]
pub(crate) struct BytesRef<'a> {
    bytes: &'a [u8],
}

impl<'a> Model for BytesRef<'a> {
    ghost use Rattle.std.specs.Prelude.{ℕ, List};

    ghost Value = { List ℕ };

    ghost view = { λ b. b.bytes.now };
}

impl<'a> BytesRef<'a> {
    pub(crate) fn new(bytes: &'a [u8]) -> BytesRef<'a>
        ensures { result ≡ bytes.now }
    {
        BytesRef { bytes }
    }
}

impl Sought<Bytes> for BytesRef<'_> {
    ghost sought = { λ b. b };

    fn against(&self, key: &Bytes) -> Ordering {
        key.as_slice().cmp(self.bytes)
    }

    fn own(&self, alloc: Global) -> Result<Bytes, AllocError> {
        Bytes::new(alloc, self.bytes)
    }
}

// The byte at a place, or zero where there is none.
fn byte_at(bytes: &[u8], place: usize) -> u64
    ensures value { result ≡ byte_at bytes.now place }
    ensures small { result < 256 }
{
    match bytes.get(place) {
        Some(byte) => u64::from(*byte),
        None => 0,
    }
}

// Two bytes from a place on as a number, the first the higher.
#[tactic(auto, unfolding(crate::specs::Openings::two_at))]
fn two_at(bytes: &[u8], place: usize) -> u64
    requires { place < 16 }
    ensures value { result ≡ two_at bytes.now place }
    ensures small { result < 65_536 }
{
    byte_at(bytes, place) * 256 + byte_at(bytes, place + 1)
}

// Four bytes.
#[tactic(auto, unfolding(crate::specs::Openings::four_at))]
fn four_at(bytes: &[u8], place: usize) -> u64
    requires { place < 14 }
    ensures value { result ≡ four_at bytes.now place }
    ensures small { result < 4_294_967_296 }
{
    two_at(bytes, place) * 65_536 + two_at(bytes, place + 2)
}

// Eight bytes. All eight are there for most names, or none.
#[tactic(auto, unfolding(crate::specs::Openings::eight_at))]
fn eight_at(bytes: &[u8], place: usize) -> u64
    requires { place < 10 }
    ensures { result ≡ eight_at bytes.now place }
{
    if bytes.len() >= place + 8 {
        return eight_in(bytes, place);
    }
    if bytes.len() <= place {
        return 0;
    }
    four_at(bytes, place) * 4_294_967_296 + four_at(bytes, place + 4)
}

// Eight bytes that are there.
fn eight_in(bytes: &[u8], place: usize) -> u64
    requires { place + 8 ≤ length bytes.now }
    ensures { result ≡ eight_at bytes.now place }
{
    u64::from_be_bytes([
        bytes[place],
        bytes[place + 1],
        bytes[place + 2],
        bytes[place + 3],
        bytes[place + 4],
        bytes[place + 5],
        bytes[place + 6],
        bytes[place + 7],
    ])
}

// How many bytes of a name stand in it.
const OPENING: usize = 16;

// A name in a directory. Its first sixteen bytes stand in it, so that most comparisons need not
// look elsewhere, and a name that has no more takes no memory. Copies of a longer one share its
// bytes.
#[derive(Debug, Drop)]
pub(crate) struct Name {
    directory: u64,
    // The first bytes, and zero bytes behind the end of a name that has fewer.
    opening: [u8; OPENING],
    rest: Rest,
}

// What stands beside the first bytes of a name.
#[derive(Debug, Drop)]
pub(crate) enum Rest {
    // How many bytes it has, where there are no others.
    Short(u8),
    // All bytes of a longer one.
    Long(RcSlice<u8>),
}

impl Model for Name {
    ghost use Rattle.std.specs.Prelude.{ℕ, List};
    ghost use Rattle.inode_tree.specs.Openings.{whole, within, IsOpening};

    ghost Value = { ℕ × List ℕ };

    ghost view = { λ n. (n.directory, whole n.rest n.opening) };

    ghost invariant = { λ n. IsOpening (whole n.rest n.opening) n.opening (within n.rest) };
}

impl Name {
    // A name. Fails for want of memory alone.
    fn new(alloc: Global, directory: u64, name: &[u8]) -> Result<Name, AllocError>
        ensures { IfOk result (λ n. n ≡ (directory, name.now)) }
    {
        let mut opening = [0; OPENING];
        if name.len() > OPENING {
            opening.copy_from_slice(&name[..OPENING]);
            let bytes = RcSlice::from_slice(alloc, name)?;
            return Ok(Name {
                directory,
                opening,
                rest: Rest::Long(bytes),
            });
        }
        opening[..name.len()].copy_from_slice(name);
        Ok(Name {
            directory,
            opening,
            rest: Rest::Short(name.len() as u8),
        })
    }

    // The name alone.
    pub(crate) fn bytes(&self) -> &[u8]
        ensures { result.now ≡ self.now.1 }
    {
        match &self.rest {
            Rest::Long(bytes) => bytes.as_slice(),
            Rest::Short(len) => &self.opening[..usize::from(*len)],
        }
    }

    // The number of the directory.
    pub(crate) fn directory(&self) -> u64
        ensures { result ≡ self.now.0 }
    {
        self.directory
    }
}

impl Key for Name {
    ghost use Rattle.send_model.specs.Map.{named_cmp};
    ghost use Rattle.send_model.proofs.MapLaws.{named_cmp_total};

    ghost order = { named_cmp };

    fn copy_key(&self) -> Result<Name, AllocError> {
        let rest = match &self.rest {
            Rest::Long(bytes) => Rest::Long(bytes.clone()?),
            Rest::Short(len) => Rest::Short(*len),
        };
        Ok(Name {
            directory: self.directory,
            opening: self.opening,
            rest,
        })
    }

    fn most_entries() -> usize {
        128
    }

    ghost total = { named_cmp_total };
}

// A place for a name, as a path gives it, with the numbers of the name.
#[derive(Drop)]
pub(crate) struct Place<'a> {
    directory: u64,
    first: u64,
    next: u64,
    name: &'a [u8],
}

impl<'a> Model for Place<'a> {
    ghost use Rattle.std.specs.Prelude.{ℕ, List};
    ghost use Rattle.inode_tree.specs.Openings.{IsOpened};

    ghost Value = { ℕ × List ℕ };

    ghost view = { λ p. (p.directory, p.name.now) };

    ghost invariant = { λ p. IsOpened p.name.now p.first p.next };
}

impl<'a> Place<'a> {
    pub(crate) fn new(directory: u64, name: &'a [u8]) -> Place<'a>
        ensures { result ≡ (directory, name.now) }
    {
        Place {
            directory,
            first: eight_at(name, 0),
            next: eight_at(name, 8),
            name,
        }
    }

    // The number of the directory.
    pub(crate) fn directory(&self) -> u64
        ensures { result ≡ self.now.0 }
    {
        self.directory
    }

    // The name alone.
    pub(crate) fn name(&self) -> &'a [u8]
        ensures { result.now ≡ self.now.1 }
    {
        self.name
    }

    // How a name compares with this one, whatever their directories.
    fn against_bytes(&self, key: &Name) -> Ordering
        ensures { result ≡ bytes_cmp key.now.1 self.now.1 }
    {
        match eight_in(&key.opening, 0).cmp(&self.first) {
            Ordering::Equal => {}
            other => return other,
        }
        match eight_in(&key.opening, 8).cmp(&self.next) {
            Ordering::Equal => key.bytes().cmp(self.name),
            other => other,
        }
    }
}

impl Sought<Name> for Place<'_> {
    ghost sought = { λ p. p };

    fn against(&self, key: &Name) -> Ordering {
        match key.directory.cmp(&self.directory) {
            Ordering::Equal => self.against_bytes(key),
            other => other,
        }
    }

    fn own(&self, alloc: Global) -> Result<Name, AllocError> {
        Name::new(alloc, self.directory, self.name)
    }
}
