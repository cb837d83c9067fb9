// What is said in front of files.
ghost use Rattle.std.specs.Prelude.{◌≡◌, [], ◌∷◌, ◌++◌, None, Some, IfSome, OnOk, OnErr, is_some};
ghost use Rattle.send_model.specs.Attribute.{IsBytes};
ghost use Rattle.send_model.specs.Outside.{is_among};
ghost use Rattle.send_model.specs.Overridden.{no_override, says_nothing, meant_ctransid, override_for};
ghost use Rattle.send_model.specs.Overridden.{uuids_of, IsLawfulOverride, AreLawfulOverrides};
ghost use Rattle.part_names.specs.Overriding.{IsShort, key_of, name_or};

use crate::parent::Parent;
use std::alloc::{AllocError, Global};
use std::marker::Model;
use sx_base::Blob;
use uuid::Uuid;

/// What is said in front of a file: a name that all its parts have in place of their own, shorter
/// than 65,536 bytes, and the CTRANSIDs that are meant where it names subvolumes.
#[derive(Debug, Drop)]
pub struct FileOverride {
    name: Option<Blob>,
    parents: Vec<Parent>,
}

impl Model for FileOverride {
    ghost use Rattle.std.specs.Prelude.{map};
    ghost use Rattle.send_model.specs.Overridden.{Override, IsLawfulOverride};
    ghost use Rattle.part_names.specs.Overriding.{key_of};

    ghost Value = { Override };

    ghost view = { λ o. record { name = o.name; parents = map key_of o.parents.items } };

    ghost invariant = { λ o. IsLawfulOverride
        (record { name = o.name; parents = map key_of o.parents.items }) };
}

impl FileOverride {
    /// Nothing is said. Takes no memory.
    pub fn none(alloc: Global) -> FileOverride
        ensures none { result ≡ no_override }
    {
        FileOverride {
            name: None,
            parents: Vec::new(alloc),
        }
    }

    /// Says a name, in place of one that was said before. Takes no memory.
    pub fn say_name(&mut self, name: Blob)
        requires short { IsShort name }
        ensures said { self.new ≡ record self.old { name = Some name } }
    {
        are_bytes(name.as_slice());
        self.name = Some(name);
    }

    /// Says one CTRANSID more, or changes nothing where there is no memory.
    pub fn say_parent(&mut self, parent: Parent) -> Result<(), AllocError>
        ensures said { OnOk result (self.new ≡
            record self.old { parents = self.old.parents ++ key_of parent ∷ [] }) }
        ensures same { OnErr result (self.new ≡ self.old) }
    {
        self.parents.push(parent)?;
        Ok(())
    }

    /// Whether a name is said.
    pub fn says_name(&self) -> bool
        ensures { result ≡ is_some self.now.name }
    {
        self.name.is_some()
    }

    /// Whether a CTRANSID is said for this UUID.
    pub fn says_parent(&self, uuid: Uuid) -> bool
        ensures { result ≡ is_among (uuids_of self.now.parents) uuid }
    {
        for place in 0..self.parents.len() {
            let parent = self.parents[place];
            if parent.uuid == uuid {
                return true;
            }
        }
        false
    }

    /// Whether nothing is said.
    pub fn says_nothing(&self) -> bool
        ensures { result ≡ says_nothing self.now }
    {
        self.name.is_none() && self.parents.is_empty()
    }

    /// What is said can be said in commands. Does nothing.
    pub fn is_given(&self)
        ensures given { IsLawfulOverride self.now }
    {
        let _count = self.parents.len();
    }

    // The name that is said, or else a head's own.
    pub(crate) fn name_or<'r>(&'r self, own: &'r [u8]) -> &'r [u8]
        ensures { result.now ≡ name_or self.now own.now }
    {
        match &self.name {
            Some(name) => name.as_slice(),
            None => own,
        }
    }

    // The CTRANSID that is meant where a command names this UUID with a CTRANSID of its own.
    pub(crate) fn meant_ctransid(&self, uuid: Uuid, own: u64) -> u64
        ensures { result ≡ meant_ctransid self.now.parents uuid own }
    {
        for place in 0..self.parents.len() {
            let parent = self.parents[place];
            if parent.uuid == uuid {
                return parent.ctransid;
            }
        }
        own
    }
}

/// What is said in front of files, in their order. In front of a file that is not among them
/// nothing is said.
#[derive(Debug, Drop)]
pub struct Overrides {
    files: Vec<FileOverride>,
    nothing: FileOverride,
}

impl Model for Overrides {
    ghost use Rattle.std.specs.Prelude.{◌≡◌};
    ghost use Rattle.send_model.specs.Overridden as said;

    ghost Value = { said.Overrides };

    ghost view = { λ n. n.files.items };

    ghost invariant = { λ n. (n.nothing ≡ said.no_override)
        × said.AreLawfulOverrides n.files.items };
}

impl Overrides {
    /// Nothing is said in front of any file. Takes no memory.
    pub fn none(alloc: Global) -> Overrides
        ensures none { result ≡ [] }
    {
        Overrides {
            files: Vec::new(alloc),
            nothing: FileOverride::none(alloc),
        }
    }

    /// Says this in front of the next file; or changes nothing where there is no memory.
    pub fn push(&mut self, said: FileOverride) -> Result<(), AllocError>
        ensures pushed { OnOk result (self.new ≡ self.old ++ said ∷ []) }
        ensures same { OnErr result (self.new ≡ self.old) }
    {
        said.is_given();
        self.files.push(said)?;
        Ok(())
    }

    /// All that is said can be said in commands. Does nothing.
    pub fn are_given(&self)
        ensures given { AreLawfulOverrides self.now }
    {
        let _count = self.files.len();
    }

    /// What is said in front of the file of this number, counted from 1. Takes no memory.
    pub fn of_file(&self, file: u64) -> &FileOverride
        ensures said { result.now ≡ override_for self.now file }
        ensures lawful { IsLawfulOverride result.now }
    {
        if file == 0 || file > self.files.len() as u64 {
            return &self.nothing;
        }
        let said = &self.files[(file - 1) as usize];
        said.is_given();
        said
    }
}

// Bytes are bytes.
fn are_bytes(name: &[u8])
    ensures bytes { IsBytes name.now }
{
    let _len = name.len();
}
