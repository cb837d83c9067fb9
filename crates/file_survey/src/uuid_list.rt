// Lists of UUIDs.
ghost use Rattle.std.specs.Prelude.{◌≡◌, [], ◌∷◌, ◌++◌, OnOk};
ghost use Rattle.send_model.specs.Outside.{is_among};
ghost use Rattle.file_survey.specs.Findings.{joined_by};

use std::alloc::{AllocError, Global};
use std::collections::BTreeSet;
use std::marker::Model;
use uuid::Uuid;

// UUIDs in their order, some of them maybe more than once, with an ordered index by which each is
// found.
#[derive(Debug, Drop)]
pub(crate) struct UuidList {
    list: Vec<Uuid>,
    index: BTreeSet<Uuid>,
}

impl Model for UuidList {
    ghost use Rattle.std.specs.Prelude.{ℕ, List};
    ghost use Rattle.file_survey.specs.Indexed.{AreIndexed};

    ghost Value = { List (List ℕ) };

    ghost view = { λ p. p.list.items };

    ghost invariant = { λ p. AreIndexed p.index.keys p.list.items };
}

impl UuidList {
    // No UUIDs. Takes no memory.
    pub(crate) fn new(alloc: Global) -> UuidList
        ensures empty { result ≡ [] }
    {
        UuidList {
            list: Vec::new(alloc),
            index: BTreeSet::new(alloc),
        }
    }

    pub(crate) fn as_slice(&self) -> &[Uuid]
        ensures uuids { result.now ≡ self.now }
    {
        self.list.as_slice()
    }

    pub(crate) fn has(&self, uuid: Uuid) -> bool
        ensures { result ≡ is_among self.now uuid }
    {
        self.index.contains(&uuid)
    }

    // Puts one more behind the others.
    pub(crate) fn push(&mut self, uuid: Uuid) -> Result<(), AllocError>
        ensures pushed { OnOk result (self.new ≡ self.old ++ uuid ∷ []) }
    {
        let len = self.list.len();
        self.list.push(uuid)?;
        match self.index.insert(uuid) {
            Ok(_) => Ok(()),
            Err(_) => {
                self.list.truncate(len);
                Err(AllocError)
            }
        }
    }
    // Puts one behind the others unless it is among them.
    pub(crate) fn add(&mut self, uuid: Uuid) -> Result<(), AllocError>
        ensures added { OnOk result (self.new ≡ joined_by self.old (uuid ∷ [])) }
    {
        if self.has(uuid) {
            return Ok(());
        }
        self.push(uuid)
    }
}
