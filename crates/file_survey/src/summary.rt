// What is known of files once they were read for their heads.
ghost use Rattle.std.specs.Prelude.{◌≡◌, ◌⊎◌, map, OnOk, IfSome};
ghost use Rattle.std.specs.Option.{option_copied};
ghost use Rattle.send_model.specs.Outside.{is_among};
ghost use Rattle.send_commands.specs.Meaning.{meaning_of};
ghost use Rattle.send_commands.specs.Writing.{IsWritable};
ghost use Rattle.file_survey.specs.Findings.{KnowsParts, nothing_seen, with_head, with_named, with_version, uuids_named, in_list, after_glance};

use crate::part_head::PartHead;
use crate::uuid_list::UuidList;
use cmd_reader::Glance;
use send_commands::Command;
use std::alloc::{AllocError, Global};
use std::marker::Model;
use uuid::Uuid;

/// What is known of files once they were read for their heads: the head of the last part, the UUIDs
/// of all parts, the UUIDs that are named as those of parents and of sources of clones, and the
/// version of the stream that stands for them, which is 2 where a command of the files has it, and
/// else 1.
#[derive(Debug, Drop)]
pub struct Survey {
    last: Option<PartHead>,
    parts: UuidList,
    named: UuidList,
    version: u32,
}

impl Model for Survey {
    ghost use Rattle.file_survey.specs.Findings.{Surveyed, IsOutput, KnowsParts};

    ghost Value = { Surveyed };

    ghost view = { λ s. record { parts = s.parts; named = s.named; version = s.version; last = s.last } };

    ghost invariant = { λ s. IsOutput s.version × KnowsParts s.last s.parts };
}

impl Survey {
    // Before the first command. Takes no memory.
    pub(crate) fn new(alloc: Global) -> Survey
        ensures empty { result ≡ nothing_seen }
    {
        Survey {
            last: None,
            parts: UuidList::new(alloc),
            named: UuidList::new(alloc),
            version: 1,
        }
    }

    /// The head of the last part, `None` where there is no part. Takes no memory.
    pub fn last(&self) -> Option<&PartHead>
        ensures last { option_copied result ≡ self.now.last }
        ensures known { KnowsParts (option_copied result) self.now.parts }
    {
        self.last.as_ref()
    }

    /// The version of the stream that stands for the parts. Takes no memory.
    pub fn version(&self) -> u32
        ensures version { result ≡ self.now.version }
        ensures known { (result ≡ 1) ⊎ (result ≡ 2) }
    {
        self.version
    }

    /// The UUIDs of the parts, in the order of their heads. Takes no memory.
    pub fn parts(&self) -> &[Uuid]
        ensures parts { result.now ≡ self.now.parts }
    {
        self.parts.as_slice()
    }

    /// Whether a part has the UUID. Takes no memory.
    pub fn has_part(&self, uuid: Uuid) -> bool
        ensures { result ≡ is_among self.now.parts uuid }
    {
        self.parts.has(uuid)
    }

    /// Whether a command names the UUID as that of a parent or of a source of a clone. Takes no
    /// memory.
    pub fn names(&self, uuid: Uuid) -> bool
        ensures { result ≡ is_among self.now.named uuid }
    {
        self.named.has(uuid)
    }

    // Keeps what was seen of a command: the head that it is, if it is one, what it names, and its
    // version.
    pub(crate) fn keep(&mut self, alloc: Global, glance: &Glance<'_>) -> Result<(), AllocError>
        requires writable { IfSome glance.now.mention
            (λ command. IsWritable glance.now.version (meaning_of command)) }
        ensures kept { OnOk result
            (self.new ≡ after_glance self.old glance.now.version glance.now.mention) }
    {
        self.keep_version(glance.version);
        let Some(mention) = &glance.mention else {
            return Ok(());
        };
        let head = PartHead::of(alloc, mention, glance.version)?;
        self.keep_head(head)?;
        self.keep_named(mention)
    }

    // Keeps a head, if it is given.
    fn keep_head(&mut self, head: Option<PartHead>) -> Result<(), AllocError>
        ensures kept { OnOk result (self.new ≡ with_head self.old head) }
    {
        let Some(head) = head else {
            return Ok(());
        };
        let uuid = head.key().uuid;
        self.last = Some(head);
        self.parts.push(uuid)
    }

    // Keeps the UUID that a command names, if it names one.
    fn keep_named(&mut self, command: &Command<'_>) -> Result<(), AllocError>
        ensures kept { OnOk result
            (self.new ≡ with_named self.old (uuids_named (meaning_of command.now))) }
    {
        match uuid_named(command) {
            Some(uuid) => self.named.add(uuid),
            None => Ok(()),
        }
    }

    // Keeps a version, if it is the later one.
    fn keep_version(&mut self, version: u32)
        ensures { self.new ≡ with_version self.old version }
    {
        if version == 2 {
            self.version = 2;
        }
    }
}

// The UUID that a command names as that of a parent or of the source of a clone.
fn uuid_named(command: &Command<'_>) -> Option<Uuid>
    ensures { in_list result ≡ uuids_named (meaning_of command.now) }
{
    match command {
        Command::Snapshot { clone_uuid, .. } | Command::Clone { clone_uuid, .. } => {
            Some(*clone_uuid)
        }
        _ => None,
    }
}
