// The first reading: a file is judged, and what its commands did to contents is kept.
ghost use Rattle.std.specs.Prelude.{◌≡◌, ◌≤◌, ◌^◌, ◌||◌, ◌&&◌, [], true, false, IfErr, OnOk, IfSome};
ghost use Rattle.std.specs.Option.{option_to_list};
ghost use Rattle.send_model.specs.Receive.{start_of};
ghost use Rattle.send_model.specs.Cells.{recelled_store};
ghost use Rattle.send_model.specs.Counts.{is_end};
ghost use Rattle.send_model.specs.Overridden.{overridden_as, IsLawfulOverride};
ghost use Rattle.sx_base.specs.Asks.{IsReadOnce};
ghost use Rattle.sx_base.specs.Calls.{ErrCaused, IsStop};
ghost use Rattle.sx_base.specs.Later.{InputsLater, AskedOnly};
ghost use Rattle.sx_base.specs.declared.outcome.Outcome.TheVariants as ended;
ghost use Rattle.cmd_reader.specs.Places.{IfTold};
ghost use Rattle.cmd_reader.specs.Next.{item_of};
ghost use Rattle.send_commands.specs.Meaning.{meaning_of};
ghost use Rattle.clone_resolve.specs.Steps.{data_len};
ghost use Rattle.squash_log.specs.Resolved.{changes_at};
ghost use Rattle.squasher.specs.Judging.{nothing_yet, uuids_of, IsHidden, IsSized, IsClosing, Steps, Takes, JudgedBy};
ghost use Rattle.squasher.specs.Squashing.{JudgeEnds};

use crate::changing::{PartEnd, change_of};
use clone_resolve::{EditCore, Part, head_of};
use cmd_reader::{CmdReader, Item, outcome_of};
use extent_map::Origin;
use part_names::{NamedFile, given_or, override_item};
use send_commands::Command;
use squash_log::{Change, Fates, Log, find_fates};
use std::alloc::{AllocError, Global};
use std::marker::Model;
use std::mem;
use sx_base::{Inputs, Outcome, Refusal, Stop, Verdict};
use uuid::Uuid;

/// What was found out of a file that can be squashed.
#[derive(Drop)]
pub(crate) struct Judged {
    /// The fates of its WRITE commands.
    pub(crate) fates: Fates,
    /// The version of its stream.
    pub(crate) version: u32,
    /// How many commands it has.
    pub(crate) commands: u64,
}

// What is kept while a file is judged.
#[derive(Drop)]
struct Keeper<R: Origin> {
    alloc: Global,
    core: EditCore<R>,
    part: Option<Part<R>>,
    origin: R,
    log: Log,
    fates: Option<Fates>,
    passed: Passed,
}

impl<R: Origin> Model for Keeper<R> {
    ghost use Rattle.std.specs.Prelude.{◌≤◌, ◌^◌};
    ghost use Rattle.send_model.specs.Cells.{recelled_state};
    ghost use Rattle.clone_resolve.specs.Steps.{Fits};
    ghost use Rattle.squasher.specs.Judging.{Sight};

    ghost Value = { Sight };

    ghost view = { λ j. record {
      state = recelled_state (λ _. tt) (record { store = j.core; part = j.part });
      log = j.log;
      fates = j.fates;
      passed = j.passed;
    } };

    ghost invariant = { λ j. (2 ^ 18 ≤ R.reach j.origin) × Fits j.core j.part };
}

// What was passed so far: a head, and END; and the last command.
#[derive(Clone, Copy)]
struct Passed {
    begun: bool,
    closed: bool,
    version: u32,
    number: u64,
    offset: u64,
}

/// Judges a file over the subvolumes of `core`, without the one that its first command begins.
///
/// # Errors
/// The verdict on it: the first command that its step refuses, the head of a second part, or what
/// comes behind END; the fault of reading; that it has no part.
pub(crate) fn judge<R: Origin, I: Inputs>(
    file: &NamedFile<'_>,
    core: EditCore<R>,
    origin: R,
    inputs: &mut I,
) -> Result<Judged, Outcome>
    requires lawful { IsLawfulOverride file.now.said.now }
    requires reach { 2 ^ 18 ≤ R.reach origin }
    ensures inputs { InputsLater I.Inputs inputs.old inputs.new result }
    ensures asked { AskedOnly I.Inputs inputs.old inputs.new (IsReadOnce file.now.name.now) }
    ensures stops { IfErr result IsStop }
    ensures cause { ErrCaused (I.faults inputs.old) (I.faults inputs.new) 0 0 result }
    ensures judged { IfTold (I.told inputs.old) file.now.name.now
        (JudgeEnds core file.now.said.now file.now.number result) }
{
    let Ok(mut reader) = CmdReader::new(file.alloc, file.number, file.name) else {
        return Err(Outcome::NoMemory);
    };
    let mut keeper = Keeper::new(file.alloc, core, origin);
    let mut own = None;
    loop {
        let frame = match reader.advance(inputs) {
            Ok(Some(frame)) => frame,
            Ok(None) => return keeper.finish(file.number),
            Err(stop) => return Err(outcome_of(file.number, stop)),
        };
        let item = match reader.item(frame) {
            Ok(item) => item,
            Err(verdict) => return Err(Outcome::Refused(verdict)),
        };
        own = keeper.hide_own(own, &item);
        match keeper.take_named(file, &item) {
            Ok(()) => {}
            Err(outcome) => return Err(outcome),
        }
    }
}

impl<R: Origin> Keeper<R> {
    // Nothing was read. The origin reaches as far as the data of any command.
    fn new(alloc: Global, core: EditCore<R>, origin: R) -> Keeper<R>
        requires reach { 2 ^ 18 ≤ R.reach origin }
        ensures start { result ≡ record {
          state = start_of (recelled_store (λ _. tt) core);
          log = [];
          fates = None;
          passed = nothing_yet;
        } }
    {
        Keeper {
            alloc,
            core,
            part: None,
            origin,
            log: Log::new(alloc),
            fates: None,
            passed: Passed {
                begun: false,
                closed: false,
                version: 1,
                number: 0,
                offset: 0,
            },
        }
    }

    // Takes out of the core the subvolume that the first command begins, if that is a head, and
    // answers its UUID; at a later command answers the one from before.
    fn hide_own(&mut self, own: Option<Uuid>, item: &Item<'_>) -> Option<Uuid>
        requires outside { self.old.passed.number ≡ 0 → self.old.state.part ≡ None }
        ensures first { self.old.passed.number ≡ 0
            → IsHidden (uuids_of (meaning_of item.now.command)) self.old self.new
            (option_to_list result) }
        ensures later { 1 ≤ self.old.passed.number
            → (result ≡ own) × (self.new ≡ self.old) }
    {
        if self.passed.number != 0 {
            return own;
        }
        let Some(head) = head_of(&item.command) else {
            return None;
        };
        let uuid = head.key.uuid;
        self.core.hide(uuid);
        Some(uuid)
    }

    // One command, with what is said in front of the file.
    fn take_named(&mut self, file: &NamedFile<'_>, item: &Item<'_>) -> Result<(), Outcome>
        requires short { data_len (meaning_of item.now.command) ≤ 2 ^ 18 }
        requires lawful { IsLawfulOverride file.now.said.now }
        ensures stops { IfErr result IsStop }
        ensures taken { Takes self.old self.new
            (overridden_as file.now.said.now (item_of file.now.number item.now)) result }
    {
        let changed = override_item(file.said, item);
        let meant = given_or(item, &changed);
        self.take(file.number, meant)
    }

    // One command.
    fn take(&mut self, file: u64, item: &Item<'_>) -> Result<(), Outcome>
        requires short { data_len (meaning_of item.now.command) ≤ 2 ^ 18 }
        ensures stops { IfErr result IsStop }
        ensures taken { Takes self.old self.new (item_of file item.now) result }
    {
        if ends(&item.command) {
            self.take_end(file, item)
        } else {
            self.take_inner(file, item)
        }
    }

    // END: the fates of the part's WRITE commands are found before it is complete.
    fn take_end(&mut self, file: u64, item: &Item<'_>) -> Result<(), Outcome>
        requires short { data_len (meaning_of item.now.command) ≤ 2 ^ 18 }
        requires end { is_end (meaning_of item.now.command) ≡ true }
        ensures stops { IfErr result IsStop }
        ensures taken { Takes self.old self.new (item_of file item.now) result }
    {
        if self.close().is_err() {
            return Err(Outcome::NoMemory);
        }
        self.step(file, item)
    }

    // Another command: what it does to contents is logged.
    fn take_inner(&mut self, file: u64, item: &Item<'_>) -> Result<(), Outcome>
        requires short { data_len (meaning_of item.now.command) ≤ 2 ^ 18 }
        requires inner { is_end (meaning_of item.now.command) ≡ false }
        ensures stops { IfErr result IsStop }
        ensures taken { Takes self.old self.new (item_of file item.now) result }
    {
        let change = self.change_at(&item.command);
        match self.step(file, item) {
            Ok(()) => {}
            Err(outcome) => return Err(outcome),
        }
        let Some(change) = change else {
            return Ok(());
        };
        match self.log.push(change) {
            Ok(()) => Ok(()),
            Err(_) => Err(Outcome::NoMemory),
        }
    }

    // What a command is about to do to contents.
    fn change_at(&self, command: &Command<'_>) -> Option<Change>
        ensures change { option_to_list result
            ≡ changes_at self.now.state.part (meaning_of command.now) }
        ensures sized { IfSome result
            (λ change. IfSome self.now.state.part (λ part. IsSized part.subvolume change)) }
    {
        match &self.part {
            Some(part) => change_of(part, command),
            None => None,
        }
    }

    // One step of the core, if the command is no second head and stands not behind END.
    fn step(&mut self, file: u64, item: &Item<'_>) -> Result<(), Outcome>
        requires short { data_len (meaning_of item.now.command) ≤ 2 ^ 18 }
        ensures stops { IfErr result IsStop }
        ensures stepped { Steps self.old self.new (item_of file item.now) result }
    {
        match self.core.step(&mut self.part, &item.command, self.origin) {
            Ok(_) => {}
            Err(Stop::NoMemory) => return Err(Outcome::NoMemory),
            Err(Stop::Refused(refusal)) => return Err(refused(file, item, refusal)),
        }
        let is_head = head_of(&item.command).is_some();
        if self.passed.is_second(is_head) {
            return Err(refused(file, item, Refusal::NotConsecutive));
        }
        self.passed = self.passed.with(item, is_head);
        Ok(())
    }

    // The part, if there is one, is complete with the next command: the fates of its WRITE commands
    // are found.
    fn close(&mut self) -> Result<(), AllocError>
        ensures { OnOk result (IsClosing self.old self.new) }
    {
        let Some(part) = &self.part else {
            return Ok(());
        };
        let log = mem::replace(&mut self.log, Log::new(self.alloc));
        let end = PartEnd {
            tree: part.sub().tree(),
        };
        self.fates = Some(find_fates(self.alloc, log, &end)?);
        Ok(())
    }

    // The file was read to its end.
    fn finish(self, file: u64) -> Result<Judged, Outcome>
        ensures stops { IfErr result IsStop }
        ensures judged { JudgedBy file self result }
    {
        let Keeper { fates, passed, .. } = self;
        let Some(fates) = fates else {
            return Err(Outcome::Refused(Verdict {
                file,
                command: passed.number,
                offset: passed.offset,
                refusal: Refusal::NotConsecutive,
            }));
        };
        Ok(Judged {
            fates,
            version: passed.version,
            commands: passed.number,
        })
    }
}

impl Passed {
    // Whether a command is a second head, or stands behind END.
    fn is_second(self, is_head: bool) -> bool
        ensures { result ≡ (self.closed || (self.begun && is_head)) }
    {
        self.closed || self.begun && is_head
    }

    // And one command more.
    fn with(self, item: &Item<'_>, is_head: bool) -> Passed
        ensures begun { result.begun ≡ (self.begun || is_head) }
        ensures closed { result.closed ≡ (self.closed || is_end (meaning_of item.now.command)) }
        ensures version { result.version ≡ item.now.version }
        ensures number { result.number ≡ item.now.number }
        ensures offset { result.offset ≡ item.now.offset }
    {
        Passed {
            begun: self.begun || is_head,
            closed: self.closed || ends(&item.command),
            version: item.version,
            number: item.number,
            offset: item.offset,
        }
    }
}

// Whether a command is END.
fn ends(command: &Command<'_>) -> bool
    ensures { result ≡ is_end (meaning_of command.now) }
{
    match command {
        Command::End => true,
        _ => false,
    }
}

// A command is refused.
fn refused(file: u64, item: &Item<'_>, refusal: Refusal) -> Outcome
    ensures { result ≡ ended.Refused (record {
      file = file;
      command = item.now.number;
      offset = item.now.offset;
      refusal = refusal;
    }) }
{
    Outcome::Refused(Verdict {
        file,
        command: item.number,
        offset: item.offset,
        refusal,
    })
}
