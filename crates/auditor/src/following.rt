// Following commands: each is looked at by the guards, and then it is one step of the core.
ghost use Rattle.std.specs.Prelude.{◌≡◌, ◌≤◌, ◌^◌, ℕ, map, None, IfOk, IfErr, IfSome};
ghost use Rattle.std.specs.Option.{option_map};
ghost use Rattle.send_model.specs.Cells.{recelled};
ghost use Rattle.send_model.specs.Overridden.{overridden_as, IsLawfulOverride};
ghost use Rattle.sx_base.specs.Calls.{IsStop};
ghost use Rattle.send_commands.specs.Meaning.{meaning_of};
ghost use Rattle.clone_resolve.specs.Steps.{data_len, done_by, Answers};
ghost use Rattle.cmd_reader.specs.Next.{item_of};
ghost use Rattle.auditor.specs.Following.{blank, blank_step, beside, follow};
ghost use Rattle.auditor.specs.Answers.{Follows, ItemEnds};

use clone_resolve::{Done, EditCore, Part};
use cmd_reader::Item;
use extent_map::Origin;
use guard_rules::{Guard, look_all};
use inode_tree::Tree;
use part_names::{NamedFile, given_or, override_item};
use send_commands::Command;
use std::marker::Model;
use sx_base::{Outcome, Refusal, Stop, Verdict};

/// The subvolumes and the part so far, seen without their cells, and the origin of every WRITE.
#[derive(Drop)]
pub struct Follower<R: Origin> {
    core: EditCore<R>,
    part: Option<Part<R>>,
    origin: R,
}

impl<R: Origin> Model for Follower<R> {
    ghost use Rattle.std.specs.Prelude.{◌≤◌, ◌^◌};
    ghost use Rattle.send_model.specs.Store as meant;
    ghost use Rattle.send_model.specs.Cells.{recelled_state};
    ghost use Rattle.clone_resolve.specs.Steps.{Fits};

    ghost Value = { meant.State (Unit {0}) };

    ghost view = { λ f. recelled_state (λ _. tt) (record { store = f.core; part = f.part }) };

    ghost invariant = { λ f. (2 ^ 18 ≤ R.reach f.origin) × Fits f.core f.part };
}

impl<R: Origin> Follower<R> {
    /// No part yet. The origin reaches as far as the data of any command. Takes no memory.
    pub fn new(core: EditCore<R>, origin: R) -> Follower<R>
        requires reach { 2 ^ 18 ≤ R.reach origin }
        ensures start { result ≡ record { store = blank core; part = None } }
    {
        Follower {
            core,
            part: None,
            origin,
        }
    }

    /// The inodes and names of the part so far. Takes no memory.
    pub fn tree(&self) -> Option<&Tree<R>>
        ensures { option_map (λ t. recelled (λ _. tt) t.now) result
            ≡ option_map (λ p. p.subvolume) self.now.part }
    {
        match &self.part {
            Some(part) => Some(part.sub().tree()),
            None => None,
        }
    }

    /// One command. After a refusal it is not said what the part is.
    ///
    /// # Errors
    /// The refusals of the command.
    pub fn step(&mut self, command: &Command<'_>) -> Result<Done, Stop>
        requires short { data_len (meaning_of command.now) ≤ 2 ^ 18 }
        ensures done { IfOk result (λ done. done ≡ done_by (meaning_of command.now)) }
        ensures stepped { Answers result self.new (blank_step self.old (meaning_of command.now)) }
    {
        self.core.step(&mut self.part, command, self.origin)
    }
}

// One command under guards. After an error it is not said what they and the part are.
fn look_and_step<R: Origin>(
    follower: &mut Follower<R>,
    guards: &mut [Box<dyn Guard>],
    item: &Item<'_>,
) -> Result<Done, Stop>
    requires short { data_len (meaning_of item.now.command) ≤ 2 ^ 18 }
    ensures followed { (file : ℕ) → Follows result
        (beside (map (λ g. kept g) guards.new) follower.new) (item_of file item.now)
        (follow (beside (map (λ g. kept g) guards.old) follower.old) (item_of file item.now)) }
{
    if let Some(place) = look_all(guards, &item.command) {
        return Err(Stop::Refused(Refusal::Guarded {
            guard: place as u64,
            used: count_of(&guards[place]),
        }));
    }
    follower.step(&item.command)
}

// What a guard has counted.
fn count_of(guard: &Box<dyn Guard>) -> u64
    ensures { result ≡ (kept guard.now).used }
{
    guard.used()
}

// The next command of a file, which is the given one of several: it is accepted, or its outcome
// ends the audit.
fn follow_item<R: Origin>(
    follower: &mut Follower<R>,
    guards: &mut [Box<dyn Guard>],
    file: u64,
    item: &Item<'_>,
) -> Result<Done, Outcome>
    requires short { data_len (meaning_of item.now.command) ≤ 2 ^ 18 }
    ensures stops { IfErr result IsStop }
    ensures followed { ItemEnds (beside (map (λ g. kept g) guards.old) follower.old)
        (beside (map (λ g. kept g) guards.new) follower.new) (item_of file item.now) result }
{
    match look_and_step(follower, guards, item) {
        Ok(done) => Ok(done),
        Err(Stop::NoMemory) => Err(Outcome::NoMemory),
        Err(Stop::Refused(refusal)) => Err(Outcome::Refused(Verdict {
            file,
            command: item.number,
            offset: item.offset,
            refusal,
        })),
    }
}

// The same, with what is said in front of the file.
pub(crate) fn follow_named<R: Origin>(
    file: &NamedFile<'_>,
    follower: &mut Follower<R>,
    guards: &mut [Box<dyn Guard>],
    item: &Item<'_>,
) -> Result<Done, Outcome>
    requires short { data_len (meaning_of item.now.command) ≤ 2 ^ 18 }
    requires lawful { IsLawfulOverride file.now.said.now }
    ensures stops { IfErr result IsStop }
    ensures followed { ItemEnds (beside (map (λ g. kept g) guards.old) follower.old)
        (beside (map (λ g. kept g) guards.new) follower.new)
        (overridden_as file.now.said.now (item_of file.now.number item.now)) result }
{
    let changed = override_item(file.said, item);
    let meant = given_or(item, &changed);
    follow_item(follower, guards, file.number, meant)
}
