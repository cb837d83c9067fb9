// A session, and one turn of it.
ghost use Rattle.std.specs.Prelude.{◌≡◌, ◌≤◌, ◌<◌, ℕ, List, ◌∷◌, Option, None, Some, Ok, false, true, IfOk, IfErr, OnOk};
ghost use Rattle.std.specs.Option.{option_map};
ghost use Rattle.sx_base.specs.Causes.{Steady};
ghost use Rattle.sx_base.specs.Later.{InputsLater, OutputLater, ReadsOn};
ghost use Rattle.sx_base.specs.Refusals.{refusal_of, verdict_meant};
ghost use Rattle.send_model.specs.Counts.{is_end};
ghost use Rattle.send_model.specs.Lengths.{limit};
ghost use Rattle.send_model.specs.Receive.{verdict_of};
ghost use Rattle.send_model.specs.Spelling.{IsSpellable};
ghost use Rattle.send_model.specs.Reading.{is_version, CommandDue};
ghost use Rattle.store_model.specs.Turns as meant;
ghost use Rattle.store_model.specs.Turns.{Receiving, session_turn};
ghost use Rattle.store_model.proofs.TurnOrder.{held_of};
ghost use Rattle.auditor.specs.Following.{blank};
ghost use Rattle.send_commands.specs.Meaning.{meaning_of};
ghost use Rattle.cmd_reader.specs.Places.{IfTold};
ghost use Rattle.cmd_reader.specs.Left.{Reader, at_start, HasAhead, read_to};
ghost use Rattle.cmd_reader.specs.Next.{item_of};
ghost use Rattle.store_journal.specs.Shown.{IsIdle};
ghost use Rattle.receiver.specs.Answers.{fault_counts};
ghost use Rattle.turn_sessions.specs.Standing.{Blank, blank_cells, AreParts, AreHeld, IsSession, session_with};
ghost use Rattle.turn_sessions.specs.Doing.{ErrCaused, IdleSays, IsItemStop, run_of, work};
ghost use Rattle.turn_sessions.specs.Turning.{HasVersion, HasVersionOf, IfTooLong, bytes_left, is_refused, TakesTurn, TurnSays};

use crate::items::take_item;
use crate::part::OpenPart;
use crate::task::FileItem;
use cmd_reader::{CmdReader, Item, ReadStop};
use receiver::{Guarding, Received};
use std::alloc::{AllocError, Global};
use store_journal::Store;
use sx_base::{Disk, Inputs, Outcome, Refusal, Sink, Verdict};

// A session: the reader of its file, its guards, the part that it receives, and whether it is over.
#[derive(Drop)]
pub(crate) struct Session<G: Guarding + Drop> {
    pub(crate) file: u64,
    pub(crate) reader: CmdReader,
    pub(crate) guards: G,
    pub(crate) current: Option<OpenPart>,
    pub(crate) is_over: bool,
}

// A session before its first turn.
pub(crate) fn new_session<G: Guarding + Drop>(
    alloc: Global,
    file: u64,
    name: &str,
    guards: G,
) -> Result<Session<G>, AllocError>
    ensures file { IfOk result (λ s. s.file ≡ file) }
    ensures reader { IfOk result (λ s. s.reader ≡ at_start file name.now) }
    ensures guards { IfOk result (λ s. s.guards ≡ guards) }
    ensures none { IfOk result (λ s. s.current ≡ None) }
    ensures going { IfOk result (λ s. s.is_over ≡ false) }
{
    let reader = CmdReader::new(alloc, file, name)?;
    Ok(Session {
        file,
        reader,
        guards,
        current: None,
        is_over: false,
    })
}

// A refusal, with the place of its command.
fn verdict_at(file: u64, item: &Item<'_>, refusal: Refusal) -> Verdict
    ensures { verdict_meant result ≡ verdict_of (item_of file item.now) (refusal_of refusal) }
{
    Verdict {
        file,
        command: item.number,
        offset: item.offset,
        refusal,
    }
}

// One turn: the next command is read and done. The verdict is that of a session that is refused
// now; it is over then, and so is one at its file's end. A session that is over does nothing.
pub(crate) fn take_turn<I: Inputs, O: Sink, D: Disk, G: Guarding + Drop>(
    alloc: Global,
    store: &mut Store,
    disk: &mut D,
    inputs: &mut I,
    session: &mut Session<G>,
    out: &mut O,
) -> Result<Option<Verdict>, Received>
    requires idle { IsIdle (D.len disk.old) store.old }
    requires file { session.old.reader.file ≡ session.old.file }
    requires ahead { IfTold (I.told inputs.old) session.old.reader.name
        (λ bytes. session.old.is_over ≡ false → HasAhead session.old.reader bytes) }
    requires within { session.old.is_over ≡ false → session.old.reader.offset ≤ limit }
    requires same { HasVersion session.old.reader session.old.current }
    requires held { (s : meant.Session Blank) × IsSession G.kept s session.old
        × AreHeld (blank store.old.core) (held_of s) }
    ensures inputs { InputsLater I.Inputs inputs.old inputs.new result }
    ensures asked { ReadsOn I.Inputs inputs.old inputs.new session.old.reader.name
        (read_to session.old.reader) (read_to session.new.reader) }
    ensures file { session.new.file ≡ session.old.file }
    ensures reader_file { session.new.reader.file ≡ session.old.reader.file }
    ensures reader_name { session.new.reader.name ≡ session.old.reader.name }
    ensures ahead { OnOk result (IfTold (I.told inputs.new) session.new.reader.name
        (λ bytes. session.new.is_over ≡ false → HasAhead session.new.reader bytes)) }
    ensures same { OnOk result (HasVersion session.new.reader session.new.current) }
    ensures within { OnOk result (session.new.is_over ≡ false →
        session.new.reader.offset ≤ limit) }
    ensures fewer { session.old.is_over ≡ false →
        OnOk result (bytes_left session.new < bytes_left session.old) }
    ensures turned { TakesTurn (run_of D.Disk (work disk.old store.old (O.taken out.old))
        (work disk.new store.new (O.taken out.new))) G.kept (I.told inputs.old)
        session.old session.new result }

    // At the limit of a file the store is as it was.
    ensures kept { IfErr result (λ why. IfTooLong why (store.new ≡ store.old)) }
    ensures limit { store.new.log.limit ≡ store.old.log.limit }
    ensures idle { IdleSays result (D.len disk.new) store.new }
    ensures cause { ErrCaused
        (fault_counts (I.faults inputs.old) (O.faults out.old) (D.faults disk.old))
        (fault_counts (I.faults inputs.new) (O.faults out.new) (D.faults disk.new)) result }
    ensures later { D.faults disk.old ≤ D.faults disk.new }
    ensures steady { Steady (D.faults disk.old) (D.faults disk.new) result }
    ensures out { OutputLater O.Sink out.old out.new result }
{
    if session.is_over {
        return Ok(None);
    }
    let file = session.file;
    let frame = match session.reader.advance(inputs) {
        Ok(Some(frame)) => frame,
        Ok(None) => {
            session.is_over = true;
            session.current = None;
            return Ok(None);
        }
        Err(ReadStop::Refused(verdict)) => {
            session.is_over = true;
            session.current = None;
            return Ok(Some(verdict));
        }
        Err(ReadStop::InputFault) => return Err(Received::Files(Outcome::InputFault)),
        Err(ReadStop::InputTooLong) => {
            return Err(Received::Files(Outcome::InputTooLong { file }));
        }
    };
    let item = match session.reader.item(frame) {
        Ok(item) => item,
        Err(verdict) => {
            session.is_over = true;
            session.current = None;
            return Ok(Some(verdict));
        }
    };
    let read = FileItem {
        alloc,
        file,
        item: &item,
    };
    let turned = do_turn(
        &read,
        store,
        disk,
        &mut session.guards,
        &mut session.current,
        out,
    );
    let over = is_refused(&turned);
    session.is_over = over;
    turned
}

// Whether a turn refuses its command.
fn is_refused(turned: &Result<Option<Verdict>, Received>) -> bool
    ensures { result ≡ is_refused turned.now }
{
    match turned {
        Ok(Some(_)) => true,
        Ok(None) => false,
        Err(_) => false,
    }
}

// One turn with the command that was read, of the session with these guards and this part. A
// session whose command is refused is over then, and has no part.
fn do_turn<O: Sink, D: Disk, G: Guarding + Drop>(
    read: &FileItem<'_, '_>,
    store: &mut Store,
    disk: &mut D,
    guards: &mut G,
    current: &mut Option<OpenPart>,
    out: &mut O,
) -> Result<Option<Verdict>, Received>
    requires idle { IsIdle (D.len disk.old) store.old }
    requires spellable { IsSpellable read.now.item.now.version
        (meaning_of read.now.item.now.command) }
    requires version { is_version read.now.item.now.version ≡ true }
    requires same { HasVersionOf read.now.item.now.version current.old }
    requires held { (p : Option (Receiving Blank)) × AreParts p current.old
        × AreHeld (blank store.old.core) p }
    ensures same { OnOk result (HasVersionOf read.now.item.now.version current.new) }
    ensures closed { is_end (meaning_of read.now.item.now.command) ≡ true →
        OnOk result (current.new ≡ None) }
    ensures turned { (reader : Reader) (s : meant.Session Blank) →
        IsSession G.kept s (session_with read.now.file reader guards.old current.old false) →
        AreHeld (blank store.old.core) (held_of s) → (items : List _) →
        s.items ≡ item_of read.now.file read.now.item.now ∷ items →
        TurnSays (run_of D.Disk (work disk.old store.old (O.taken out.old))
        (work disk.new store.new (O.taken out.new))) G.kept
        (session_turn tt blank_cells (blank store.old.core) s)
        (session_with read.now.file reader guards.new current.new (is_refused result)) result }
    ensures stops { IfErr result IsItemStop }
    ensures limit { store.new.log.limit ≡ store.old.log.limit }
    ensures idle { IdleSays result (D.len disk.new) store.new }
    ensures cause { ErrCaused (fault_counts 0 (O.faults out.old) (D.faults disk.old))
        (fault_counts 0 (O.faults out.new) (D.faults disk.new)) result }
    ensures later { D.faults disk.old ≤ D.faults disk.new }
    ensures steady { Steady (D.faults disk.old) (D.faults disk.new) result }
    ensures out { OutputLater O.Sink out.old out.new result }
{
    match take_item(read, store, disk, guards, current, out) {
        Ok(None) => Ok(None),
        Ok(Some(refusal)) => {
            *current = None;
            Ok(Some(verdict_at(read.file, read.item, refusal)))
        }
        Err(why) => Err(why),
    }
}
