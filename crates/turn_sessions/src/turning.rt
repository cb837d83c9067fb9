// Turns of several sessions, one after the other.
ghost use Rattle.std.specs.Prelude.{◌≡◌, ◌≤◌, ◌<◌, ◌++◌, ℕ, List, [], ◌∷◌, Option, None, map, length, replicate, IfErr, IfOk, OnOk};
ghost use Rattle.std.specs.Option.{option_map};
ghost use Rattle.std.specs.String.{string_bytes};
ghost use Rattle.sx_base.specs.Asks.{AreReadInTurn};
ghost use Rattle.sx_base.specs.Calls.{IfAllTold};
ghost use Rattle.sx_base.specs.Causes.{Steady};
ghost use Rattle.sx_base.specs.Later.{AskedOnly, InputsLater, OutputLater};
ghost use Rattle.sx_base.specs.Refusals.{verdict_meant};
ghost use Rattle.send_model.specs.Receive.{first_of};
ghost use Rattle.store_model.specs.Turns as meant;
ghost use Rattle.store_model.specs.Turns.{Turns, after_turns, one_turn, to_the_end};
ghost use Rattle.store_model.specs.TurnDues.{TurnsEnd};
ghost use Rattle.auditor.specs.Following.{blank};
ghost use Rattle.store_journal.specs.Shown.{StoreState, IsIdle};
ghost use Rattle.receiver.specs.Answers.{fault_counts, IsEnd};
ghost use Rattle.turn_sessions.specs.Standing.{Blank, blank_cells};
ghost use Rattle.turn_sessions.specs.Doing.{ErrCaused, IdleSays, run_of, work};
ghost use Rattle.turn_sessions.specs.Ends.{ArePlaces, places_of};
ghost use Rattle.turn_sessions.specs.Asked.{read_by};
ghost use Rattle.turn_sessions.specs.Going.{AreNew, AreReading, AreShorter, AreTaking, IsGoing, GoingSays, course_of, FewerLeft, HasFewer};

use crate::session::{Session, new_session, take_turn};
use crate::task::{Task, Turn, Turned};
use receiver::{Guarding, Received};
use std::alloc::{AllocError, Global};
use store_journal::Store;
use sx_base::{Disk, Inputs, Sink, Verdict};

// Sessions of these files, in order, each with its own guards.
pub(crate) fn new_sessions<G: Guarding + Drop>(
    alloc: Global,
    files: &[String],
    guards: Vec<G>,
) -> Result<Vec<Session<G>>, AllocError>
    requires { length guards.items ≡ length files.now }
    ensures { IfOk result (λ sessions. AreNew 1 (map string_bytes files.now) guards.items
        sessions.items) }
{
    let mut rest = guards;
    let mut sessions = Vec::new(alloc);
    for place in 0..files.len() {
        let own = rest.remove(0);
        let session = match new_session(alloc, place as u64 + 1, files[place].as_str(), own) {
            Ok(session) => session,
            Err(error) => return Err(error),
        };
        sessions.push(session)?;
    }
    Ok(sessions)
}

// The verdict of the session that was refused first.
fn first_of(refused: Option<Verdict>, now: Option<Verdict>) -> Option<Verdict>
    ensures { option_map verdict_meant result
        ≡ first_of (option_map verdict_meant refused) (option_map verdict_meant now) }
{
    match refused {
        Some(verdict) => Some(verdict),
        None => now,
    }
}

// A turn of the session at a place. The verdict is that of the session that was refused first.
fn turn_at<I: Inputs, O: Sink, D: Disk, G: Guarding + Drop>(
    turn: &Turn,
    store: &mut Store,
    disk: &mut D,
    inputs: &mut I,
    sessions: &mut [Session<G>],
    out: &mut O,
) -> Result<Option<Verdict>, Received>
    requires idle { IsIdle (D.len disk.old) store.old }
    requires within { turn.now.place < length sessions.old }
    requires reading { (names : List (List ℕ))
        × AreReading (I.told inputs.old) 1 names sessions.old }
    requires taking { (w : Turns Blank) × AreTaking G.kept sessions.old (blank store.old.core) w }
    ensures inputs { InputsLater I.Inputs inputs.old inputs.new result }
    ensures asked { AskedOnly I.Inputs inputs.old inputs.new
        (λ asks. AreReadInTurn (read_by sessions.old) asks (read_by sessions.new)) }
    ensures count { length sessions.new ≡ length sessions.old }
    ensures reading { (names : List (List ℕ)) →
        AreReading (I.told inputs.old) 1 names sessions.old →
        OnOk result (AreReading (I.told inputs.new) 1 names sessions.new) }
    ensures taking { OnOk result ((w : Turns Blank)
        × AreTaking G.kept sessions.new (blank store.new.core) w) }
    ensures fewer { OnOk result (FewerLeft turn.now.place sessions.old sessions.new) }
    ensures going { (start : D) (was : StoreState) (begun : Option (List ℕ))
        (names : List (List ℕ)) (w : Turns Blank) (end : TurnsEnd) (last : Turns Blank)
        (rest : List ℕ) →
        AreReading (I.told inputs.old) 1 names sessions.old → IfAllTold (I.told inputs.old) names
        (λ files. IsGoing (run_of D.Disk (work start was begun)
        (work disk.old store.old (O.taken out.old))) G.kept
        (course_of files w (turn.now.place ∷ rest) end last) turn.now.refused sessions.old →
        GoingSays (run_of D.Disk (work start was begun) (work disk.new store.new (O.taken out.new)))
        G.kept (course_of files (one_turn tt blank_cells w turn.now.place) rest end last)
        sessions.new result) }
    ensures limit { store.new.log.limit ≡ store.old.log.limit }
    ensures idle { IdleSays result (D.len disk.new) store.new }
    ensures stops { IfErr result IsEnd }
    ensures cause { ErrCaused
        (fault_counts (I.faults inputs.old) (O.faults out.old) (D.faults disk.old))
        (fault_counts (I.faults inputs.new) (O.faults out.new) (D.faults disk.new)) result }
    ensures later { D.faults disk.old ≤ D.faults disk.new }
    ensures steady { Steady (D.faults disk.old) (D.faults disk.new) result }
    ensures out { OutputLater O.Sink out.old out.new result }
{
    match take_turn(
        turn.alloc,
        store,
        disk,
        inputs,
        &mut sessions[turn.place],
        out,
    ) {
        Ok(now) => Ok(first_of(turn.refused, now)),
        Err(why) => Err(why),
    }
}

// A turn for each of these digits, of the session of that number.
fn take_scheduled<I: Inputs, O: Sink, D: Disk, G: Guarding + Drop>(
    task: &Task<'_>,
    store: &mut Store,
    disk: &mut D,
    inputs: &mut I,
    sessions: &mut [Session<G>],
    out: &mut O,
) -> Result<Option<Verdict>, Received>
    requires idle { IsIdle (D.len disk.old) store.old }
    requires places { ArePlaces (length sessions.old) task.now.schedule.now }
    requires reading { (names : List (List ℕ))
        × AreReading (I.told inputs.old) 1 names sessions.old }
    requires taking { (w : Turns Blank) × AreTaking G.kept sessions.old (blank store.old.core) w }
    ensures inputs { InputsLater I.Inputs inputs.old inputs.new result }
    ensures asked { AskedOnly I.Inputs inputs.old inputs.new
        (λ asks. AreReadInTurn (read_by sessions.old) asks (read_by sessions.new)) }
    ensures count { length sessions.new ≡ length sessions.old }
    ensures reading { (names : List (List ℕ)) →
        AreReading (I.told inputs.old) 1 names sessions.old →
        OnOk result (AreReading (I.told inputs.new) 1 names sessions.new) }
    ensures taking { OnOk result ((w : Turns Blank)
        × AreTaking G.kept sessions.new (blank store.new.core) w) }
    ensures going { (start : D) (was : StoreState) (begun : Option (List ℕ))
        (names : List (List ℕ)) (w : Turns Blank) (end : TurnsEnd) (last : Turns Blank)
        (rest : List ℕ) →
        AreReading (I.told inputs.old) 1 names sessions.old → IfAllTold (I.told inputs.old) names
        (λ files. IsGoing (run_of D.Disk (work start was begun)
        (work disk.old store.old (O.taken out.old))) G.kept (course_of files w
        (places_of task.now.schedule.now ++ rest) end last) None sessions.old →
        GoingSays (run_of D.Disk (work start was begun) (work disk.new store.new (O.taken out.new)))
        G.kept (course_of files (after_turns tt blank_cells w (places_of task.now.schedule.now))
        rest end last) sessions.new result) }
    ensures limit { store.new.log.limit ≡ store.old.log.limit }
    ensures idle { IdleSays result (D.len disk.new) store.new }
    ensures stops { IfErr result IsEnd }
    ensures cause { ErrCaused
        (fault_counts (I.faults inputs.old) (O.faults out.old) (D.faults disk.old))
        (fault_counts (I.faults inputs.new) (O.faults out.new) (D.faults disk.new)) result }
    ensures later { D.faults disk.old ≤ D.faults disk.new }
    ensures steady { Steady (D.faults disk.old) (D.faults disk.new) result }
    ensures out { OutputLater O.Sink out.old out.new result }
{
    let mut refused = None;
    for i in 0..task.schedule.len() {
        let place = (task.schedule[i] - b'0') as usize;
        let turn = Turn {
            alloc: task.alloc,
            place,
            refused,
        };
        match turn_at(&turn, store, disk, inputs, sessions, out) {
            Ok(now) => refused = now,
            Err(why) => return Err(why),
        }
    }
    Ok(refused)
}

// All turns: those of these digits, and then each session goes on to its end.
pub(crate) fn take_turns<I: Inputs, O: Sink, D: Disk, G: Guarding + Drop>(
    task: &Task<'_>,
    store: &mut Store,
    disk: &mut D,
    inputs: &mut I,
    sessions: &mut [Session<G>],
    out: &mut O,
) -> Result<Option<Verdict>, Received>
    requires idle { IsIdle (D.len disk.old) store.old }
    requires places { ArePlaces (length sessions.old) task.now.schedule.now }
    requires reading { (names : List (List ℕ))
        × AreReading (I.told inputs.old) 1 names sessions.old }
    requires taking { (w : Turns Blank) × AreTaking G.kept sessions.old (blank store.old.core) w }
    ensures inputs { InputsLater I.Inputs inputs.old inputs.new result }
    ensures asked { AskedOnly I.Inputs inputs.old inputs.new
        (λ asks. AreReadInTurn (read_by sessions.old) asks (read_by sessions.new)) }
    ensures count { length sessions.new ≡ length sessions.old }
    ensures reading { (names : List (List ℕ)) →
        AreReading (I.told inputs.old) 1 names sessions.old →
        OnOk result (AreReading (I.told inputs.new) 1 names sessions.new) }
    ensures taking { OnOk result ((w : Turns Blank)
        × AreTaking G.kept sessions.new (blank store.new.core) w) }
    ensures going { (start : D) (was : StoreState) (begun : Option (List ℕ))
        (names : List (List ℕ)) (at_first : List (meant.Session Blank)) (w : Turns Blank)
        (end : TurnsEnd) (last : Turns Blank) →
        length at_first ≡ length sessions.old → AreShorter at_first w.sessions →
        AreReading (I.told inputs.old) 1 names sessions.old → IfAllTold (I.told inputs.old) names
        (λ files. IsGoing (run_of D.Disk (work start was begun)
        (work disk.old store.old (O.taken out.old))) G.kept (course_of files w
        (places_of task.now.schedule.now ++ to_the_end 0 at_first) end last) None sessions.old →
        GoingSays (run_of D.Disk (work start was begun) (work disk.new store.new (O.taken out.new)))
        G.kept (course_of files (after_turns tt blank_cells
        (after_turns tt blank_cells w (places_of task.now.schedule.now)) (to_the_end 0 at_first)) []
        end last) sessions.new result) }
    ensures limit { store.new.log.limit ≡ store.old.log.limit }
    ensures idle { IdleSays result (D.len disk.new) store.new }
    ensures stops { IfErr result IsEnd }
    ensures cause { ErrCaused
        (fault_counts (I.faults inputs.old) (O.faults out.old) (D.faults disk.old))
        (fault_counts (I.faults inputs.new) (O.faults out.new) (D.faults disk.new)) result }
    ensures later { D.faults disk.old ≤ D.faults disk.new }
    ensures steady { Steady (D.faults disk.old) (D.faults disk.new) result }
    ensures out { OutputLater O.Sink out.old out.new result }
{
    match take_scheduled(task, store, disk, inputs, sessions, out) {
        Ok(refused) => {
            let turned = Turned {
                alloc: task.alloc,
                refused,
            };
            take_rest(&turned, store, disk, inputs, sessions, out)
        }
        Err(why) => Err(why),
    }
}

// Each session goes on to its end, the first one first.
fn take_rest<I: Inputs, O: Sink, D: Disk, G: Guarding + Drop>(
    turned: &Turned,
    store: &mut Store,
    disk: &mut D,
    inputs: &mut I,
    sessions: &mut [Session<G>],
    out: &mut O,
) -> Result<Option<Verdict>, Received>
    requires idle { IsIdle (D.len disk.old) store.old }
    requires reading { (names : List (List ℕ))
        × AreReading (I.told inputs.old) 1 names sessions.old }
    requires taking { (w : Turns Blank) × AreTaking G.kept sessions.old (blank store.old.core) w }
    ensures inputs { InputsLater I.Inputs inputs.old inputs.new result }
    ensures asked { AskedOnly I.Inputs inputs.old inputs.new
        (λ asks. AreReadInTurn (read_by sessions.old) asks (read_by sessions.new)) }
    ensures count { length sessions.new ≡ length sessions.old }
    ensures reading { (names : List (List ℕ)) →
        AreReading (I.told inputs.old) 1 names sessions.old →
        OnOk result (AreReading (I.told inputs.new) 1 names sessions.new) }
    ensures taking { OnOk result ((w : Turns Blank)
        × AreTaking G.kept sessions.new (blank store.new.core) w) }
    ensures going { (start : D) (was : StoreState) (begun : Option (List ℕ))
        (names : List (List ℕ)) (at_first : List (meant.Session Blank)) (w : Turns Blank)
        (end : TurnsEnd) (last : Turns Blank) →
        length at_first ≡ length sessions.old → AreShorter at_first w.sessions →
        AreReading (I.told inputs.old) 1 names sessions.old → IfAllTold (I.told inputs.old) names
        (λ files. IsGoing (run_of D.Disk (work start was begun)
        (work disk.old store.old (O.taken out.old))) G.kept
        (course_of files w (to_the_end 0 at_first) end last) turned.now.refused sessions.old →
        GoingSays (run_of D.Disk (work start was begun) (work disk.new store.new (O.taken out.new)))
        G.kept (course_of files (after_turns tt blank_cells w (to_the_end 0 at_first)) [] end last)
        sessions.new result) }
    ensures limit { store.new.log.limit ≡ store.old.log.limit }
    ensures idle { IdleSays result (D.len disk.new) store.new }
    ensures stops { IfErr result IsEnd }
    ensures cause { ErrCaused
        (fault_counts (I.faults inputs.old) (O.faults out.old) (D.faults disk.old))
        (fault_counts (I.faults inputs.new) (O.faults out.new) (D.faults disk.new)) result }
    ensures later { D.faults disk.old ≤ D.faults disk.new }
    ensures steady { Steady (D.faults disk.old) (D.faults disk.new) result }
    ensures out { OutputLater O.Sink out.old out.new result }
{
    let mut refused = turned.refused;
    for place in 0..sessions.len() {
        let turn = Turn {
            alloc: turned.alloc,
            place,
            refused,
        };
        match finish(&turn, store, disk, inputs, sessions, out) {
            Ok(now) => refused = now,
            Err(why) => return Err(why),
        }
    }
    Ok(refused)
}

// The session at a place goes on to its end.
fn finish<I: Inputs, O: Sink, D: Disk, G: Guarding + Drop>(
    turn: &Turn,
    store: &mut Store,
    disk: &mut D,
    inputs: &mut I,
    sessions: &mut [Session<G>],
    out: &mut O,
) -> Result<Option<Verdict>, Received>
    requires idle { IsIdle (D.len disk.old) store.old }
    requires within { turn.now.place < length sessions.old }
    requires reading { (names : List (List ℕ))
        × AreReading (I.told inputs.old) 1 names sessions.old }
    requires taking { (w : Turns Blank) × AreTaking G.kept sessions.old (blank store.old.core) w }
    ensures inputs { InputsLater I.Inputs inputs.old inputs.new result }
    ensures asked { AskedOnly I.Inputs inputs.old inputs.new
        (λ asks. AreReadInTurn (read_by sessions.old) asks (read_by sessions.new)) }
    ensures count { length sessions.new ≡ length sessions.old }
    ensures reading { (names : List (List ℕ)) →
        AreReading (I.told inputs.old) 1 names sessions.old →
        OnOk result (AreReading (I.told inputs.new) 1 names sessions.new) }
    ensures taking { OnOk result ((w : Turns Blank)
        × AreTaking G.kept sessions.new (blank store.new.core) w) }
    ensures going { (start : D) (was : StoreState) (begun : Option (List ℕ))
        (names : List (List ℕ)) (w : Turns Blank) (end : TurnsEnd) (last : Turns Blank)
        (rest : List ℕ) (turns : ℕ) → HasFewer w turn.now.place turns →
        AreReading (I.told inputs.old) 1 names sessions.old → IfAllTold (I.told inputs.old) names
        (λ files. IsGoing (run_of D.Disk (work start was begun)
        (work disk.old store.old (O.taken out.old))) G.kept (course_of files w
        (replicate turns turn.now.place ++ rest) end last) turn.now.refused sessions.old →
        GoingSays (run_of D.Disk (work start was begun) (work disk.new store.new (O.taken out.new)))
        G.kept (course_of files (after_turns tt blank_cells w (replicate turns turn.now.place)) rest
        end last) sessions.new result) }
    ensures limit { store.new.log.limit ≡ store.old.log.limit }
    ensures idle { IdleSays result (D.len disk.new) store.new }
    ensures stops { IfErr result IsEnd }
    ensures cause { ErrCaused
        (fault_counts (I.faults inputs.old) (O.faults out.old) (D.faults disk.old))
        (fault_counts (I.faults inputs.new) (O.faults out.new) (D.faults disk.new)) result }
    ensures later { D.faults disk.old ≤ D.faults disk.new }
    ensures steady { Steady (D.faults disk.old) (D.faults disk.new) result }
    ensures out { OutputLater O.Sink out.old out.new result }
{
    let place = turn.place;
    let mut refused = turn.refused;
    while !sessions[place].is_over {
        let next = Turn {
            alloc: turn.alloc,
            place,
            refused,
        };
        match turn_at(&next, store, disk, inputs, sessions, out) {
            Ok(now) => refused = now,
            Err(why) => return Err(why),
        }
    }
    Ok(refused)
}
