// The same run again and again.
use crate::runs::{Outside, Power, Ran, changed_by, run_in};
use crate::scene::Scene;
use crate::shown::{push_status, push_written};
use std::alloc::{AllocError, Global};
use stream_dump::push_decimal;
use sx_base::Blob;

// So often a run is made at the most.
const MOST: u64 = 10_000;
// So many turns a schedule has at the most.
const MOST_TURNS: u64 = 12;

/// What fails.
#[derive(Debug, Clone, Copy, PartialEq, Eq)]
pub(crate) enum Object {
    /// The inputs.
    Inputs,
    /// The inputs, of which a file ends early.
    Ends,
    /// Standard output.
    Output,
    /// The disk.
    Disk,
    /// The power, with one of the images that may be left.
    Power(u64),
}

/// What comes of a run whose first, second, .. call fails, until it ends with the status that it
/// has when none does. The numbers of calls with one answer stand in one paragraph.
pub(crate) fn shown_every(
    scene: &Scene,
    words: &[String],
    object: Object,
) -> Result<Blob, AllocError> {
    let whole = run_in(scene, words, &Outside::new())?;
    let mut ranges = Ranges::new(scene.alloc, b"call ");
    for call in 1..MOST {
        let ran = run_in(scene, words, &outside_of(object, call))?;
        let mut answer = Blob::new(scene.alloc);
        push_answer(&ran, &whole, &mut answer)?;
        push_left(scene, words, &ran, &mut answer)?;
        ranges.add(call, answer)?;
        if ran.status == whole.status {
            break;
        }
    }
    ranges.ended()
}

/// What comes of a run with all shorter fronts of a file.
pub(crate) fn shown_cuts(scene: &Scene, words: &[String], name: &str) -> Result<Blob, AllocError> {
    let mut ranges = Ranges::new(scene.alloc, b"length ");
    let mut cut = scene.copy()?;
    for length in 0..scene.bytes(name).len() {
        let mut bytes = Blob::new(scene.alloc);
        bytes.push_all(scene.bytes(name).get(..length).unwrap_or(&[]))?;
        cut.set(name, bytes)?;
        ranges.add(length as u64, answer_in(&cut, words)?)?;
    }
    ranges.ended()
}

/// What comes of a run with each byte of a file turned into another one.
pub(crate) fn shown_flips(scene: &Scene, words: &[String], name: &str) -> Result<Blob, AllocError> {
    let mut ranges = Ranges::new(scene.alloc, b"place ");
    let mut turned = scene.copy()?;
    for (place, byte) in scene.bytes(name).iter().enumerate() {
        let mut bytes = Blob::new(scene.alloc);
        bytes.push_all(scene.bytes(name).get(..place).unwrap_or(&[]))?;
        bytes.push_all(&[*byte ^ 0xff])?;
        bytes.push_all(
            scene
                .bytes(name)
                .get(place.saturating_add(1)..)
                .unwrap_or(&[]),
        )?;
        turned.set(name, bytes)?;
        ranges.add(place as u64, answer_in(&turned, words)?)?;
    }
    ranges.ended()
}

/// What comes of a run with each schedule of so many turns of two files in the place of `#`.
pub(crate) fn shown_schedules(
    scene: &Scene,
    words: &[String],
    turns: u64,
) -> Result<Blob, AllocError> {
    let mut ranges = Ranges::new(scene.alloc, b"schedule ");
    for number in 0..1 << turns.min(MOST_TURNS) {
        let schedule = schedule_of(scene.alloc, turns, number)?;
        let mut scheduled = Vec::new(scene.alloc);
        for word in words {
            let word = match word.as_str() {
                "#" => schedule.as_str(),
                word => word,
            };
            let word = String::from_str(scene.alloc, word)?;
            if scheduled.push(word).is_err() {
                return Err(AllocError);
            }
        }
        ranges.add(number, answer_in(scene, scheduled.as_slice())?)?;
    }
    ranges.ended()
}

// The schedule whose digits are those of a number, the lowest last.
fn schedule_of(alloc: Global, turns: u64, number: u64) -> Result<String, AllocError> {
    let mut schedule = String::new(alloc);
    let turns = turns.min(MOST_TURNS);
    for turn in 0..turns {
        let place = turns - 1 - turn;
        let digit = if number >> place & 1 == 0 { '0' } else { '1' };
        schedule.push(digit)?;
    }
    Ok(schedule)
}

// What comes of a run.
fn answer_in(scene: &Scene, words: &[String]) -> Result<Blob, AllocError> {
    let ran = run_in(scene, words, &Outside::new())?;
    let mut answer = Blob::new(scene.alloc);
    push_status(&ran, &mut answer)?;
    push_left(scene, words, &ran, &mut answer)?;
    Ok(answer)
}

fn outside_of(object: Object, call: u64) -> Outside {
    let mut outside = Outside::new();
    match object {
        Object::Inputs => outside.inputs.fails = call,
        Object::Ends => outside.inputs.ends = call,
        Object::Output => outside.output.fails = call,
        Object::Disk => outside.disk = call,
        Object::Power(choice) => {
            outside.power = Some(Power {
                after: call.saturating_sub(1),
                choice,
            });
        }
    }
    outside
}

// The status and the message, and whether what was written is no front of what is written else.
fn push_answer(ran: &Ran, whole: &Ran, to: &mut Blob) -> Result<(), AllocError> {
    push_status(ran, to)?;
    if whole.out.bytes().starts_with(ran.out.bytes()) {
        return Ok(());
    }
    to.push_all(b"(what was written is no front of what is written else)\n")
}

// What a run wrote, and what `list` then says of the store that it made or changed.
fn push_left(scene: &Scene, words: &[String], ran: &Ran, to: &mut Blob) -> Result<(), AllocError> {
    let alloc = scene.alloc;
    push_written(b"  written:", ran.out.bytes(), to)?;
    let Some(store) = changed_by(words) else {
        return Ok(());
    };
    let mut left = Scene::new(alloc);
    left.set(store, ran.store.copy()?)?;
    let listed = run_in(&left, &list_of(alloc, store)?, &Outside::new())?;
    if listed.status == 0 {
        return push_written(b"  list:", listed.out.bytes(), to);
    }
    to.push_all(b"  list: ")?;
    push_status(&listed, to)
}

fn list_of(alloc: Global, store: &str) -> Result<Vec<String>, AllocError> {
    let mut words = Vec::new(alloc);
    for word in ["list", store] {
        let word = String::from_str(alloc, word)?;
        if words.push(word).is_err() {
            return Err(AllocError);
        }
    }
    Ok(words)
}

// Answers, of which equal ones behind one another stand only once.
#[derive(Debug, Drop)]
struct Ranges {
    what: &'static [u8],
    text: Blob,
    from: u64,
    to: u64,
    last: Blob,
}

impl Ranges {
    fn new(alloc: Global, what: &'static [u8]) -> Ranges {
        Ranges {
            what,
            text: Blob::new(alloc),
            from: 0,
            to: 0,
            last: Blob::new(alloc),
        }
    }

    // Adds the answer of a number.
    fn add(&mut self, number: u64, answer: Blob) -> Result<(), AllocError> {
        if answer.as_slice() != self.last.as_slice() {
            self.push()?;
            self.from = number;
            self.last = answer;
        }
        self.to = number;
        Ok(())
    }

    // All of them.
    fn ended(self) -> Result<Blob, AllocError> {
        let mut ranges = self;
        ranges.push()?;
        let Ranges { text, .. } = ranges;
        Ok(text)
    }

    fn push(&mut self) -> Result<(), AllocError> {
        if self.last.as_slice().is_empty() {
            return Ok(());
        }
        self.text.push_all(self.what)?;
        push_decimal(self.from, &mut self.text)?;
        if self.from < self.to {
            self.text.push_all(b" to ")?;
            push_decimal(self.to, &mut self.text)?;
        }
        self.text.push_all(b": ")?;
        self.text.push_all(self.last.as_slice())
    }
}
