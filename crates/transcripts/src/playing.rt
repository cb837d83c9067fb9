// The lines of a script, one after the other.
use crate::every::{Object, shown_cuts, shown_every, shown_flips, shown_schedules};
use crate::lines::{expanded, words_in};
use crate::making::made;
use crate::runs::{Outside, Power, run_in, store_of};
use crate::scene::Scene;
use crate::shown::{push_status, push_sum, shown};
use crate::stream_lines::Begun;
use guard_rules::number_of;
use std::alloc::{AllocError, Global};
use std::io::Write;
use std::{env, fs, io};
use sx_base::Blob;

/// Plays the scripts that the arguments name.
pub(crate) fn play_all(rt: &HostRuntime) -> io::Result<()> {
    let alloc = rt.alloc();
    for name in env::args(rt)?.skip(1) {
        let script = fs::read_to_string(rt, name.as_str())?;
        let mut player = Player::new(alloc);
        for line in script.lines() {
            let mut said = Blob::new(alloc);
            said.push_all(line.as_bytes())?;
            said.push_all(b"\n")?;
            if !player.take(line, &mut said)? {
                said.push_all(b"(this line means nothing)\n")?;
            }
            rt.stdout().write_all(said.as_slice())?;
        }
    }
    Ok(())
}

// A script as far as it is played.
#[derive(Debug, Drop)]
struct Player {
    scene: Scene,
    // The text that is read.
    begun: Option<Begun>,
    // What happens in the next run.
    outside: Outside,
}

impl Player {
    fn new(alloc: Global) -> Player {
        Player {
            scene: Scene::new(alloc),
            begun: None,
            outside: Outside::new(),
        }
    }

    // Does what a line says, and whether it says something.
    fn take(&mut self, line: &str, said: &mut Blob) -> Result<bool, AllocError> {
        let alloc = self.scene.alloc;
        if let Some(begun) = &mut self.begun {
            if line != "." {
                begun.add(line)?;
                return Ok(true);
            }
            return self.end_text(said);
        }
        if line.is_empty() || line.starts_with('#') {
            return Ok(true);
        }
        let line = expanded(alloc, line)?;
        let words = words_in(alloc, line.as_str())?;
        match words.as_slice() {
            [sign, words @ ..] if sign.as_str() == "$" => self.run(words, said),
            [what, name] if what.as_str() == "stream" || what.as_str() == "text" => {
                let is_plain = what.as_str() == "text";
                self.begun = Some(Begun::new(alloc, name.as_str(), is_plain)?);
                Ok(true)
            }
            [what, name] if what.as_str() == "sum" => {
                push_sum(self.scene.bytes(name.as_str()), said)?;
                said.push_all(b"\n")?;
                Ok(true)
            }
            [what] if what.as_str() == "new" => {
                *self = Player::new(alloc);
                Ok(true)
            }
            [what, more @ ..] if what.as_str() == "every" => self.run_every(more, said),
            [what, more @ ..] if self.plan(what.as_str(), more) => Ok(true),
            [what, name, more @ ..] => self.make(what.as_str(), name.as_str(), more),
            _ => Ok(false),
        }
    }

    // Makes a file of the text that is at its end.
    fn end_text(&mut self, said: &mut Blob) -> Result<bool, AllocError> {
        let Some(begun) = self.begun.take() else {
            return Ok(false);
        };
        match begun.packed()? {
            Ok(bytes) => self.scene.set(begun.name.as_str(), bytes)?,
            Err(number) => {
                said.push_all(b"(of this text line ")?;
                stream_dump::push_decimal(number, said)?;
                said.push_all(b" is wrong)\n")?;
            }
        }
        Ok(true)
    }

    // What is to happen in the next run.
    fn plan(&mut self, what: &str, more: &[String]) -> bool {
        let (number, choice) = match more {
            [number] => (number_of(number.as_bytes()), None),
            [number, choice] => (number_of(number.as_bytes()), number_of(choice.as_bytes())),
            _ => return false,
        };
        let Some(number) = number else {
            return false;
        };
        match (what, choice) {
            ("inputs", None) => self.outside.inputs.fails = number,
            ("output", None) => self.outside.output.fails = number,
            ("notes", None) => self.outside.notes.fails = number,
            ("disk", None) => self.outside.disk = number,
            ("ends", None) => self.outside.inputs.ends = number,
            ("short", None) => {
                self.outside.inputs.most = number as usize;
                self.outside.output.most = number as usize;
            }
            ("power", Some(choice)) => {
                self.outside.power = Some(Power {
                    after: number,
                    choice,
                });
            }
            _ => return false,
        }
        true
    }

    // Makes or changes a file.
    fn make(&mut self, what: &str, name: &str, more: &[String]) -> Result<bool, AllocError> {
        match made(&self.scene, what, name, more)? {
            Some(bytes) => {
                self.scene.set(name, bytes)?;
                Ok(true)
            }
            None => Ok(false),
        }
    }

    // One run, of which the files are kept.
    fn run(&mut self, words: &[String], said: &mut Blob) -> Result<bool, AllocError> {
        let (words, file) = match words {
            [words @ .., arrow, name] if arrow.as_str() == ">" => (words, Some(name)),
            words => (words, None),
        };
        let ran = run_in(&self.scene, words, &self.outside)?;
        self.outside = Outside::new();
        match file {
            Some(name) => {
                let mut bytes = Blob::new(self.scene.alloc);
                bytes.push_all(ran.out.bytes())?;
                self.scene.set(name.as_str(), bytes)?;
                push_status(&ran, said)?;
            }
            None => {
                let text = shown(self.scene.alloc, &ran)?;
                said.push_all(text.as_slice())?;
            }
        }
        if let Some(store) = store_of(words) {
            self.scene.set(store, ran.store)?;
        }
        Ok(true)
    }

    // The same run again and again. Nothing of it is kept.
    fn run_every(&mut self, more: &[String], said: &mut Blob) -> Result<bool, AllocError> {
        let text = match more {
            [what, name, sign, words @ ..] if what.as_str() == "cut" && sign.as_str() == "$" => {
                shown_cuts(&self.scene, words, name.as_str())?
            }
            [what, name, sign, words @ ..] if what.as_str() == "flip" && sign.as_str() == "$" => {
                shown_flips(&self.scene, words, name.as_str())?
            }
            [what, turns, sign, words @ ..]
                if what.as_str() == "schedule" && sign.as_str() == "$" => {
                match number_of(turns.as_bytes()) {
                    Some(turns) => shown_schedules(&self.scene, words, turns)?,
                    None => return Ok(false),
                }
            }
            more => match object_of(more) {
                Some((object, words)) => shown_every(&self.scene, words, object)?,
                None => return Ok(false),
            },
        };
        said.push_all(text.as_slice())?;
        Ok(true)
    }
}

// Which object is to fail, and the words of the run.
fn object_of(words: &[String]) -> Option<(Object, &[String])> {
    match words {
        [power, choice, sign, words @ ..] if power.as_str() == "power" && sign.as_str() == "$" => {
            Some((Object::Power(number_of(choice.as_bytes())?), words))
        }
        [what, sign, words @ ..] if sign.as_str() == "$" => {
            let object = match what.as_str() {
                "inputs" => Object::Inputs,
                "ends" => Object::Ends,
                "output" => Object::Output,
                "disk" => Object::Disk,
                _ => return None,
            };
            Some((object, words))
        }
        _ => None,
    }
}
