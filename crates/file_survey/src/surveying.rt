// Once over all files, for their heads and versions.
ghost use Rattle.std.specs.Prelude.{◌≡◌, ◌≤◌, map, IfErr};
ghost use Rattle.std.specs.String.{string_bytes};
ghost use Rattle.send_model.specs.Overridden.{override_for, IsLawfulOverride};
ghost use Rattle.cmd_reader.specs.Places.{IfTold};
ghost use Rattle.part_names.specs.Overriding.{given_or};
ghost use Rattle.file_survey.specs.Findings.{FileEnd, SurveyEnd};
ghost use Rattle.file_survey.specs.NamedGlances.{IsMeantGlance};
ghost use Rattle.sx_base.specs.Asks.{IsReadOnce, AreReadOnce};
ghost use Rattle.sx_base.specs.Calls.{IfAllTold, ErrCaused, IsStop};
ghost use Rattle.sx_base.specs.Causes.{Steady};
ghost use Rattle.sx_base.specs.Later.{AskedOnly};

use crate::summary::Survey;
use cmd_reader::{CmdReader, Glance, ReadStop, outcome_of};
use part_names::{FileOverride, Overrides, given_or, override_command};
use std::alloc::Global;
use sx_base::{Inputs, Outcome};

/// Reads the files once, in order, for their heads and versions, as far as they can be read: what
/// stands behind a fault is not looked at, and the fault is no error. Commands are taken as they
/// are meant in their files. `InputTooLong` gives the first file that is too long.
pub fn survey<I: Inputs>(
    alloc: Global,
    inputs: &mut I,
    files: &[String],
    overrides: &Overrides,
) -> Result<Survey, Outcome>
    ensures same { I.told inputs.new ≡ I.told inputs.old }
    ensures later { I.faults inputs.old ≤ I.faults inputs.new }
    ensures steady { Steady (I.faults inputs.old) (I.faults inputs.new) result }
    ensures ends_later { I.ends inputs.old ≤ I.ends inputs.new }
    ensures ends_steady { Steady (I.ends inputs.old) (I.ends inputs.new) result }
    ensures asked { AskedOnly I.Inputs inputs.old inputs.new
        (AreReadOnce (map string_bytes files.now)) }
    ensures cause { ErrCaused (I.faults inputs.old) (I.faults inputs.new) 0 0 result }
    ensures stops { IfErr result IsStop }
    ensures surveyed { IfAllTold (I.told inputs.old) (map string_bytes files.now)
        (SurveyEnd overrides.now result) }
{
    let mut seen = Survey::new(alloc);
    let mut file = 0;
    while file < files.len() {
        let name = files[file].as_str();
        match survey_file(alloc, inputs, file as u64 + 1, name, overrides, &mut seen) {
            Ok(true) => {}
            Ok(false) => return Ok(seen),
            Err(outcome) => return Err(outcome),
        }
        file += 1;
    }
    Ok(seen)
}

// Goes over the commands of a file, makes those that begin a part, and says whether it can be read
// to its end.
fn survey_file<I: Inputs>(
    alloc: Global,
    inputs: &mut I,
    file: u64,
    name: &str,
    overrides: &Overrides,
    seen: &mut Survey,
) -> Result<bool, Outcome>
    ensures same { I.told inputs.new ≡ I.told inputs.old }
    ensures later { I.faults inputs.old ≤ I.faults inputs.new }
    ensures steady { Steady (I.faults inputs.old) (I.faults inputs.new) result }
    ensures ends_later { I.ends inputs.old ≤ I.ends inputs.new }
    ensures ends_steady { Steady (I.ends inputs.old) (I.ends inputs.new) result }
    ensures asked { AskedOnly I.Inputs inputs.old inputs.new (IsReadOnce name.now) }
    ensures cause { ErrCaused (I.faults inputs.old) (I.faults inputs.new) 0 0 result }
    ensures stops { IfErr result IsStop }
    ensures seen { IfTold (I.told inputs.old) name.now
        (FileEnd file (override_for overrides.now file) seen.old seen.new result) }
{
    let said = overrides.of_file(file);
    let Ok(mut reader) = CmdReader::new(alloc, file, name) else {
        return Err(Outcome::NoMemory);
    };
    loop {
        let frame = match reader.advance(inputs) {
            Ok(Some(frame)) => frame,
            Ok(None) => return Ok(true),
            Err(stop) => match stop {
                ReadStop::Refused(_) => return Ok(false),
                _ => return Err(outcome_of(file, stop)),
            },
        };
        let glance = match reader.glance(frame) {
            Ok(glance) => glance,
            Err(_) => return Ok(false),
        };
        let changed = glance_as(said, &glance);
        let meant = given_or(&glance, &changed);
        match seen.keep(alloc, meant) {
            Ok(()) => {}
            Err(_) => return Err(Outcome::NoMemory),
        }
    }
}

// What is seen of a command, with what is said in front of its file; `None` where that is what was
// seen of it.
fn glance_as<'a>(said: &'a FileOverride, glance: &Glance<'a>) -> Option<Glance<'a>>
    requires lawful { IsLawfulOverride said.now }
    ensures meant { IsMeantGlance said.now glance.now (given_or glance.now result) }
{
    let Some(mention) = &glance.mention else {
        return None;
    };
    let Some(command) = override_command(said, mention) else {
        return None;
    };
    Some(Glance {
        mention: Some(command),
        version: glance.version,
    })
}
