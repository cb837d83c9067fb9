// Composing a generated chain, and the line that says what came of it.
ghost use Rattle.std.specs.Prelude.{◌≡◌, ◌≤◌, [], ◌∷◌, ◌++◌, map, codes, IfOk, OnOk};
ghost use Rattle.std.specs.String.{string_bytes};
ghost use Rattle.std.specs.Fmt.{decimal};
ghost use Rattle.send_model.specs.Words.{Trial};
ghost use Rattle.sx_base.specs.Calls.{Caused, Wrote, Ends, SteadyIfDone};
ghost use Rattle.sx_base.specs.declared.outcome.Outcome.TheVariants as ended;
ghost use Rattle.chain_trial.specs.Trying.{AreNumbers, EndsInMemory, line_text};

use crate::counting::count_file;
use composer::compose;
use itoa::Buffer;
use part_names::Overrides;
use std::alloc::{AllocError, Global};
use stream_gen::write_chain;
use sx_base::{Blob, MemSink, Outcome, PlainInputs, Sink, write_whole};

// The name of a file that stands alone.
const NAME: &str = "chain";

// What is counted of a chain, and of the stream that it is composed to.
#[derive(Clone, Copy)]
pub(crate) struct Numbers {
    pub(crate) commands: u64,
    pub(crate) input: u64,
    pub(crate) output: u64,
    pub(crate) clones: u64,
    pub(crate) redirected: u64,
}

/// Composes a chain of so many parts, 1 to 4096, over no store, and writes one line of what came of
/// it: `trial PARTS COMMANDS IN OUT CLONES REDIRECTED`, which are the parts, commands and bytes of
/// the chain, the bytes of the composed stream and its clones, and how many of its bytes stand for
/// redirected clones. The chain and the stream stand in memory.
pub fn write_trial<O: Sink>(alloc: Global, count: u64, seed: u64, out: &mut O) -> Outcome
    requires some { 1 ≤ count }
    requires few { count ≤ 4_096 }
    ensures later { O.faults out.old ≤ O.faults out.new }
    ensures steady { SteadyIfDone (O.faults out.old) (O.faults out.new) result }
    ensures cause { Caused 0 0 (O.faults out.old) (O.faults out.new) result }
    ensures written { Wrote (O.taken out.old) (O.taken out.new)
        (λ written. Ends (Trial count seed) [] [] result written) }
{
    let Ok(numbers) = numbers_of(alloc, count, seed) else {
        return Outcome::NoMemory;
    };
    let Ok(line) = line_of(alloc, count, numbers) else {
        return Outcome::NoMemory;
    };
    match write_whole(out, line.as_slice()) {
        Ok(()) => Outcome::Done,
        Err(_) => Outcome::OutputFault,
    }
}

// The line of some numbers.
fn line_of(alloc: Global, parts: u64, numbers: Numbers) -> Result<Blob, AllocError>
    ensures line { IfOk result (λ line. line ≡ line_text parts numbers) }
{
    let Numbers {
        commands,
        input,
        output,
        clones,
        redirected,
    } = numbers;
    let mut line = Blob::new(alloc);
    line.push_all(b"trial")?;
    push_number(parts, &mut line)?;
    push_number(commands, &mut line)?;
    push_number(input, &mut line)?;
    push_number(output, &mut line)?;
    push_number(clones, &mut line)?;
    push_number(redirected, &mut line)?;
    line.push_all(b"\n")?;
    Ok(line)
}

// Appends a space and a number.
fn push_number(number: u64, line: &mut Blob) -> Result<(), AllocError>
    ensures appended { OnOk result (line.new ≡ line.old ++ 0x20 ∷ decimal number) }
{
    line.push_all(b" ")?;
    let mut buffer = Buffer::new();
    line.push_all(buffer.format(number).as_bytes())
}

// Composes a chain and counts. An error is for want of memory.
fn numbers_of(alloc: Global, count: u64, seed: u64) -> Result<Numbers, AllocError>
    requires some { 1 ≤ count }
    requires few { count ≤ 4_096 }
    ensures numbers { IfOk result (AreNumbers seed count) }
{
    let mut chain = MemSink::new(alloc);
    all_done(write_chain(alloc, count, seed, &mut chain))?;
    let mut inputs = file_of(alloc, chain.bytes())?;
    let names = names_of(alloc)?;
    let mut composed = MemSink::new(alloc);
    let kept = Overrides::none(alloc);
    all_done(compose(alloc, &mut inputs, &names, &kept, &mut composed))?;
    let read = count_file(alloc, &mut inputs, NAME)?;
    let mut outputs = file_of(alloc, composed.bytes())?;
    let written = count_file(alloc, &mut outputs, NAME)?;
    Ok(Numbers {
        commands: read.commands,
        input: chain.bytes().len() as u64,
        output: composed.bytes().len() as u64,
        clones: written.clones,
        redirected: written.literal - read.literal,
    })
}

// Whether all was done. A chain is lawful and short, files in memory do not fail, and an output in
// memory of which no call is to fail does so for want of memory alone.
fn all_done(outcome: Outcome) -> Result<(), AllocError>
    requires { EndsInMemory outcome }
    ensures { OnOk result (outcome ≡ ended.Done) }
{
    match outcome {
        Outcome::Done => Ok(()),
        Outcome::NoMemory => Err(AllocError),
        Outcome::OutputFault => Err(AllocError),
        Outcome::Refused(_) => unreachable!(),
        Outcome::InputFault => unreachable!(),
        Outcome::InputTooLong { .. } => unreachable!(),
        Outcome::TooMuch { .. } => unreachable!(),
        Outcome::InputChanged { .. } => unreachable!(),
    }
}

// Inputs of one file.
fn file_of(alloc: Global, bytes: &[u8]) -> Result<PlainInputs, AllocError>
    ensures file { IfOk result (λ inputs. inputs ≡ (codes "chain", bytes.now) ∷ []) }
{
    let mut inputs = PlainInputs::new(alloc);
    inputs.add(NAME, bytes)?;
    Ok(inputs)
}

// The names of its files.
fn names_of(alloc: Global) -> Result<Vec<String>, AllocError>
    ensures names { IfOk result (λ names. map string_bytes names.items ≡ codes "chain" ∷ []) }
{
    let mut names = Vec::new(alloc);
    names.push(String::from_str(alloc, NAME)?)?;
    Ok(names)
}
