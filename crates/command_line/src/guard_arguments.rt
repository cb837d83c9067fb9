// Arguments that are guards.
ghost use Rattle.std.specs.Prelude.{◌≡◌, ◌↔◌, [], true, map, IfOk};
ghost use Rattle.std.specs.Option.{option_map};
ghost use Rattle.std.specs.String.{string_bytes};
ghost use Rattle.send_model.specs.Guards.{is_guard_word, guard_of, new_guard};
ghost use Rattle.send_model.specs.Words.{new_guards};
ghost use Rattle.guard_rules.specs.AnyKind.{any_kept};
ghost use Rattle.guard_rules.specs.Meaning.{spec_meant};
ghost use Rattle.command_line.specs.Given.{guards_in};

use guard_rules::{AnyGuard, Guard, GuardSpec, parse_guard};
use std::alloc::{AllocError, Global};
use std::marker::Model;

/// Arguments among which stand guards. They are seen as these guards, in order.
#[derive(Debug, Drop)]
pub struct GuardArguments<'a> {
    words: &'a [String],
}

impl<'a> Model for GuardArguments<'a> {
    ghost use Rattle.std.specs.Prelude.{List, map};
    ghost use Rattle.std.specs.String.{string_bytes};
    ghost use Rattle.send_model.specs.Guards.{GuardSpec};
    ghost use Rattle.command_line.specs.Given.{guards_in};

    ghost Value = { List GuardSpec };

    ghost view = { λ a. guards_in (map string_bytes a.words.now) };
}

impl<'a> GuardArguments<'a> {
    // The guards among words.
    pub(crate) fn among(words: &'a [String]) -> GuardArguments<'a>
        ensures { result ≡ guards_in (map string_bytes words.now) }
    {
        GuardArguments { words }
    }

    // No guards.
    pub(crate) fn none() -> GuardArguments<'a>
        ensures { result ≡ [] }
    {
        GuardArguments { words: &[] }
    }

    // The same guards.
    pub(crate) fn again(&self) -> GuardArguments<'a>
        ensures { result ≡ self.now }
    {
        GuardArguments { words: self.words }
    }

    /// The guards, in order, of which none has counted anything.
    ///
    /// # Errors
    /// There is no memory.
    pub fn new_guards(&self, alloc: Global) -> Result<Vec<AnyGuard>, AllocError>
        ensures { IfOk result (λ guards. map any_kept guards.items ≡ new_guards self.now) }
    {
        guards_among(alloc, self.words)
    }

    /// Whether guards are these, in order, and none of them has counted anything. Takes no memory.
    pub fn are_those(&self, guards: &[Box<dyn Guard>]) -> bool
        ensures { (result ≡ true) ↔ (map (λ g. kept g) guards.now ≡ new_guards self.now) }
    {
        are_those_among(guards, self.words)
    }
}

// Whether a word is to be a guard's.
pub(crate) fn is_guard_word(word: &str) -> bool
    ensures { result ≡ is_guard_word word.now }
{
    word.as_bytes().starts_with(b"guard:")
}

// One guard for each that words mean, in order, with nothing counted.
fn guards_among(alloc: Global, words: &[String]) -> Result<Vec<AnyGuard>, AllocError>
    ensures { IfOk result (λ guards. map any_kept guards.items
        ≡ new_guards (guards_in (map string_bytes words.now))) }
{
    let mut guards = Vec::new(alloc);
    for place in 0..words.len() {
        if let Some(spec) = parse_guard(words[place].as_str()) {
            guards.push(AnyGuard::new(spec))?;
        }
    }
    Ok(guards)
}

// Whether guards are those that words mean, in order, and new.
fn are_those_among(guards: &[Box<dyn Guard>], words: &[String]) -> bool
    ensures { (result ≡ true)
        ↔ (map (λ g. kept g) guards.now ≡ new_guards (guards_in (map string_bytes words.now))) }
{
    let mut at = 0;
    for place in 0..words.len() {
        if let Some(spec) = parse_guard(words[place].as_str()) {
            if at == guards.len() {
                return false;
            }
            if !is_new(&guards[at], spec) {
                return false;
            }
            at += 1;
        }
    }
    at == guards.len()
}

// Whether a guard is of this kind, with this limit, and new.
fn is_new(guard: &Box<dyn Guard>, spec: GuardSpec) -> bool
    ensures { (result ≡ true) ↔ (new_guard (spec_meant spec) ≡ kept guard.now) }
{
    same_spec(spec, guard.spec()) && guard.used() == 0
}

// Whether two guards are of one kind, with one limit.
fn same_spec(one: GuardSpec, other: GuardSpec) -> bool
    ensures { (result ≡ true) ↔ (spec_meant one ≡ spec_meant other) }
{
    match (one, other) {
        (GuardSpec::Bytes(most), GuardSpec::Bytes(limit)) => most == limit,
        (GuardSpec::Commands(most), GuardSpec::Commands(limit)) => most == limit,
        (GuardSpec::NoDevices, GuardSpec::NoDevices) => true,
        (GuardSpec::End(most), GuardSpec::End(limit)) => most == limit,
        _ => false,
    }
}
