// Guards in general, and asking several of them.
ghost use Rattle.std.specs.Prelude.{◌≡◌, ◌<◌, not, map, length, IfSome};
ghost use Rattle.send_model.specs.Guards as meant;
ghost use Rattle.send_model.specs.Guards.{guard_refuses, looked};
ghost use Rattle.send_commands.specs.Meaning.{meaning_of};
ghost use Rattle.guard_rules.specs.Meaning.{spec_meant, after_look, IsRefusedAt};

use crate::kinds::GuardSpec;
use send_commands::Command;

/// A limit, with what it has counted so far. What it refuses and what it counts follow from its
/// kind, from what it has counted and from the command alone.
pub trait Guard: Drop {
    // Its kind and what it has counted.
    ghost kept: { Self → meant.Guard };

    /// Its kind, which never changes.
    fn spec(&self) -> GuardSpec
        ensures { spec_meant result ≡ (kept self.now).spec };

    /// What it has counted: bytes, commands, or the greatest end.
    fn used(&self) -> u64
        ensures { result ≡ (kept self.now).used };

    /// Looks at a command. False exactly where its kind refuses the command; then nothing has
    /// changed, and else the command is counted.
    fn look(&mut self, command: &Command<'_>) -> bool
        ensures allows { result ≡ not (guard_refuses (kept self.old) (meaning_of command.now)) }
        ensures counts { kept self.new ≡ after_look (kept self.old) (meaning_of command.now) };
}

/// Lets each guard in turn look at a command. None exactly where none refuses it; then each has
/// counted it. Else the place of the first that refuses it, counted from 0: the guards before that
/// one have counted it, and it and those after it are as before.
pub fn look_all(guards: &mut [Box<dyn Guard>], command: &Command<'_>) -> Option<usize>
    ensures within { IfSome result (λ place. place < length guards.new) }
    ensures refused { IsRefusedAt (map (λ g. kept g) guards.old) (map (λ g. kept g) guards.new)
        (meaning_of command.now) result }
    ensures counted { map (λ g. kept g) guards.new ≡ looked (map (λ g. kept g) guards.old)
        (meaning_of command.now) }
{
    for place in 0..guards.len() {
        if !look_one(&mut guards[place], command) {
            return Some(place);
        }
    }
    None
}

fn look_one(guard: &mut Box<dyn Guard>, command: &Command<'_>) -> bool
    ensures allows { result ≡ not (guard_refuses (kept guard.old) (meaning_of command.now)) }
    ensures counts { kept guard.new ≡ after_look (kept guard.old) (meaning_of command.now) }
{
    guard.look(command)
}
