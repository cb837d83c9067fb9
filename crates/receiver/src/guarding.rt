// Guards that are asked in order.
ghost use Rattle.std.specs.Prelude.{◌≡◌, List, map, not};
ghost use Rattle.std.specs.Option.{option_map};
ghost use Rattle.send_model.specs.Guards as meant;
ghost use Rattle.send_model.specs.Guards.{guarded, looked, guard_refuses};
ghost use Rattle.guard_rules.specs.Meaning.{after_look};
ghost use Rattle.send_commands.specs.Meaning.{meaning_of};
ghost use Rattle.sx_base.specs.Refusals.{refusal_of};

use guard_rules::Guard;
use send_commands::Command;
use sx_base::Refusal;

/// Guards in order, of any number.
pub trait Guarding {
    // Their kinds and what they have counted.
    ghost kept: { Self → List meant.Guard };

    /// Lets each guard in turn look at a command, and gives the refusal of the first that refuses
    /// it.
    fn look(&mut self, command: &Command<'_>) -> Option<Refusal>
        ensures refused { guarded (kept self.old) (meaning_of command.now)
            ≡ option_map refusal_of result }
        ensures counted { kept self.new ≡ looked (kept self.old) (meaning_of command.now) };
}

/// Guards of one type, in a list.
#[derive(Drop)]
pub struct GuardList<G: Guard> {
    guards: Vec<G>,
}

impl<G: Guard> GuardList<G> {
    /// These guards. Takes no memory.
    pub fn new(guards: Vec<G>) -> GuardList<G>
        ensures { result.guards.items ≡ guards.items }
    {
        GuardList { guards }
    }
}

impl<G: Guard> Guarding for GuardList<G> {
    ghost kept = { λ l. map G.kept l.guards.items };

    fn look(&mut self, command: &Command<'_>) -> Option<Refusal> {
        look_list(self.guards.as_mut_slice(), command)
    }
}

// The refusal of the first guard that refuses the command, if one does.
fn look_list<G: Guard>(guards: &mut [G], command: &Command<'_>) -> Option<Refusal>
    ensures refused { guarded (map G.kept guards.old) (meaning_of command.now)
        ≡ option_map refusal_of result }
    ensures counted { map G.kept guards.new
        ≡ looked (map G.kept guards.old) (meaning_of command.now) }
{
    for place in 0..guards.len() {
        if !look_one(&mut guards[place], command) {
            let used = used_of(&guards[place]);
            return Some(Refusal::Guarded {
                guard: place as u64,
                used,
            });
        }
    }
    None
}

fn look_one<G: Guard>(guard: &mut G, command: &Command<'_>) -> bool
    ensures allows { result ≡ not (guard_refuses (G.kept guard.old) (meaning_of command.now)) }
    ensures counts { G.kept guard.new ≡ after_look (G.kept guard.old) (meaning_of command.now) }
{
    guard.look(command)
}

// What a guard has counted.
fn used_of<G: Guard>(guard: &G) -> u64
    ensures { result ≡ (G.kept guard.now).used }
{
    guard.used()
}
