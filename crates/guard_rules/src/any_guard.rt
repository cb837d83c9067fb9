// A guard of any kind.
ghost use Rattle.std.specs.Prelude.{◌≡◌};
ghost use Rattle.send_model.specs.Guards.{new_guard};
ghost use Rattle.guard_rules.specs.Meaning.{spec_meant};
ghost use Rattle.guard_rules.specs.AnyKind.{any_kept};

use crate::asking::Guard;
use crate::kinds::GuardSpec;
use crate::limits::{ByteGuard, CommandGuard, DeviceGuard, EndGuard};
use send_commands::Command;

/// A guard of one of the four kinds, so that guards of several kinds are values of one type.
#[derive(Debug, Drop)]
pub enum AnyGuard {
    /// Of bytes in WRITE commands.
    Bytes(ByteGuard),
    /// Of commands.
    Commands(CommandGuard),
    /// Against devices.
    NoDevices(DeviceGuard),
    /// Of ends in files.
    End(EndGuard),
}

impl AnyGuard {
    /// The guard of this kind, with nothing counted. Takes no memory.
    pub fn new(spec: GuardSpec) -> AnyGuard
        ensures { ⟦<AnyGuard as Guard>⟧.kept result ≡ new_guard (spec_meant spec) }
    {
        match spec {
            GuardSpec::Bytes(most) => AnyGuard::Bytes(ByteGuard::new(most)),
            GuardSpec::Commands(most) => AnyGuard::Commands(CommandGuard::new(most)),
            GuardSpec::NoDevices => AnyGuard::NoDevices(DeviceGuard::new()),
            GuardSpec::End(most) => AnyGuard::End(EndGuard::new(most)),
        }
    }
}

impl Guard for AnyGuard {
    ghost kept = { any_kept };

    fn spec(&self) -> GuardSpec {
        match self {
            AnyGuard::Bytes(guard) => guard.spec(),
            AnyGuard::Commands(guard) => guard.spec(),
            AnyGuard::NoDevices(guard) => guard.spec(),
            AnyGuard::End(guard) => guard.spec(),
        }
    }

    fn used(&self) -> u64 {
        match self {
            AnyGuard::Bytes(guard) => guard.used(),
            AnyGuard::Commands(guard) => guard.used(),
            AnyGuard::NoDevices(guard) => guard.used(),
            AnyGuard::End(guard) => guard.used(),
        }
    }

    fn look(&mut self, command: &Command<'_>) -> bool {
        match self {
            AnyGuard::Bytes(guard) => guard.look(command),
            AnyGuard::Commands(guard) => guard.look(command),
            AnyGuard::NoDevices(guard) => guard.look(command),
            AnyGuard::End(guard) => guard.look(command),
        }
    }
}
