// The four guards.
ghost use Rattle.std.specs.Prelude.{◌≡◌};
ghost use Rattle.send_model.specs.Guards.{new_guard, MostBytes, MostCommands, NoDevices, MostEnd};

use crate::asking::Guard;
use crate::kinds::GuardSpec;
use crate::sights::{end_place, makes_device, write_len};
use send_commands::Command;
use std::marker::Model;

/// Allows so many bytes in WRITE commands, and counts them.
#[derive(Debug, Drop)]
pub struct ByteGuard {
    most: u64,
    used: u64,
}

impl Model for ByteGuard {
    ghost use Rattle.send_model.specs.Guards.{Guard, MostBytes};

    ghost Value = { Guard };

    ghost view = { λ g. record { spec = MostBytes g.most; used = g.used } };
}

impl ByteGuard {
    /// A guard of at most so many bytes, with none counted.
    pub fn new(most: u64) -> ByteGuard
        ensures { result ≡ new_guard (MostBytes most) }
    {
        ByteGuard { most, used: 0 }
    }
}

impl Guard for ByteGuard {
    ghost kept = { λ guard. guard };

    fn spec(&self) -> GuardSpec {
        GuardSpec::Bytes(self.most)
    }

    fn used(&self) -> u64 {
        self.used
    }

    #[tactic(auto, unfolding(send_model::specs::Guards::guard_refuses, send_model::specs::Guards::guard_after))]
    fn look(&mut self, command: &Command<'_>) -> bool {
        let before = self.used;
        let Some(len) = write_len(command) else {
            return true;
        };
        let used = before as u128 + len as u128;
        if used > self.most as u128 {
            return false;
        }
        self.used = used as u64;
        true
    }
}

/// Allows so many commands, and counts them.
#[derive(Debug, Drop)]
pub struct CommandGuard {
    most: u64,
    used: u64,
}

impl Model for CommandGuard {
    ghost use Rattle.send_model.specs.Guards.{Guard, MostCommands};

    ghost Value = { Guard };

    ghost view = { λ g. record { spec = MostCommands g.most; used = g.used } };
}

impl CommandGuard {
    /// A guard of at most so many commands, with none counted.
    pub fn new(most: u64) -> CommandGuard
        ensures { result ≡ new_guard (MostCommands most) }
    {
        CommandGuard { most, used: 0 }
    }
}

impl Guard for CommandGuard {
    ghost kept = { λ guard. guard };

    fn spec(&self) -> GuardSpec {
        GuardSpec::Commands(self.most)
    }

    fn used(&self) -> u64 {
        self.used
    }

    #[tactic(auto, unfolding(send_model::specs::Guards::guard_refuses, send_model::specs::Guards::guard_after))]
    fn look(&mut self, _command: &Command<'_>) -> bool {
        if self.used >= self.most {
            return false;
        }
        self.used += 1;
        true
    }
}

/// Allows no MKNOD, and counts nothing.
#[derive(Debug, Drop)]
pub struct DeviceGuard {}

impl DeviceGuard {
    /// A guard against devices.
    pub fn new() -> DeviceGuard
        ensures { ⟦<DeviceGuard as Guard>⟧.kept result ≡ new_guard NoDevices }
    {
        DeviceGuard {}
    }
}

impl Guard for DeviceGuard {
    ghost kept = { λ guard. new_guard NoDevices };

    fn spec(&self) -> GuardSpec {
        GuardSpec::NoDevices
    }

    fn used(&self) -> u64 {
        0
    }

    #[tactic(auto, unfolding(send_model::specs::Guards::guard_refuses, send_model::specs::Guards::guard_after))]
    fn look(&mut self, command: &Command<'_>) -> bool {
        !makes_device(command)
    }
}

/// Allows no WRITE of a byte or more, CLONE or TRUNCATE that ends above a place, and keeps the
/// greatest end.
#[derive(Debug, Drop)]
pub struct EndGuard {
    most: u64,
    used: u64,
}

impl Model for EndGuard {
    ghost use Rattle.send_model.specs.Guards.{Guard, MostEnd};

    ghost Value = { Guard };

    ghost view = { λ g. record { spec = MostEnd g.most; used = g.used } };
}

impl EndGuard {
    /// A guard of ends at most at a place, in bytes from the start of a file, with no end seen.
    pub fn new(most: u64) -> EndGuard
        ensures { result ≡ new_guard (MostEnd most) }
    {
        EndGuard { most, used: 0 }
    }
}

impl Guard for EndGuard {
    ghost kept = { λ guard. guard };

    fn spec(&self) -> GuardSpec {
        GuardSpec::End(self.most)
    }

    fn used(&self) -> u64 {
        self.used
    }

    #[tactic(auto, unfolding(send_model::specs::Guards::guard_refuses, send_model::specs::Guards::guard_after))]
    fn look(&mut self, command: &Command<'_>) -> bool {
        let before = self.used;
        let Some(end) = end_place(command) else {
            return true;
        };
        if end > self.most as u128 {
            return false;
        }
        self.used = before.max(end as u64);
        true
    }
}
