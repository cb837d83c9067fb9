// How many parts and commands were accepted.
ghost use Rattle.std.specs.Prelude.{◌≡◌, ◌+◌, ◌^◌, ◌<◌, ◌≤◌};
ghost use Rattle.auditor.specs.Answers.{parts_begun};

use clone_resolve::Done;

// The parts and the commands of one file.
#[derive(Clone, Copy)]
pub(crate) struct Counts {
    pub(crate) parts: u64,
    pub(crate) commands: u64,
}

impl Counts {
    // Those of no command.
    pub(crate) fn none() -> Counts
        ensures parts { result.parts ≡ 0 }
        ensures commands { result.commands ≡ 0 }
    {
        Counts {
            parts: 0,
            commands: 0,
        }
    }

    // These and those of one more command.
    pub(crate) fn with(self, done: Done) -> Counts
        requires room { self.commands + 1 < 2 ^ 64 }
        requires fewer { self.parts ≤ self.commands }
        ensures parts { result.parts ≡ self.parts + parts_begun done }
        ensures commands { result.commands ≡ self.commands + 1 }
        ensures fewer { result.parts ≤ result.commands }
    {
        let begun = match done {
            Done::Began => 1,
            Done::Edited | Done::Ended => 0,
        };
        Counts {
            parts: self.parts + begun,
            commands: self.commands + 1,
        }
    }
}

// The parts and the commands of several files.
#[derive(Clone, Copy)]
pub(crate) struct Totals {
    pub(crate) parts: u128,
    pub(crate) commands: u128,
}

impl Totals {
    // Those of no file.
    pub(crate) fn none() -> Totals
        ensures parts { result.parts ≡ 0 }
        ensures commands { result.commands ≡ 0 }
    {
        Totals {
            parts: 0,
            commands: 0,
        }
    }

    // These and those of one more file.
    pub(crate) fn with(self, counts: Counts) -> Totals
        requires parts { self.parts + 2 ^ 64 ≤ 2 ^ 128 }
        requires commands { self.commands + 2 ^ 64 ≤ 2 ^ 128 }
        ensures parts { result.parts ≡ self.parts + counts.parts }
        ensures commands { result.commands ≡ self.commands + counts.commands }
        ensures parts_bound { result.parts < self.parts + 2 ^ 64 }
        ensures commands_bound { result.commands < self.commands + 2 ^ 64 }
    {
        Totals {
            parts: self.parts + counts.parts as u128,
            commands: self.commands + counts.commands as u128,
        }
    }
}
