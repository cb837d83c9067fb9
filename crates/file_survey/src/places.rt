// Where a command stands.
ghost use Rattle.std.specs.Prelude.{◌≡◌};
ghost use Rattle.sx_base.specs.Refusals.{refusal_of, verdict_meant};

use sx_base::{Refusal, Verdict};

/// Where a command stands.
#[derive(Debug, Clone, Copy)]
pub struct Place {
    /// The file, counted from 1.
    pub file: u64,
    /// The command in that file, counted from 1.
    pub command: u64,
    /// The place in that file of the command's first byte.
    pub offset: u64,
}

impl Place {
    /// The first command of the first file.
    pub fn start() -> Place
        ensures start { result ≡ record { file = 1; command = 1; offset = 0 } }
    {
        Place {
            file: 1,
            command: 1,
            offset: 0,
        }
    }

    /// The verdict that the command at this place is refused.
    pub fn refused(self, refusal: Refusal) -> Verdict
        ensures verdict { verdict_meant result ≡ record {
          file = self.file;
          command = self.command;
          offset = self.offset;
          refusal = refusal_of refusal;
        } }
    {
        Verdict {
            file: self.file,
            command: self.command,
            offset: self.offset,
            refusal,
        }
    }
}
