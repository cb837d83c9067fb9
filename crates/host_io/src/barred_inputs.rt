// Inputs that may not be read.
ghost use Rattle.std.specs.Prelude.{◌≡◌, ⊤, [], None};

use sx_base::{Failed, Inputs, Lost};

/// Inputs for a run that is to end before it reads a file: each call is answered `Failed` and
/// raises the count of faults, which ends at the greatest u64. They tell nothing of their bytes.
#[derive(Debug, Drop)]
pub(crate) struct BarredInputs {
    faults: u64,
}

impl BarredInputs {
    /// With no fault counted yet.
    pub(crate) fn new() -> BarredInputs
        ensures { result.faults ≡ 0 }
    {
        BarredInputs { faults: 0 }
    }
}

impl Inputs for BarredInputs {
    ghost told = { λ _. None };

    ghost faults = { λ s. s.faults };

    ghost ends = { λ _. 0 };

    ghost last_end = { λ _. record { name = []; place = 0 } };

    ghost asked = { λ _ _. ⊤ };

    fn read_at(&mut self, name: &str, at: u64, buf: &mut [u8]) -> Result<usize, Failed> {
        let _ = (name.len(), at, buf.len());
        self.faults = self.faults.saturating_add(1);
        Err(Failed)
    }

    fn read_again(&mut self, name: &str, at: u64, buf: &mut [u8]) -> Result<(), Lost> {
        let _ = (name.len(), at, buf.len());
        self.faults = self.faults.saturating_add(1);
        Err(Lost::Failed)
    }
}
