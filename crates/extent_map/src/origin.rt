// What a cell that is not empty is.
ghost use Rattle.std.specs.Prelude.{◌≡◌, ℕ, ◌+◌, ◌≤◌, Bool, IsTrue};
ghost use Rattle.extent_map.specs.Pieces.{RunsOn};

/// Where a byte of a file comes from. The next byte of a run comes from the origin advanced by one.
pub trait Origin: Copy {
    /// By how much the origin may at most be advanced.
    ghost reach: { Self → ℕ };

    /// The origin so many cells further on.
    ghost advanced: { Self → ℕ → Self };

    /// Whether it is foreign: one of those that are looked for among others.
    ghost foreign: { Self → Bool };

    /// The origin `k` cells further on.
    fn advance(&self, k: u64) -> Self
        requires { k ≤ reach self.now }
        ensures { result ≡ advanced self.now k };

    /// Whether it is foreign.
    fn is_foreign(&self) -> bool
        ensures { result ≡ foreign self.now };

    /// Whether a run of `len` cells goes on in one of `more` cells from `next`, so that both are
    /// one run. An origin may always say no.
    fn goes_on(&self, len: u64, next: &Self, more: u64) -> bool
        ensures { IsTrue result → RunsOn advanced reach self.now len next.now more }
    {
        let _ = len;
        let _ = next;
        let _ = more;
        false
    }

    ghost advanced_by_none: { (o : Self) → advanced o 0 ≡ o };

    ghost reach_is_left: { (o : Self) (j k : ℕ) → j + k ≤ reach o → k ≤ reach (advanced o j) };

    ghost advanced_twice: { (o : Self) (j k : ℕ) → j + k ≤ reach o → advanced (advanced o j) k ≡ advanced o (j + k) };

    ghost foreign_stays: { (o : Self) (k : ℕ) → k ≤ reach o → foreign (advanced o k) ≡ foreign o };
}
