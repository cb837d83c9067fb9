// Whether a schedule has places alone, which a call of files that take turns asks.
ghost use Rattle.std.specs.Prelude.{◌≡◌, ◌≤◌, ◌<◌, ◌-◌, true};
ghost use Rattle.turn_sessions.specs.Ends.{ArePlaces};

/// Whether each byte of a schedule is the digit of a place below a count.
pub(crate) fn are_places(schedule: &[u8], count: usize) -> bool
    ensures { result ≡ true → ArePlaces count schedule.now }
{
    for place in 0..schedule.len() {
        if !is_place(schedule[place], count) {
            return false;
        }
    }
    true
}

// Whether a byte is the digit of a place below a count.
fn is_place(digit: u8, count: usize) -> bool
    ensures { result ≡ true → (48 ≤ digit) × (digit - 48 < count) }
{
    digit >= b'0' && usize::from(digit - b'0') < count
}
