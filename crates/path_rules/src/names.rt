//! Which bytes are a name.

ghost use Rattle.std.specs.Prelude.{◌≡◌};
ghost use Rattle.send_model.specs.Path.{is_name};

// The most bytes that a name has. Source: NAME_MAX of Linux.
const LONGEST_NAME: usize = 255;

/// Whether the bytes are a name: 1 to 255 of them, no `/` and no zero byte among them, and neither
/// `.` nor `..`. Source: NAME_MAX of Linux.
#[tactic(auto, unfolding(send_model::specs::Path::is_name))]
pub fn name_ok(name: &[u8]) -> bool
    ensures { result ≡ is_name name.now }
{
    !name.is_empty()
        && name.len() <= LONGEST_NAME
        && !name.contains(&b'/')
        && !name.contains(&0)
        && name != b".".as_slice()
        && name != b"..".as_slice()
}
