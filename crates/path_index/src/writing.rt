// Writing bytes from the end of a buffer to its front.
ghost use Rattle.std.specs.Prelude.{◌≡◌, ◌+◌, ◌≤◌, length};
ghost use Rattle.sx_base.specs.Bytes.{put_at};

// Puts bytes in front of the place `end`, and gives the place where they begin.
pub(crate) fn put_before(buffer: &mut [u8], end: usize, bytes: &[u8]) -> usize
    requires fits { length bytes.now ≤ end }
    requires within { end ≤ length buffer.old }
    ensures start { result + length bytes.now ≡ end }
    ensures put { buffer.new ≡ put_at result bytes.now buffer.old }
{
    let start = end - bytes.len();
    buffer[start..end].copy_from_slice(bytes);
    start
}
