//! Where lines of a text end.

ghost use Rattle.std.specs.Prelude.{◌≤◌, length};
ghost use Rattle.hg_wire.specs.Streams.{EndLastLine};

use memchr::memrchr;

/// The number of bytes up to and including the last line feed, 0 where there is none.
pub fn last_line_end(text: &[u8]) -> usize
    ensures line { EndLastLine text.now result }
    ensures within { result ≤ length text.now }
{
    match memrchr(b'\n', text) {
        Some(at) => at + 1,
        None => 0,
    }
}
