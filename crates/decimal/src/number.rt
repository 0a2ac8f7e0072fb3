// Numbers in decimal: how many digits one has, and its digits written to the front of lent bytes.
ghost use Rattle.std.specs.Prelude.{◌≡◌, ◌≤◌, length, decimal};
ghost use Rattle.store.specs.Over.{over};

use crate::text::write_text;
use itoa::Buffer;

// How many digits the decimal form of a number has.
pub fn digits(n: usize) -> usize
    ensures long { result ≡ length (decimal n) }
    ensures few { result ≤ 20 }
{
    Buffer::new().format(n).len()
}

// Writes the decimal form to the first bytes, and answers how many they are; the bytes past them stay.
pub fn write_number(n: usize, out: &mut [u8]) -> usize
    requires { length (decimal n) ≤ length out.old }
    ensures long { result ≡ length (decimal n) }
    ensures written { out.new ≡ over (decimal n) out.old }
{
    write_text(Buffer::new().format(n).as_bytes(), out)
}
