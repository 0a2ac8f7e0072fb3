// Words, written to the front of lent bytes.
ghost use Rattle.std.specs.Prelude.{◌≡◌, ◌≤◌, length};
ghost use Rattle.store.specs.Over.{over};

// Writes a text to the first bytes, and answers how many they are; the bytes past them stay.
pub fn write_text(text: &[u8], out: &mut [u8]) -> usize
    requires { length text.now ≤ length out.old }
    ensures long { result ≡ length text.now }
    ensures written { out.new ≡ over text.now out.old }
{
    out[..text.len()].copy_from_slice(text);
    text.len()
}
