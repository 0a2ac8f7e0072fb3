// Lines, each written to the front of the bytes that it is lent; it lends the rest on, and answers how many it wrote.
// `write!` would want a writer of its own, and its error.
ghost use Rattle.std.specs.Prelude.{◌≡◌, ◌+◌, ◌≤◌, length, decimal};
ghost use Rattle.listing.specs.Text.{count_line, entry, lot_line, pair_line};
ghost use Rattle.store.specs.Over.{over};

use decimal::number::write_number;
use decimal::text::write_text;

// A word and a number.
fn write_entry(word: &[u8], n: usize, out: &mut [u8]) -> usize
    requires { length word.now + length (decimal n) ≤ length out.old }
    ensures long { result ≡ length word.now + length (decimal n) }
    ensures written { out.new ≡ over (entry word.now n) out.old }
{
    let end = write_text(word, out);
    end + write_number(n, &mut out[end..])
}

// Two words with a number each, and the line end.
pub fn write_pair(word: &[u8], m: usize, other: &[u8], n: usize, out: &mut [u8]) -> usize
    requires { length word.now + length (decimal m) + (length other.now + length (decimal n)) + 1 ≤ length
        out.old }
    ensures long { result ≡ length (pair_line word.now m other.now n) }
    ensures written { out.new ≡ over (pair_line word.now m other.now n) out.old }
{
    let first = write_entry(word, m, out);
    let both = first + write_entry(other, n, &mut out[first..]);
    both + write_text(b"\n", &mut out[both..])
}

// The line of a lot.
pub fn write_lot(lot: usize, day: u32, out: &mut [u8]) -> usize
    requires { length (lot_line lot day) ≤ length out.old }
    ensures long { result ≡ length (lot_line lot day) }
    ensures written { out.new ≡ over (lot_line lot day) out.old }
{
    write_pair(b"lot ", lot, b" day ", day as usize, out)
}

// The last line, with how many different days there are.
pub fn write_count(count: usize, out: &mut [u8]) -> usize
    requires { length (decimal count) + 6 ≤ length out.old }
    ensures long { result ≡ length (count_line count) }
    ensures written { out.new ≡ over (count_line count) out.old }
{
    let end = write_entry(b"days ", count, out);
    end + write_text(b"\n", &mut out[end..])
}
