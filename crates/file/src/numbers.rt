// Numbers of two bytes, the low one first. Callers prove that lengths fit and numbers are small enough.
ghost use Rattle.std.specs.Prelude.{◌≡◌, ◌+◌, ◌*◌, length};
ghost use Rattle.std.specs.List.{AllByRecursion, flat_map};
ghost use Rattle.file.specs.Numbers.{two, Small};

// The number that two bytes hold.
pub fn number(low: u8, high: u8) -> u16
    ensures { result ≡ low + 256 * high }
{
    u16::from_le_bytes([low, high])
}

// Writes each word as a number.
pub fn write_numbers(words: &[u32], bytes: &mut [u8])
    requires small { AllByRecursion Small words.now }
    requires room { length bytes.old ≡ 2 * length words.now }
    ensures { bytes.new ≡ flat_map two words.now }
{
    // By place, since a proof knows nothing of what a zip over `chunks_exact_mut` wrote.
    for (place, word) in words.iter().enumerate() {
        let pair = (*word as u16).to_le_bytes();
        bytes[2 * place..2 * place + 2].copy_from_slice(&pair);
    }
}
