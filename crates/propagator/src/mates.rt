// The mates in a choice: which lot has each day, and which lots share theirs.
ghost use Rattle.std.specs.Prelude.{◌≡◌, ℕ, ◌<◌, ◌≤◌, length, None, Some, slice_index, slice_index_or, slice_set};
ghost use Rattle.propagator.specs.Matching.{Mate, Mated, SharesWith};

// Notes for each day a lot that has it, and which lots share their day. At first nothing is noted.
pub fn note_mates(days: &[u32], mates: &mut [Option<u16>], spare: &mut [bool])
    requires few { length days.now ≤ 257 }
    requires ends { (k : ℕ) → k < length days.now → slice_index days.now k < length mates.old }
    requires each { length spare.old ≡ length days.now }
    requires none { Mated 0 days.now mates.old spare.old }
    ensures { Mated (length days.now) days.now mates.new spare.new }
{
    for (lot, day) in days.iter().enumerate() {
        note_mate(lot, *day as usize, mates, spare);
    }
}

// One lot takes its day. Where another has it already, both are spare.
fn note_mate(lot: usize, day: usize, mates: &mut [Option<u16>], spare: &mut [bool])
    requires few { lot < 257 }
    requires there { lot < length spare.old }
    requires ends { day < length mates.old }
    requires known { (other : ℕ) → Mate mates.old day other → other < length spare.old }
    ensures noted { mates.new ≡ slice_set mates.old day (Some lot) }
    ensures shared { SharesWith (slice_index_or mates.old day None) lot spare.old spare.new }
{
    if let Some(other) = mates[day] {
        spare[other as usize] = true;
        spare[lot] = true;
    }
    mates[day] = Some(lot as u16);
}
