// Finding a flag.
ghost use Rattle.extremes.specs.Flags.{FindsSet};

// The first flag that is set; that it is the first is speed and no promise.
pub fn first_set(flags: &[bool]) -> Option<usize>
    ensures { FindsSet flags.now result }
{
    flags.iter().position(|is_set| *is_set)
}
