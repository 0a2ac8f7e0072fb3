// Copying item by item.
ghost use Rattle.std.specs.Prelude.{◌≡◌, length};

// Writes some items over as many others. By item, since `copy_from_slice` between two rooms of other hands is a call of
// `memmove`, which a program in C would have to give.
pub fn copy<T: Copy>(items: &[T], room: &mut [T])
    requires { length room.old ≡ length items.now }
    ensures { room.new ≡ items.now }
{
    for (place, item) in items.iter().enumerate() {
        room[place] = *item;
    }
}
