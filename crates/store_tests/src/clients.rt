// Callers of any store, which make several calls: what they promise of its memory follows from the trait alone.
ghost use Rattle.std.specs.Prelude.{◌≡◌};

use store::store::WindowStore;

// Asks two lots to keep to the same days. A call that is refused changes nothing, so it is passed over.
pub fn cut_two<S: WindowStore>(store: &mut S, first: usize, second: usize, low: u32, high: u32)
    ensures memory { S.WindowStore.memory store.new ≡ S.WindowStore.reached store.old (S.WindowStore.windows store.new) }
    ensures framed { S.WindowStore.frame store.new ≡ S.WindowStore.frame store.old }
{
    let _ = store.raise(first, low);
    let _ = store.lower(first, high);
    let _ = store.raise(second, low);
    let _ = store.lower(second, high);
}

// The same of every lot.
pub fn cut_all<S: WindowStore>(store: &mut S, low: u32, high: u32)
    ensures memory { S.WindowStore.memory store.new ≡ S.WindowStore.reached store.old (S.WindowStore.windows store.new) }
    ensures framed { S.WindowStore.frame store.new ≡ S.WindowStore.frame store.old }
{
    for place in 0..store.lots() {
        let _ = store.raise(place, low);
        let _ = store.lower(place, high);
    }
}
