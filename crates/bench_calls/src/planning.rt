// The C call that plans. Windows are words, of each lot its low, then its high; a rule is four words: first lot, length,
// floor, ceiling.
ghost use Rattle.std.specs.Prelude.{◌+◌, ◌*◌, ◌≡◌, ◌⊎◌, ◌≤◌, ℕ, List, ◌++◌, length};
ghost use Rattle.guard.specs.Cleared.{Cleared};
ghost use Rattle.store.specs.Pairs.{paired};
ghost use Rattle.bench_calls.specs.Planned.{PlansWords, rules_in};

use base_stores::words::WordStore;
use nvalue::stretch::Stretch;
use plan::planning::plan;
use rules::row::Row;
use sheet::book::Book;
use sheet::start::closed;

// One more than a book holds: so of more rules than that, one among these is refused.
const ROWS: usize = 33;

// Starts a sheet, adds the rules, closes it and plans it: 0, and the answer words begin with the earliest plan; or the
// number of the first refusal. A rest of fewer than four words is no rule.
#[unsafe(no_mangle)]
pub extern "C" fn bench_plan(
    words: &mut [u32],
    rules: &[u32],
    answer: &mut [u32],
    work: &mut [u32],
) -> u32
    ensures planned { PlansWords (length work.old) (paired words.old) (rules_in rules.now)
        answer.old result answer.new }
    ensures windows { words.new ≡ words.old }
    ensures cleared { (work.new ≡ work.old) ⊎ Cleared work.old work.new }
{
    let house = WordStore::new(words);
    let count = (rules.len() / 4).min(ROWS);
    let mut space = [Row::default(); ROWS];
    let rows = &mut space[..count];
    read_rules(rules, rows);
    let mut book = Book::empty(0);
    let slip = match closed(&house, &mut book, rows) {
        Ok(slip) => slip,
        Err(fault) => return fault.number(),
    };
    let planned = plan(&slip, &house, &book, answer, work);
    slip.put_away();
    match planned {
        Ok(_) => 0,
        Err(fault) => fault.number(),
    }
}

// Fills the rows with the rules that the first words hold.
fn read_rules(words: &[u32], rows: &mut [Row])
    requires { 4 * length rows.old ≤ length words.now }
    ensures { (rest : List ℕ) × (rules_in words.now ≡ rows.new ++ rules_in rest)
        × (length rest + 4 * length rows.new ≡ length words.now) }
{
    let mut rest = words;
    for row in rows.iter_mut() {
        let [first, length, floor, ceiling, others @ ..] = rest else {
            return;
        };
        let stretch = Stretch {
            first: *first as usize,
            length: *length as usize,
        };
        *row = Row {
            stretch,
            floor: *floor,
            ceiling: *ceiling,
        };
        rest = others;
    }
}
