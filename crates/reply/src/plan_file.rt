// Planning a sheet file: its lots are read, its rules added, the sheet closed and planned.
ghost use Rattle.std.specs.Prelude.{◌≡◌, ℕ, List};
ghost use Rattle.store.specs.Pairs.{paired};
ghost use Rattle.rules.specs.declared.row.Row.{Row};
ghost use Rattle.rules.specs.Sheets.{sheet};
ghost use Rattle.file.specs.Format.{Holds, rules_bytes};
ghost use Rattle.reply.specs.Files.{PlansFile};

use base_stores::words::WordStore;
use file::fault::FileFault;
use file::read::read;
use file::rows::add_rules;
use guard::guard::WORDS;
use plan::planning::plan;
use sheet::book::Book;
use sheet::start::start;
use store::limits::LOTS;
use store::store::WindowStore;

// As long as a file of 256 lots and 32 rules.
const LONGEST: usize = 1288;

// Writes the earliest plan of a sheet file into the first answer words, one word a lot, and answers how many lots there
// are; or the first refusal on the way.
pub fn plan_file(file: &[u8], answer: &mut [u32]) -> Result<usize, FileFault>
    ensures { PlansFile file.now answer.old result answer.new }
{
    if file.len() > LONGEST {
        return Err(FileFault::TrailerDisagrees);
    }
    let mut words = [0; 2 * LOTS];
    let contents = read(file, &mut words)?;
    plan_lots(&mut words[..2 * contents.lots], contents.rows, answer)
}

// The same from the words of the lots and the bytes of the rules.
fn plan_lots(words: &mut [u32], rows: &[u8], answer: &mut [u32]) -> Result<usize, FileFault>
    ensures { (file : List ℕ) (rules : List Row) → Holds file (sheet (paired words.old) rules)
        → rows.now ≡ rules_bytes rules → PlansFile file answer.old result answer.new }
{
    let house = WordStore::new(words);
    let mut book = Book::empty(0);
    let mut draft = start(&house, &mut book)?;
    // No `?` here: a slip is put away on every way out.
    if let Err(fault) = add_rules(&mut draft, &mut book, rows) {
        draft.put_away();
        return Err(fault);
    }
    let slip = draft.close();
    let mut work = [0; WORDS];
    let planned = plan(&slip, &house, &book, answer, &mut work);
    slip.put_away();
    planned?;
    Ok(house.lots())
}
