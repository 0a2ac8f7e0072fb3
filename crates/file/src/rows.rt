// Adding the rules of a sheet file to a book: all of them or none.
ghost use Rattle.std.specs.Prelude.{◌≡◌, ◌*◌, length};
ghost use Rattle.std.specs.List.{AllByRecursion};
ghost use Rattle.file.specs.Format.{rule_bytes, rules_bytes, SmallRule};
ghost use Rattle.file.specs.Rows.{AddsBytes};

use crate::fault::FileFault;
use crate::numbers::number;
use nvalue::stretch::Stretch;
use rules::row::Row;
use sheet::book::Book;
use sheet::slip::Draft;
use sheet::start::add_rows;

// One more than a book holds: so of more rules than that, one among these is refused. A fixed room, since the planner
// takes no memory.
const ROWS: usize = 33;

// Adds the rules that the bytes hold, eight bytes each. An incomplete record at the end is no rule.
pub fn add_rules(slip: &mut Draft, book: &mut Book, rows: &[u8]) -> Result<(), FileFault>
    ensures { AddsBytes rows.now slip.old book.old result slip.new book.new }
{
    let count = (rows.len() / 8).min(ROWS);
    let mut space = [Row::default(); ROWS];
    let taken = &mut space[..count];
    read_rows(&rows[..8 * count], taken);
    add_rows(slip, book, taken)?;
    Ok(())
}

// The rest is kept by hand: a proof knows nothing of what a zip over `iter_mut` wrote.
fn read_rows(bytes: &[u8], rows: &mut [Row])
    requires { length bytes.now ≡ 8 * length rows.old }
    ensures bytes { rules_bytes rows.new ≡ bytes.now }
    ensures small { AllByRecursion SmallRule rows.new }
{
    let mut rest = bytes;
    for row in rows.iter_mut() {
        let (record, others) = rest.split_at(8);
        *row = read_row(record);
        rest = others;
    }
}

// The rule that eight bytes hold.
fn read_row(bytes: &[u8]) -> Row
    requires { length bytes.now ≡ 8 }
    ensures bytes { rule_bytes result ≡ bytes.now }
    ensures small { SmallRule result }
{
    let [
        first0,
        first1,
        length0,
        length1,
        floor0,
        floor1,
        ceiling0,
        ceiling1,
    ] = bytes
    else {
        return Row::default();
    };
    let stretch = Stretch {
        first: usize::from(number(*first0, *first1)),
        length: usize::from(number(*length0, *length1)),
    };
    Row {
        stretch,
        floor: u32::from(number(*floor0, *floor1)),
        ceiling: u32::from(number(*ceiling0, *ceiling1)),
    }
}
