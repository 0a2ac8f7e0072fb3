// Reading a sheet file: its windows become words, its rules stay the bytes that they are.
ghost use Rattle.std.specs.Prelude.{◌≡◌, ◌*◌, ◌/◌, ◌≤◌, length, Decides, IfOk, MatchResult};
ghost use Rattle.file.specs.Format.{lot_bytes, SmallLot};
ghost use Rattle.file.specs.Laws.{WritesBack};
ghost use Rattle.file.specs.Reads.{Agreeing, Ends, IsTrailer, ReadLots, Reads};
ghost use Rattle.file.specs.declared.fault.FileFault.TheVariants.{NoSheetFile};

use crate::fault::FileFault;
use crate::numbers::number;
use rules::row::RULES;
use store::limits::LOTS;
use store::window::Window;

// What a sheet file has: how many lots, how many rules, and the bytes of the rules.
#[derive(Clone, Copy)]
pub struct Contents<'a> {
    pub lots: usize,
    pub rules: usize,
    pub rows: &'a [u8],
}

// The numbers at the end of a sheet file: where the rules begin, how many lots and how many rules there are.
#[derive(Clone, Copy)]
struct Trailer {
    place: u16,
    lots: u16,
    rules: u16,
}

// Fills two words for each lot, its low and its high, and answers where the rules are.
pub fn read<'a>(file: &'a [u8], words: &mut [u32]) -> Result<Contents<'a>, FileFault>
    ensures reads { Reads file.now words.old result words.new }
    ensures again { IfOk result (λ held. WritesBack file.now held words.new) }
{
    let trailer = find_trailer(file)?;
    if !agrees(trailer, file.len()) {
        return Err(FileFault::TrailerDisagrees);
    }
    let lots = usize::from(trailer.lots);
    let rules = usize::from(trailer.rules);
    if words.len() < 2 * lots {
        return Err(FileFault::ShortWords);
    }
    let start = 4 * lots;
    let end = start + 8 * rules;
    read_lots(&file[..start], words);
    Ok(Contents {
        lots,
        rules,
        rows: &file[start..end],
    })
}

// The last eight bytes, taken apart.
fn find_trailer(file: &[u8]) -> Result<Trailer, FileFault>
    ensures { MatchResult result (IsTrailer file.now)
        (λ e. (Ends file.now → ⊥) × (e ≡ NoSheetFile)) }
{
    let [.., p0, p1, l0, l1, r0, r1, b'H', b'D'] = file else {
        return Err(FileFault::NoSheetFile);
    };
    Ok(Trailer {
        place: number(*p0, *p1),
        lots: number(*l0, *l1),
        rules: number(*r0, *r1),
    })
}

// Do the numbers of a trailer fit each other and a file of so many bytes, and are they not too many?
fn agrees(trailer: Trailer, length: usize) -> bool
    ensures { Decides result (Agreeing trailer.place trailer.lots trailer.rules length) }
{
    let lots = usize::from(trailer.lots);
    let rules = usize::from(trailer.rules);
    let start = 4 * lots;
    usize::from(trailer.place) == start
        && length == start + 8 * rules + 8
        && lots <= LOTS
        && rules <= RULES
}

// The lots in these bytes, two words each; the words past them stay.
fn read_lots(bytes: &[u8], words: &mut [u32])
    requires whole { 4 * (length bytes.now / 4) ≡ length bytes.now }
    requires room { length bytes.now ≤ 2 * length words.old }
    ensures { ReadLots bytes.now words.old words.new }
{
    for lot in 0..bytes.len() / 4 {
        let window = read_lot(&bytes[4 * lot..4 * lot + 4]);
        words[2 * lot] = window.low;
        words[2 * lot + 1] = window.high;
    }
}

// The window that four bytes hold.
fn read_lot(bytes: &[u8]) -> Window
    requires { length bytes.now ≡ 4 }
    ensures bytes { lot_bytes result ≡ bytes.now }
    ensures small { SmallLot result }
{
    let [low0, low1, high0, high1] = bytes else {
        return Window::default();
    };
    Window {
        low: u32::from(number(*low0, *low1)),
        high: u32::from(number(*high0, *high1)),
    }
}
