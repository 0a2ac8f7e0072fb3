// Writing a sheet file: the windows of a store and the rules of a book.
ghost use Rattle.std.specs.Prelude.{◌≡◌, ◌*◌, ◌≤◌, IfOk, length, take, []};
ghost use Rattle.std.specs.List.{AllByRecursion};
ghost use Rattle.rules.specs.Sheets.{sheet};
ghost use Rattle.sheet.specs.Books.{sheet_of};
ghost use Rattle.file.specs.Format.{file_of, lot_bytes, lots_bytes, rule_bytes, rules_bytes, trailer, SmallLot, SmallRule};
ghost use Rattle.file.specs.Laws.{GivesBack, ReadsBack};
ghost use Rattle.file.specs.Writes.{Writes, WritesBy};

use crate::fault::FileFault;
use crate::numbers::write_numbers;
use nvalue::season::{ROOM, read_windows};
use rules::row::Row;
use sheet::book::Book;
use sheet::fault::SheetFault;
use store::limits::LOTS;
use store::store::WindowStore;
use store::window::Window;

// Writes the file into the first bytes, and answers how many they are.
pub fn write<S: WindowStore>(book: &Book, store: &S, bytes: &mut [u8]) -> Result<usize, FileFault>
    ensures writes { Writes (S.WindowStore.windows store.now) book.now bytes.old result bytes.new }
    ensures again { IfOk result
        (λ n. ReadsBack (sheet_of (S.WindowStore.windows store.now) book.now) (take n bytes.new)) }
    ensures sheet { IfOk result
        (λ n. GivesBack (sheet_of (S.WindowStore.windows store.now) book.now) (take n bytes.new)) }
{
    let lots = store.lots();
    if lots > LOTS {
        return Err(FileFault::Sheet(SheetFault::TooManyLots));
    }
    if book.lots() != lots {
        return Err(FileFault::Sheet(SheetFault::Mismatch));
    }
    let mut room = [Window::default(); ROOM];
    let lots = read_windows(store, &mut room)?;
    write_sheet(&room[..lots], book.rows(), bytes)
}

// The file of these windows and rules.
fn write_sheet(windows: &[Window], rows: &[Row], bytes: &mut [u8]) -> Result<usize, FileFault>
    requires few { length windows.now ≤ 256 }
    requires some { length rows.now ≤ 32 }
    requires lots { AllByRecursion SmallLot windows.now }
    requires rules { AllByRecursion SmallRule rows.now }
    ensures { WritesBy [] (file_of (sheet windows.now rows.now)) bytes.old result bytes.new }
{
    let start = 4 * windows.len();
    let end = start + 8 * rows.len();
    if bytes.len() < end + 8 {
        return Err(FileFault::ShortBytes);
    }
    write_lots(windows, &mut bytes[..start]);
    write_rules(rows, &mut bytes[start..end]);
    bytes[end..end + 8].copy_from_slice(&trailer_record(windows.len(), rows.len()));
    Ok(end + 8)
}

// By place, as `write_numbers` and for the same reason.
#[tactic(auto, using(crate::proofs::Bytes::record_written))]
fn write_lots(windows: &[Window], bytes: &mut [u8])
    requires small { AllByRecursion SmallLot windows.now }
    requires room { length bytes.old ≡ 4 * length windows.now }
    ensures { bytes.new ≡ lots_bytes windows.now }
{
    for (place, window) in windows.iter().enumerate() {
        bytes[4 * place..4 * place + 4].copy_from_slice(&lot_record(*window));
    }
}

// A loop of its own, with records of another length: a trait over both kinds of record is no shorter.
#[tactic(auto, using(crate::proofs::Bytes::record_written))]
fn write_rules(rows: &[Row], bytes: &mut [u8])
    requires small { AllByRecursion SmallRule rows.now }
    requires room { length bytes.old ≡ 8 * length rows.now }
    ensures { bytes.new ≡ rules_bytes rows.now }
{
    for (place, row) in rows.iter().enumerate() {
        bytes[8 * place..8 * place + 8].copy_from_slice(&rule_record(*row));
    }
}

fn lot_record(window: Window) -> [u8; 4]
    requires { SmallLot window }
    ensures { result ≡ lot_bytes window }
{
    let mut bytes = [0; 4];
    write_numbers(&[window.low, window.high], &mut bytes);
    bytes
}

fn rule_record(row: Row) -> [u8; 8]
    requires { SmallRule row }
    ensures { result ≡ rule_bytes row }
{
    let stretch = row.stretch;
    let numbers = [
        stretch.first as u32,
        stretch.length as u32,
        row.floor,
        row.ceiling,
    ];
    let mut bytes = [0; 8];
    write_numbers(&numbers, &mut bytes);
    bytes
}

// Where the rules begin, how many lots and rules there are, and the letters.
fn trailer_record(lots: usize, rules: usize) -> [u8; 8]
    requires few { lots ≤ 256 }
    requires some { rules ≤ 32 }
    ensures { result ≡ trailer lots rules }
{
    let numbers = [(4 * lots) as u32, lots as u32, rules as u32];
    let mut bytes = *b"......HD";
    write_numbers(&numbers, &mut bytes[..6]);
    bytes
}
