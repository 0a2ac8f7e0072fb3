// Sheets written, byte for byte; 0xEE is a byte that the caller had there.
use crate::house::{EMPTY, FIVE_LOTS, longest, rule};
use base_stores::masks::MaskStore;
use base_stores::words::WordStore;
use file::fault::FileFault;
use file::read::read;
use file::rows::add_rules;
use file::write::write;
use nvalue::stretch::Stretch;
use rules::row::Row;
use sheet::asks::{at_least, at_most, not_before};
use sheet::book::Book;
use sheet::fault::SheetFault;
use sheet::start::{closed, start};
use std::test::Fail;

const MOST_3_DAYS: Row = Row {
    stretch: Stretch {
        first: 0,
        length: 5,
    },
    floor: 0,
    ceiling: 3,
};

// The book of the sheet that a file holds; the words, two for each lot or one more, become its windows.
fn opened(file: &[u8], words: &mut [u32]) -> Result<Book, FileFault> {
    let contents = read(file, words)?;
    let mut book = Book::empty(0);
    let mut slip = start(&WordStore::new(words), &mut book)?;
    let added = add_rules(&mut slip, &mut book, contents.rows);
    slip.put_away();
    added?;
    Ok(book)
}

// The book of the five lots.
fn five_lots_book(words: &mut [u32]) -> Result<Book, SheetFault> {
    let mut book = Book::empty(0);
    let slip = closed(&WordStore::new(words), &mut book, &[MOST_3_DAYS])?;
    slip.put_away();
    Ok(book)
}

#[test]
fn five_lots_and_bytes_that_stay(rt: HostRuntime) -> Result<(), Fail> {
    let mut words = [3, 5, 4, 8, 6, 9, 1, 2, 9, 12];
    let book = five_lots_book(&mut words)?;
    let mut bytes = [0xEE; 39];
    assert_eq!(rt;
        write(&book, &WordStore::new(&mut words), &mut bytes),
        Ok(36)
    );
    let mut wanted = [0xEE; 39];
    wanted[..36].copy_from_slice(&FIVE_LOTS);
    assert_eq!(rt; bytes, wanted);
    let mut exact = [0xEE; 36];
    assert_eq!(rt;
        write(&book, &WordStore::new(&mut words), &mut exact),
        Ok(36)
    );
    assert_eq!(rt; exact, FIVE_LOTS);
    assert_eq!(rt; words, [3, 5, 4, 8, 6, 9, 1, 2, 9, 12]);
    assert_eq!(rt; book.rows(), [MOST_3_DAYS].as_slice());
    Ok(())
}

#[test]
fn too_few_bytes_stay(rt: HostRuntime) -> Result<(), Fail> {
    let mut words = [3, 5, 4, 8, 6, 9, 1, 2, 9, 12];
    let book = five_lots_book(&mut words)?;
    for length in 0..36 {
        let mut bytes = [0xEE; 36];
        assert_eq!(rt;
            write(&book, &WordStore::new(&mut words), &mut bytes[..length]),
            Err(FileFault::ShortBytes),
            "at {length}"
        );
        assert_eq!(rt; bytes, [0xEE; 36], "at {length}");
    }
    Ok(())
}

#[test]
fn no_lots_and_no_rules(rt: HostRuntime) {
    let mut bytes = [0xEE; 8];
    let mut short = [0xEE; 7];
    let book = Book::empty(0);
    assert_eq!(rt;
        write(&book, &WordStore::new(&mut []), &mut short),
        Err(FileFault::ShortBytes)
    );
    assert_eq!(rt; write(&book, &WordStore::new(&mut []), &mut bytes), Ok(8));
    assert_eq!(rt; (bytes, short), (EMPTY, [0xEE; 7]));
}

// Masks of the same windows: day 0 is the lowest bit.
#[test]
fn any_store_has_the_same_file(rt: HostRuntime) -> Result<(), Fail> {
    let mut words = [3, 5, 4, 8, 6, 9, 1, 2, 9, 12];
    let book = five_lots_book(&mut words)?;
    let mut masks = [
        0b111000,
        0b1_1111_0000,
        0b11_1100_0000,
        0b110,
        0b1_1110_0000_0000,
    ];
    let mut bytes = [0xEE; 37];
    assert_eq!(rt;
        write(&book, &MaskStore::new(&mut masks), &mut bytes),
        Ok(36)
    );
    let mut wanted = [0xEE; 37];
    wanted[..36].copy_from_slice(&FIVE_LOTS);
    assert_eq!(rt; bytes, wanted);
    Ok(())
}

// Each sheet has the fault of the next one too.
#[test]
fn write_refuses_in_order(rt: HostRuntime) -> Result<(), Fail> {
    let mut bytes = [0xEE; 8];
    let mut many = [9; 514];
    many[0] = 10;
    let mut faulty = [9, 10, 10, 9, 9, 10_000];
    let mut sound = [9, 10, 9, 9, 0, 9999];
    let four_lots = Book::empty(4);
    let three_lots = Book::empty(3);
    assert_eq!(rt;
        write(&four_lots, &WordStore::new(&mut many), &mut bytes),
        Err(FileFault::Sheet(SheetFault::TooManyLots))
    );
    assert_eq!(rt;
        write(&four_lots, &WordStore::new(&mut faulty), &mut bytes),
        Err(FileFault::Sheet(SheetFault::Mismatch))
    );
    assert_eq!(rt;
        write(&three_lots, &WordStore::new(&mut faulty), &mut bytes),
        Err(FileFault::Sheet(SheetFault::FaultyWindow(1)))
    );
    assert_eq!(rt;
        write(&three_lots, &WordStore::new(&mut sound), &mut bytes),
        Err(FileFault::ShortBytes)
    );
    assert_eq!(rt; bytes, [0xEE; 8]);
    Ok(())
}

#[test]
fn a_day_past_the_last_is_not_written(rt: HostRuntime) {
    let mut words = [9, 10, 9, 9, 9, 10_000];
    let mut bytes = [0xEE; 20];
    assert_eq!(rt;
        write(&Book::empty(3), &WordStore::new(&mut words), &mut bytes),
        Err(FileFault::Sheet(SheetFault::FaultyWindow(2)))
    );
    assert_eq!(rt; bytes, [0xEE; 20]);
}

#[test]
fn the_longest_file_is_written_as_it_was_read(rt: HostRuntime) -> Result<(), Fail> {
    let file = longest(rt.alloc())?;
    assert_eq!(rt; file.len(), 1288);
    let mut words = [77; 512];
    let book = opened(&file, &mut words)?;
    assert_eq!(rt; (book.lots(), book.rules()), (256, 32));
    let mut bytes = [0xEE; 1290];
    assert_eq!(rt;
        write(&book, &WordStore::new(&mut words), &mut bytes),
        Ok(1288)
    );
    let mut wanted = [0xEE; 1290];
    wanted[..1288].copy_from_slice(&file);
    assert_eq!(rt; bytes, wanted);
    let mut short = [0xEE; 1287];
    assert_eq!(rt;
        write(&book, &WordStore::new(&mut words), &mut short),
        Err(FileFault::ShortBytes)
    );
    assert_eq!(rt; short, [0xEE; 1287]);
    Ok(())
}

#[test]
fn a_sheet_that_was_written_and_read_is_the_same(rt: HostRuntime) -> Result<(), Fail> {
    let mut words = [0, 0, 0, 9999, 255, 256, 9999, 9999];
    let rules = [rule(0, 4, 0, 256), rule(3, 1, 255, 256)];
    let mut book = Book::empty(0);
    let slip = closed(&WordStore::new(&mut words), &mut book, &rules)?;
    slip.put_away();
    let mut bytes = [0xEE; 40];
    assert_eq!(rt;
        write(&book, &WordStore::new(&mut words), &mut bytes),
        Ok(40)
    );
    let mut again = [77; 9];
    let book_again = opened(&bytes, &mut again)?;
    assert_eq!(rt; again, [0, 0, 0, 9999, 255, 256, 9999, 9999, 77]);
    assert_eq!(rt; book_again.lots(), 4);
    assert_eq!(rt; book_again.rows(), rules.as_slice());
    Ok(())
}

// On masks with gaps, with windows and counts that asks have narrowed: what the file tells is the windows and rules as
// they stand.
#[test]
fn a_sheet_comes_back_from_its_file(rt: HostRuntime) -> Result<(), Fail> {
    let mut masks = [0b1010_1000, 0b1_1111_0000, 0b11_1100_0000];
    let mut house = MaskStore::new(&mut masks);
    let mut book = Book::empty(0);
    let rules = [rule(0, 3, 0, 3), rule(1, 2, 1, 256)];
    let slip = closed(&house, &mut book, &rules)?;
    let asked = [
        not_before(&slip, &mut house, &book, 1, 5),
        at_least(&slip, &mut book, 0, 2),
        at_most(&slip, &mut book, 1, 2),
    ];
    slip.put_away();
    assert_eq!(rt; asked, [Ok(()), Ok(()), Ok(())]);
    let mut bytes = [0xEE; 36];
    assert_eq!(rt; write(&book, &house, &mut bytes), Ok(36));
    let mut words = [77; 6];
    let contents = read(&bytes, &mut words)?;
    let mut again = Book::empty(7);
    let mut draft = start(&WordStore::new(&mut words), &mut again)?;
    let added = add_rules(&mut draft, &mut again, contents.rows);
    let slip = draft.close();
    let rules = slip.rules();
    slip.put_away();
    assert_eq!(rt; (added, rules), (Ok(()), 2));
    assert_eq!(rt; words, [3, 7, 5, 8, 6, 9]);
    assert_eq!(rt; again.lots(), 3);
    assert_eq!(rt;
        again.rows(),
        [rule(0, 3, 2, 3), rule(1, 2, 1, 2)].as_slice()
    );
    Ok(())
}

#[test]
fn the_numbers_and_places_of_refusals(rt: HostRuntime) {
    for (fault, number, place) in [
        (FileFault::NoSheetFile, 8, 0),
        (FileFault::TrailerDisagrees, 9, 0),
        (FileFault::ShortWords, 7, 0),
        (FileFault::ShortBytes, 7, 0),
        (FileFault::Sheet(SheetFault::FaultyWindow(255)), 21, 255),
        (FileFault::Sheet(SheetFault::NoPlan), 26, 0),
    ] {
        assert_eq!(rt; (fault.number(), fault.place()), (number, place));
    }
}
