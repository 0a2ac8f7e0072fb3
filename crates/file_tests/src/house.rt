// What the tests share: sheet files, made number by number and not by the calls under test, and rules.
use nvalue::stretch::Stretch;
use rules::row::Row;
use std::alloc::{AllocError, Global};

// Five lots and one rule over all of them, at most 3 days.
pub const FIVE_LOTS: [u8; 36] = [
    0x03, 0x00, 0x05, 0x00, 0x04, 0x00, 0x08, 0x00, 0x06, 0x00, 0x09, 0x00, 0x01, 0x00, 0x02, 0x00,
    0x09, 0x00, 0x0C, 0x00, 0x00, 0x00, 0x05, 0x00, 0x00, 0x00, 0x03, 0x00, 0x14, 0x00, 0x05, 0x00,
    0x01, 0x00, 0x48, 0x44,
];

// No lots and no rules.
pub const EMPTY: [u8; 8] = [0x00, 0x00, 0x00, 0x00, 0x00, 0x00, 0x48, 0x44];

// The five lots with these numbers in the trailer.
pub fn five_lots_with(place: u16, lots: u16, rules: u16) -> [u8; 36] {
    let mut file = FIVE_LOTS;
    file[28..30].copy_from_slice(&place.to_le_bytes());
    file[30..32].copy_from_slice(&lots.to_le_bytes());
    file[32..34].copy_from_slice(&rules.to_le_bytes());
    file
}

// A rule over so many lots from the first on, from a floor to a ceiling.
pub fn rule(first: usize, length: usize, floor: u32, ceiling: u32) -> Row {
    Row {
        stretch: Stretch { first, length },
        floor,
        ceiling,
    }
}

// Each number as two bytes, the low one first.
pub fn bytes_of(alloc: Global, numbers: &[u16]) -> Result<Vec<u8>, AllocError> {
    let mut bytes = Vec::new(alloc);
    for number in numbers {
        bytes.extend_from_slice(&number.to_le_bytes())?;
    }
    Ok(bytes)
}

// The file of these numbers: two for each lot, four for each rule, and the trailer's three.
pub fn file_of(alloc: Global, numbers: &[u16]) -> Result<Vec<u8>, AllocError> {
    let mut file = bytes_of(alloc, numbers)?;
    file.extend_from_slice(b"HD")?;
    Ok(file)
}

// The longest file, of 256 lots with different first days and 32 rules that these days keep: the last over all lots,
// the others over eight each.
pub fn longest(alloc: Global) -> Result<Vec<u8>, AllocError> {
    let mut numbers = Vec::new(alloc);
    for lot in 0..256 {
        let (low, high) = window_of(lot);
        numbers.extend_from_slice(&[low, high])?;
    }
    for rule in 0..31 {
        numbers.extend_from_slice(&[8 * rule, 8, rule % 9, 256])?;
    }
    numbers.extend_from_slice(&[0, 256, 2, 256])?;
    numbers.extend_from_slice(&[1024, 256, 32])?;
    file_of(alloc, &numbers)
}

// The window of a lot of the longest file.
pub fn window_of(lot: u16) -> (u16, u16) {
    let low = lot.wrapping_mul(37) % 9000;
    (low, low + 300)
}

// The longest file, and one byte before it.
pub fn longer(alloc: Global) -> Result<Vec<u8>, AllocError> {
    let mut file = vec![in alloc; 0; 1]?;
    file.extend_from_slice(&longest(alloc)?)?;
    Ok(file)
}

// 257 lots and no rules.
pub fn lots_257(alloc: Global) -> Result<Vec<u8>, AllocError> {
    let mut numbers = vec![in alloc; 1; 514]?;
    numbers.extend_from_slice(&[1028, 257, 0])?;
    file_of(alloc, &numbers)
}

// One lot and 33 rules.
pub fn rules_33(alloc: Global) -> Result<Vec<u8>, AllocError> {
    let mut numbers = vec![in alloc; 0; 2]?;
    for _ in 0..33 {
        numbers.extend_from_slice(&[0, 1, 0, 1])?;
    }
    numbers.extend_from_slice(&[4, 1, 33])?;
    file_of(alloc, &numbers)
}
