// Files read: how many lots and rules, the words of the lots, the bytes of the rules; 77 is a word that the caller had
// there.
use crate::house::{
    EMPTY, FIVE_LOTS, file_of, five_lots_with, longer, longest, lots_257, rules_33, window_of,
};
use file::fault::FileFault;
use file::read::read;
use std::test::Fail;

// How many lots and rules a file has, and the bytes of its rules.
fn contents<'a>(file: &'a [u8], words: &mut [u32]) -> Result<(usize, usize, &'a [u8]), FileFault> {
    let contents = read(file, words)?;
    Ok((contents.lots, contents.rules, contents.rows))
}

#[test]
fn five_lots_and_a_rule(rt: HostRuntime) {
    let mut words = [77; 10];
    assert_eq!(rt;
        contents(&FIVE_LOTS, &mut words),
        Ok((5, 1, [0, 0, 5, 0, 0, 0, 3, 0].as_slice()))
    );
    assert_eq!(rt; words, [3, 5, 4, 8, 6, 9, 1, 2, 9, 12]);
}

#[test]
fn words_past_the_lots_stay(rt: HostRuntime) {
    let mut words = [77; 13];
    assert_eq!(rt;
        contents(&FIVE_LOTS, &mut words),
        Ok((5, 1, [0, 0, 5, 0, 0, 0, 3, 0].as_slice()))
    );
    assert_eq!(rt; words, [3, 5, 4, 8, 6, 9, 1, 2, 9, 12, 77, 77, 77]);
}

#[test]
fn one_word_too_few_writes_none(rt: HostRuntime) {
    let mut words = [77; 9];
    assert_eq!(rt;
        contents(&FIVE_LOTS, &mut words),
        Err(FileFault::ShortWords)
    );
    assert_eq!(rt; words, [77; 9]);
    assert_eq!(rt; contents(&FIVE_LOTS, &mut []), Err(FileFault::ShortWords));
}

#[test]
fn a_trailer_alone(rt: HostRuntime) {
    let mut words = [77; 2];
    assert_eq!(rt; contents(&EMPTY, &mut words), Ok((0, 0, [].as_slice())));
    assert_eq!(rt; words, [77; 2]);
    assert_eq!(rt; contents(&EMPTY, &mut []), Ok((0, 0, [].as_slice())));
}

#[test]
fn the_trailer_tells_lots_from_rules(rt: HostRuntime) {
    let mut words = [77; 15];
    let seven_lots = five_lots_with(28, 7, 0);
    assert_eq!(rt;
        contents(&seven_lots, &mut words),
        Ok((7, 0, [].as_slice()))
    );
    assert_eq!(rt; words, [3, 5, 4, 8, 6, 9, 1, 2, 9, 12, 0, 5, 0, 3, 77]);
}

// A window is the sheet's concern.
#[test]
fn numbers_up_to_65_535(rt: HostRuntime) -> Result<(), Fail> {
    let file = file_of(rt.alloc(), &[65_535, 0, 255, 256, 8, 2, 0])?;
    let mut words = [77; 4];
    assert_eq!(rt; contents(&file, &mut words), Ok((2, 0, [].as_slice())));
    assert_eq!(rt; words, [65_535, 0, 255, 256]);
    Ok(())
}

#[test]
fn cut_at_the_end_at_every_length(rt: HostRuntime) {
    for length in 0..36 {
        let mut words = [77; 10];
        assert_eq!(rt;
            contents(&FIVE_LOTS[..length], &mut words),
            Err(FileFault::NoSheetFile),
            "at {length}"
        );
        assert_eq!(rt; words, [77; 10], "at {length}");
    }
}

#[test]
fn cut_at_the_front_at_every_length(rt: HostRuntime) {
    for length in 0..36 {
        let fault = if length < 8 {
            FileFault::NoSheetFile
        } else {
            FileFault::TrailerDisagrees
        };
        let mut words = [77; 10];
        assert_eq!(rt;
            contents(&FIVE_LOTS[36 - length..], &mut words),
            Err(fault),
            "at {length}"
        );
        assert_eq!(rt; words, [77; 10], "at {length}");
    }
}

#[test]
fn a_number_of_the_trailer_one_off(rt: HostRuntime) {
    for (place, lots, rules) in [
        (21, 5, 1),
        (19, 5, 1),
        (20, 6, 1),
        (20, 4, 1),
        (20, 5, 2),
        (20, 5, 0),
    ] {
        let mut words = [77; 12];
        assert_eq!(rt;
            contents(&five_lots_with(place, lots, rules), &mut words),
            Err(FileFault::TrailerDisagrees),
            "at {place}, {lots}, {rules}"
        );
        assert_eq!(rt; words, [77; 12]);
    }
}

#[test]
fn numbers_of_the_trailer_far_off(rt: HostRuntime) {
    for (place, lots, rules) in [
        // numbers that fit each other, and not the length
        (24, 6, 1),
        (16, 4, 1),
        // numbers that fit the length, and not the place
        (20, 7, 0),
        (20, 3, 2),
        // four times the lots is 65,536 above the place
        (20, 16_389, 1),
        (276, 5, 1),
        (20, 5, 257),
        (0, 0, 0),
        (65_535, 65_535, 65_535),
    ] {
        let mut words = [77; 14];
        assert_eq!(rt;
            contents(&five_lots_with(place, lots, rules), &mut words),
            Err(FileFault::TrailerDisagrees),
            "at {place}, {lots}, {rules}"
        );
        assert_eq!(rt; words, [77; 14]);
    }
}

#[test]
fn a_damaged_letter(rt: HostRuntime) {
    for letters in [*b"ID", *b"GD", *b"hD", *b"HE", *b"HC", *b"Hd", *b"DH"] {
        let mut file = FIVE_LOTS;
        file[34..36].copy_from_slice(&letters);
        let mut words = [77; 10];
        assert_eq!(rt;
            contents(&file, &mut words),
            Err(FileFault::NoSheetFile),
            "at {letters:?}"
        );
        assert_eq!(rt; words, [77; 10]);
    }
}

#[test]
fn letters_before_numbers_before_words(rt: HostRuntime) {
    let mut words = [77; 1];
    let disagrees = five_lots_with(21, 5, 1);
    let mut damaged = disagrees;
    damaged[35] = b'E';
    assert_eq!(rt; contents(&damaged, &mut words), Err(FileFault::NoSheetFile));
    assert_eq!(rt;
        contents(&disagrees, &mut words),
        Err(FileFault::TrailerDisagrees)
    );
    assert_eq!(rt;
        contents(&FIVE_LOTS, &mut words),
        Err(FileFault::ShortWords)
    );
    assert_eq!(rt; words, [77; 1]);
}

#[test]
fn the_longest_file(rt: HostRuntime) -> Result<(), Fail> {
    let file = longest(rt.alloc())?;
    assert_eq!(rt; file.len(), 1288);
    let mut words = [77; 513];
    assert_eq!(rt;
        contents(&file, &mut words),
        Ok((256, 32, &file[1024..1280]))
    );
    for (lot, pair) in (0..256).zip(words.chunks_exact(2)) {
        let (low, high) = window_of(lot);
        assert_eq!(rt; pair, [u32::from(low), u32::from(high)].as_slice());
    }
    assert_eq!(rt; words[512], 77);
    let mut short = [77; 511];
    assert_eq!(rt; contents(&file, &mut short), Err(FileFault::ShortWords));
    assert_eq!(rt; short, [77; 511]);
    Ok(())
}

#[test]
fn a_byte_more_than_the_longest(rt: HostRuntime) -> Result<(), Fail> {
    let mut words = [77; 514];
    let before = longer(rt.alloc())?;
    let mut behind = longest(rt.alloc())?;
    behind.push(0)?;
    assert_eq!(rt; (before.len(), behind.len()), (1289, 1289));
    assert_eq!(rt;
        contents(&before, &mut words),
        Err(FileFault::TrailerDisagrees)
    );
    // here the letters are no longer at the end
    assert_eq!(rt; contents(&behind, &mut words), Err(FileFault::NoSheetFile));
    assert_eq!(rt; words, [77; 514]);
    Ok(())
}

#[test]
fn the_257th_lot(rt: HostRuntime) -> Result<(), Fail> {
    let file = lots_257(rt.alloc())?;
    assert_eq!(rt; file.len(), 1036);
    let mut words = [77; 514];
    assert_eq!(rt;
        contents(&file, &mut words),
        Err(FileFault::TrailerDisagrees)
    );
    assert_eq!(rt; words, [77; 514]);
    // even before too few words
    assert_eq!(rt; contents(&file, &mut []), Err(FileFault::TrailerDisagrees));
    Ok(())
}

#[test]
fn the_33rd_rule(rt: HostRuntime) -> Result<(), Fail> {
    let file = rules_33(rt.alloc())?;
    assert_eq!(rt; file.len(), 276);
    let mut words = [77; 2];
    assert_eq!(rt;
        contents(&file, &mut words),
        Err(FileFault::TrailerDisagrees)
    );
    assert_eq!(rt; words, [77; 2]);
    Ok(())
}
