// The text for a file, byte for byte; a `#` is a byte that the caller had there.
use crate::house::{EMPTY, FIVE_LOTS, file_of, longest, window_of};
use listing::fault::ListFault;
use reply::reply::{Replied, reply};
use std::test::Fail;

#[test]
fn five_lots_are_listed(rt: HostRuntime) {
    let mut out = [b'#'; 70];
    assert_eq!(rt; reply(&FIVE_LOTS, &mut out), Ok(Replied::Plan(67)));
    assert_eq!(rt;
        out,
        *b"lot 0 day 4\nlot 1 day 4\nlot 2 day 9\nlot 3 day 1\nlot 4 day 9\ndays 3\n###"
    );
}

#[test]
fn no_lots_take_no_days(rt: HostRuntime) {
    let mut out = [b'#'; 9];
    assert_eq!(rt; reply(&EMPTY, &mut out), Ok(Replied::Plan(7)));
    assert_eq!(rt; out, *b"days 0\n##");
}

#[test]
fn the_longest_file_is_listed(rt: HostRuntime) -> Result<(), Fail> {
    let mut text = String::new(rt.alloc());
    for lot in 0..256 {
        let (day, _) = window_of(lot);
        text.push_str(&format!(in rt.alloc(); "lot {lot} day {day}\n")?)?;
    }
    text.push_str("days 256\n")?;
    let mut out = [b'#'; 8192];
    let length = text.len();
    assert_eq!(rt;
        reply(&longest(rt.alloc())?, &mut out),
        Ok(Replied::Plan(length))
    );
    assert!(rt; out.starts_with(text.as_bytes()));
    assert!(rt; out.iter().skip(length).all(|byte| *byte == b'#'));
    Ok(())
}

#[test]
fn a_refusal_is_one_line(rt: HostRuntime) -> Result<(), Fail> {
    for (numbers, line) in [
        // no file of these numbers agrees with its trailer
        ([3, 5, 6, 9, 0, 2, 0, 2, 8, 2, 2], "refused 9 place 0\n"),
        ([3, 5, 9, 6, 0, 2, 0, 2, 8, 2, 1], "refused 21 place 1\n"),
        ([3, 5, 6, 9, 1, 2, 0, 2, 8, 2, 1], "refused 3 place 0\n"),
        ([3, 5, 6, 9, 0, 2, 2, 1, 8, 2, 1], "refused 4 place 0\n"),
        ([3, 5, 6, 9, 0, 2, 0, 257, 8, 2, 1], "refused 4 place 0\n"),
        ([3, 5, 6, 9, 0, 2, 0, 1, 8, 2, 1], "refused 26 place 0\n"),
    ] {
        let mut out = [b'#'; 24];
        let length = line.len();
        assert_eq!(rt;
            reply(&file_of(rt.alloc(), &numbers)?, &mut out),
            Ok(Replied::Refusal(length)),
            "at {line}"
        );
        assert!(rt; out.starts_with(line.as_bytes()), "at {line}");
        assert!(rt; out.iter().skip(length).all(|byte| *byte == b'#'));
    }
    Ok(())
}

#[test]
fn no_bytes_and_too_many(rt: HostRuntime) {
    let mut out = [b'#'; 20];
    assert_eq!(rt; reply(&[], &mut out), Ok(Replied::Refusal(18)));
    assert_eq!(rt; out, *b"refused 8 place 0\n##");
    assert_eq!(rt; reply(&[0; 1289], &mut out), Ok(Replied::Refusal(18)));
    assert_eq!(rt; out, *b"refused 9 place 0\n##");
}

#[test]
fn one_byte_short_writes_no_text(rt: HostRuntime) {
    let mut list = [b'#'; 66];
    assert_eq!(rt; reply(&FIVE_LOTS, &mut list), Err(ListFault::ShortBytes));
    assert_eq!(rt; list, [b'#'; 66]);
    let mut line = [b'#'; 17];
    assert_eq!(rt; reply(&[], &mut line), Err(ListFault::ShortBytes));
    assert_eq!(rt; line, [b'#'; 17]);
    let mut exact = [b'#'; 18];
    assert_eq!(rt; reply(&[], &mut exact), Ok(Replied::Refusal(18)));
    assert_eq!(rt; exact, *b"refused 8 place 0\n");
}
