// Plans as text, byte for byte; a `#` is a byte that the caller had there.
use decimal::number::digits;
use listing::fault::ListFault;
use listing::list::list;
use std::test::Fail;

#[test]
fn a_line_for_each_lot_and_the_count(rt: HostRuntime) {
    let mut out = [b'#'; 70];
    assert_eq!(rt; list(&[4, 4, 9, 1, 9], &mut out), Ok(67));
    assert_eq!(rt;
        out,
        *b"lot 0 day 4\nlot 1 day 4\nlot 2 day 9\nlot 3 day 1\nlot 4 day 9\ndays 3\n###"
    );
}

#[test]
fn no_lots_leave_the_count_alone(rt: HostRuntime) {
    let mut out = [b'#'; 8];
    assert_eq!(rt; list(&[], &mut out), Ok(7));
    assert_eq!(rt; out, *b"days 0\n#");
}

#[test]
fn days_of_one_to_ten_digits(rt: HostRuntime) {
    let mut out = [b'#'; 68];
    assert_eq!(rt; list(&[0, 10, 100, 4_294_967_295], &mut out), Ok(67));
    assert_eq!(rt;
        out,
        *b"lot 0 day 0\nlot 1 day 10\nlot 2 day 100\nlot 3 day 4294967295\ndays 4\n#"
    );
}

#[test]
fn equal_days_count_once(rt: HostRuntime) {
    let mut out = [b'#'; 37];
    assert_eq!(rt; list(&[9999, 9999], &mut out), Ok(37));
    assert_eq!(rt; out, *b"lot 0 day 9999\nlot 1 day 9999\ndays 1\n");
}

#[test]
fn as_many_bytes_as_the_text_has_will_do(rt: HostRuntime) {
    let mut exact = [b'#'; 19];
    assert_eq!(rt; list(&[7], &mut exact), Ok(19));
    assert_eq!(rt; exact, *b"lot 0 day 7\ndays 1\n");
}

#[test]
fn one_byte_short_is_refused_and_untouched(rt: HostRuntime) {
    let mut short = [b'#'; 18];
    assert_eq!(rt; list(&[7], &mut short), Err(ListFault::ShortBytes));
    assert_eq!(rt; short, [b'#'; 18]);
    assert_eq!(rt; list(&[], &mut []), Err(ListFault::ShortBytes));
}

#[test]
fn listing_256_days(rt: HostRuntime) {
    let days = [1; 256];
    let mut out = [b'#'; 3482];
    assert_eq!(rt; list(&days, &mut out), Ok(3481));
    assert!(rt; out.ends_with(b"lot 254 day 1\nlot 255 day 1\ndays 1\n#"));
    let mut short = [b'#'; 3480];
    assert_eq!(rt; list(&days, &mut short), Err(ListFault::ShortBytes));
    assert_eq!(rt; short, [b'#'; 3480]);
}

#[test]
fn listing_256_times_the_greatest_word(rt: HostRuntime) -> Result<(), Fail> {
    let mut text = String::new(rt.alloc());
    for lot in 0..256 {
        text.push_str(&format!(in rt.alloc(); "lot {lot} day 4294967295\n")?)?;
    }
    text.push_str("days 1\n")?;
    let days = [4_294_967_295; 256];
    let mut out = [b'#'; 5786];
    assert_eq!(rt; list(&days, &mut out), Ok(5785));
    assert!(rt; out.starts_with(text.as_bytes()));
    assert_eq!(rt; (text.len(), out[5785]), (5785, b'#'));
    Ok(())
}

#[test]
fn listing_257_days_is_refused_first(rt: HostRuntime) {
    let days = [1; 257];
    let mut out = [b'#'; 4096];
    assert_eq!(rt; list(&days, &mut out), Err(ListFault::TooManyLots));
    assert_eq!(rt; out, [b'#'; 4096]);
    assert_eq!(rt; list(&days, &mut []), Err(ListFault::TooManyLots));
}

#[test]
fn the_numbers_of_refusals(rt: HostRuntime) {
    assert_eq!(rt;
        (
            ListFault::TooManyLots.number(),
            ListFault::ShortBytes.number(),
        ),
        (20, 7)
    );
}

#[test]
fn a_refusal_prints_its_number_and_place_0(rt: HostRuntime) -> Result<(), Fail> {
    let many = format!(in rt.alloc(); "{}", ListFault::TooManyLots)?;
    let short = format!(in rt.alloc(); "{}", ListFault::ShortBytes)?;
    assert_eq!(rt; many.as_str(), "refused 20 place 0");
    assert_eq!(rt; short.as_str(), "refused 7 place 0");
    assert_eq!(rt; ListFault::TooManyLots.place(), 0);
    Ok(())
}

#[test]
fn numbers_have_no_leading_zero(rt: HostRuntime) {
    assert_eq!(rt;
        (digits(0), digits(9), digits(10), digits(99), digits(100)),
        (1, 1, 2, 2, 3)
    );
    assert_eq!(rt; digits(18_446_744_073_709_551_615), 20);
}
