// The line of a refusal, byte for byte; a `#` is a byte that the caller had there.
use listing::fault::ListFault;
use listing::refusal::write_refusal;

#[test]
fn a_refusal_is_one_line(rt: HostRuntime) {
    let mut out = [b'#'; 24];
    assert_eq!(rt; write_refusal(21, 255, &mut out), Ok(21));
    assert_eq!(rt; out, *b"refused 21 place 255\n###");
}

#[test]
fn a_refusal_that_names_no_place(rt: HostRuntime) {
    let mut out = [b'#'; 18];
    assert_eq!(rt; write_refusal(7, 0, &mut out), Ok(18));
    assert_eq!(rt; out, *b"refused 7 place 0\n");
}

#[test]
fn the_greatest_numbers(rt: HostRuntime) {
    let mut out = [b'#'; 46];
    assert_eq!(rt;
        write_refusal(u32::MAX, 18_446_744_073_709_551_615, &mut out),
        Ok(46)
    );
    assert_eq!(rt; out, *b"refused 4294967295 place 18446744073709551615\n");
}

#[test]
fn one_byte_short_writes_nothing(rt: HostRuntime) {
    let mut out = [b'#'; 17];
    assert_eq!(rt; write_refusal(7, 0, &mut out), Err(ListFault::ShortBytes));
    assert_eq!(rt; out, [b'#'; 17]);
}
