// The word store and the mask store.
use base_stores::masks::MaskStore;
use base_stores::words::WordStore;
use store::fault::StoreFault;
use store::store::WindowStore;

#[test]
fn words_move_one_end(rt: HostRuntime) {
    let mut words = [3, 5, 4, 8];
    let mut house = WordStore::new(&mut words);
    assert_eq!(rt; house.lots(), 2);
    assert_eq!(rt; house.raise(1, 6), Ok(()));
    assert_eq!(rt; house.lower(0, 4), Ok(()));
    assert_eq!(rt; house.low(1), Some(6));
    assert_eq!(rt; house.high(0), Some(4));
    assert_eq!(rt; words, [3, 4, 6, 8]);
}

#[test]
fn words_refuse_and_stay(rt: HostRuntime) {
    let mut words = [3, 5, 4, 8];
    let mut house = WordStore::new(&mut words);
    assert_eq!(rt; house.raise(0, 6), Err(StoreFault::WouldEmpty));
    assert_eq!(rt; house.lower(1, 3), Err(StoreFault::WouldEmpty));
    assert_eq!(rt; house.raise(2, 0), Err(StoreFault::NoSuchLot));
    assert_eq!(rt; house.lower(2, u32::MAX), Err(StoreFault::NoSuchLot));
    assert_eq!(rt; house.raise(0, 3), Ok(()));
    assert_eq!(rt; house.lower(0, 5), Ok(()));
    assert_eq!(rt; house.low(2), None);
    assert_eq!(rt; house.high(2), None);
    assert_eq!(rt; words, [3, 5, 4, 8]);
}

#[test]
fn an_odd_last_word_is_no_lot(rt: HostRuntime) {
    let mut words = [3, 5, 77];
    let mut house = WordStore::new(&mut words);
    assert_eq!(rt; house.lots(), 1);
    assert_eq!(rt; house.raise(0, 5), Ok(()));
    assert_eq!(rt; house.raise(1, 80), Err(StoreFault::NoSuchLot));
    assert_eq!(rt; words, [5, 5, 77]);
}

#[test]
fn the_last_day_of_all(rt: HostRuntime) {
    let mut words = [0, u32::MAX];
    let mut house = WordStore::new(&mut words);
    assert_eq!(rt; house.lower(0, u32::MAX), Ok(()));
    assert_eq!(rt; house.raise(0, u32::MAX), Ok(()));
    assert_eq!(rt; words, [u32::MAX, u32::MAX]);
}

// A window that is empty already: either end may stay, and neither may move.
#[test]
fn an_empty_window_stays_empty(rt: HostRuntime) {
    let mut words = [9, 2];
    let mut house = WordStore::new(&mut words);
    assert_eq!(rt; house.raise(0, 5), Ok(()));
    assert_eq!(rt; house.lower(0, 5), Ok(()));
    assert_eq!(rt; house.raise(0, 10), Err(StoreFault::WouldEmpty));
    assert_eq!(rt; house.lower(0, 1), Err(StoreFault::WouldEmpty));
    assert_eq!(rt; words, [9, 2]);
}

#[test]
fn a_mask_reads_its_outermost_bits(rt: HostRuntime) {
    let mut masks = [104];
    let mut house = MaskStore::new(&mut masks);
    assert_eq!(rt; house.low(0), Some(3));
    assert_eq!(rt; house.high(0), Some(6));
    assert_eq!(rt; house.raise(0, 3), Ok(()));
    assert_eq!(rt; house.lower(0, 6), Ok(()));
    assert_eq!(rt; masks, [104], "no end moved, so the gap stays");
    let mut house = MaskStore::new(&mut masks);
    assert_eq!(rt; house.raise(0, 4), Ok(()));
    assert_eq!(rt; masks, [112]);
}

#[test]
fn a_mask_without_a_bit(rt: HostRuntime) {
    let mut masks = [0];
    let mut house = MaskStore::new(&mut masks);
    assert_eq!(rt; house.low(0), Some(64));
    assert_eq!(rt; house.high(0), Some(0));
    assert_eq!(rt; house.raise(0, 64), Ok(()));
    assert_eq!(rt; house.raise(0, 65), Err(StoreFault::WouldEmpty));
    assert_eq!(rt; house.lower(0, 0), Ok(()));
    assert_eq!(rt; masks, [0]);
}

#[test]
fn a_full_mask(rt: HostRuntime) {
    let mut masks = [u64::MAX];
    let mut house = MaskStore::new(&mut masks);
    assert_eq!(rt; house.raise(0, 64), Err(StoreFault::WouldEmpty));
    assert_eq!(rt; house.raise(0, u32::MAX), Err(StoreFault::WouldEmpty));
    assert_eq!(rt; house.lower(0, 62), Ok(()));
    assert_eq!(rt; house.raise(0, 62), Ok(()));
    assert_eq!(rt; masks, [1 << 62]);
}
