// Through layers: lots that settle does not move keep their memory, and a layer may have fields of its own.
use crate::house::{planned, rule, settled};
use base_stores::masks::MaskStore;
use calendar::dispatch::Dispatch;
use sheet::book::Book;
use store_tests::counting::Counting;

// The masks of lots 0, 1 and 3 have gaps. Lots 1 and 2 are to share a day, so lot 1 loses its last one.
const MASKS: [u64; 4] = [10, 80, 48, 272];

const SETTLED: [u64; 4] = [10, 48, 48, 272];

#[test]
fn gaps_stay_before_dispatch(rt: HostRuntime) {
    let mut masks = MASKS;
    let mut book = Book::empty(0);
    let mut house = Dispatch::new(MaskStore::new(&mut masks), 10);
    assert_eq!(rt; settled(&mut house, &mut book, &[rule(1, 2, 1, 1)]), Ok(()));
    assert_eq!(rt; masks, SETTLED);
}

// No call of settle or plan on the store is refused, so the layer counts none.
#[test]
fn through_a_layer_that_counts_refusals(rt: HostRuntime) {
    let mut masks = MASKS;
    let mut book = Book::empty(0);
    let mut house = Counting::new(MaskStore::new(&mut masks));
    let settling = settled(&mut house, &mut book, &[rule(1, 2, 1, 1)]);
    let refused = house.refused();
    let mut days = [0; 4];
    let planning = planned(&house, &[rule(1, 2, 1, 1)], &mut days);
    assert_eq!(rt; (settling, planning), (Ok(()), Ok(2)));
    assert_eq!(rt; days, [1, 4, 4, 4]);
    assert_eq!(rt; refused, 0);
    assert_eq!(rt; masks, SETTLED);
}
