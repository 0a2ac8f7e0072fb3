// Several calls in a row on whole piles, and what they leave of the memory at the bottom.
use crate::clients::{cut_all, cut_two};
use crate::counting::Counting;
use base_stores::masks::MaskStore;
use base_stores::words::WordStore;
use calendar::dispatch::Dispatch;
use calendar::period::{Period, PeriodLength};
use std::test::Fail;
use store::fault::StoreFault;
use store::half_line::HalfLine;
use store::store::{WindowStore, read_window};
use store::window::Window;

// Days 3, 5 and 9: a window with a gap on either side of its middle day.
const GAPS: u64 = 1 << 3 | 1 << 5 | 1 << 9;

#[test]
fn gaps_of_other_lots_stay(rt: HostRuntime) {
    let mut masks = [GAPS, GAPS, GAPS];
    let mut house = MaskStore::new(&mut masks);
    assert_eq!(rt; house.raise(1, 5), Ok(()));
    assert_eq!(rt; house.raise(0, 10), Err(StoreFault::WouldEmpty));
    assert_eq!(rt; house.lower(2, 9), Ok(()));
    assert_eq!(rt; masks, [GAPS, (1 << 10) - (1 << 5), GAPS]);
}

#[test]
fn a_refusal_fills_no_gap_of_its_own_lot(rt: HostRuntime) {
    let mut masks = [GAPS];
    let mut house = MaskStore::new(&mut masks);
    assert_eq!(rt;
        house.trim(0, HalfLine::UpTo(2)),
        Err(StoreFault::WouldEmpty)
    );
    assert_eq!(rt;
        house.trim(1, HalfLine::From(4)),
        Err(StoreFault::NoSuchLot)
    );
    assert_eq!(rt; house.trim(0, HalfLine::From(0)), Ok(()));
    assert_eq!(rt; masks, [GAPS]);
}

#[test]
fn counted_refusals_over_words(rt: HostRuntime) {
    let mut words = [2, 9, 4, 6, 77];
    let mut house = Counting::new(Dispatch::new(WordStore::new(&mut words), 10));
    assert_eq!(rt; house.lots(), 2);
    assert_eq!(rt; read_window(&house, 1), Some(Window { low: 4, high: 6 }));
    assert_eq!(rt; house.raise(0, 9), Err(StoreFault::WouldEmpty));
    assert_eq!(rt; house.lower(2, 0), Err(StoreFault::NoSuchLot));
    assert_eq!(rt; house.raise(0, 3), Ok(()));
    assert_eq!(rt; house.raise(1, 3), Ok(()));
    assert_eq!(rt; house.refused(), 2);
    assert_eq!(rt; words, [2, 7, 4, 6, 77]);
}

#[test]
fn two_lots_cut_over_masks(rt: HostRuntime) {
    let mut masks = [GAPS, GAPS, 0, GAPS];
    let mut house = Counting::new(Dispatch::new(MaskStore::new(&mut masks), 12));
    cut_two(&mut house, 0, 2, 4, 9);
    assert_eq!(rt; read_window(&house, 0), Some(Window { low: 4, high: 9 }));
    assert_eq!(rt;
        house.refused(),
        0,
        "the empty window shows as [12, 0], which lies in either half-line"
    );
    cut_two(&mut house, 1, 4, 10, 11);
    assert_eq!(rt;
        house.refused(),
        3,
        "lot 1 has no day from 10 on, and there is no lot 4"
    );
    assert_eq!(rt; masks, [(1 << 9) - (1 << 3), GAPS, 0, GAPS]);
}

#[test]
fn all_lots_cut_over_words(rt: HostRuntime) {
    let mut words = [0, 20, 7, 12, 15, 30, 5];
    let mut house = Counting::new(Dispatch::new(WordStore::new(&mut words), 20));
    cut_all(&mut house, 8, 14);
    assert_eq!(rt; house.refused(), 1);
    assert_eq!(rt; words, [6, 12, 7, 12, 15, 30, 5]);
}

#[test]
fn weeks_cut_over_masks(rt: HostRuntime) -> Result<(), Fail> {
    let mut masks = [1 << 8 | 1 << 40, 1 << 15 | 1 << 20];
    let refused = cut_in_periods(MaskStore::new(&mut masks), PeriodLength::new(7)?);
    assert_eq!(rt; refused, 0);
    assert_eq!(rt; masks, [(1 << 28) - (1 << 14), 1 << 15 | 1 << 20]);
    Ok(())
}

// Every lot to the periods 2 and 3; how many calls were refused. Generic in the store at the bottom:
// with the pile's type written out over lent memory, no proof is made of it.
fn cut_in_periods<S: WindowStore + Drop>(days: S, length: PeriodLength) -> u32 {
    let mut house = Counting::new(Period::new(days, length));
    cut_all(&mut house, 2, 3);
    house.refused()
}
