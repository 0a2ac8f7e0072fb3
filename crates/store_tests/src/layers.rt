// Dispatch and period layers, alone and piled up, on both bottom stores.
use base_stores::masks::MaskStore;
use base_stores::words::WordStore;
use calendar::dispatch::Dispatch;
use calendar::period::{Period, PeriodFault, PeriodLength};
use std::test::Fail;
use store::fault::StoreFault;
use store::store::{WindowStore, read_window};
use store::window::Window;

#[test]
fn dispatch_turns_the_window_round(rt: HostRuntime) {
    let mut words = [2, 4];
    let mut house = Dispatch::new(WordStore::new(&mut words), 10);
    assert_eq!(rt; read_window(&house, 0), Some(Window { low: 6, high: 8 }));
    assert_eq!(rt; house.raise(0, 7), Ok(()));
    assert_eq!(rt; words, [2, 3]);
}

#[test]
fn a_day_after_dispatch_shows_as_0(rt: HostRuntime) {
    let mut words = [7, 9];
    let mut house = Dispatch::new(WordStore::new(&mut words), 5);
    assert_eq!(rt; read_window(&house, 0), Some(Window { low: 0, high: 0 }));
    assert_eq!(rt; house.raise(0, 0), Ok(()));
    assert_eq!(rt; house.lower(0, 0), Ok(()));
    assert_eq!(rt; house.raise(0, 1), Err(StoreFault::WouldEmpty));
    assert_eq!(rt; house.raise(0, u32::MAX), Err(StoreFault::WouldEmpty));
    assert_eq!(rt; house.raise(1, 1), Err(StoreFault::NoSuchLot));
    assert_eq!(rt; words, [7, 9]);
}

#[test]
fn weeks_move_to_their_edges(rt: HostRuntime) -> Result<(), Fail> {
    let week = PeriodLength::new(7)?;
    let mut words = [5, 20];
    let mut house = Period::new(WordStore::new(&mut words), week);
    assert_eq!(rt; read_window(&house, 0), Some(Window { low: 0, high: 2 }));
    assert_eq!(rt; house.raise(0, 1), Ok(()));
    assert_eq!(rt; house.lower(0, 1), Ok(()));
    assert_eq!(rt; house.lower(0, 0), Err(StoreFault::WouldEmpty));
    assert_eq!(rt; words, [7, 13]);
    Ok(())
}

#[test]
fn periods_near_the_last_word(rt: HostRuntime) -> Result<(), Fail> {
    let year = PeriodLength::new(366)?;
    let mut words = [0, u32::MAX];
    let mut house = Period::new(WordStore::new(&mut words), year);
    assert_eq!(rt; house.high(0), Some(u32::MAX / 366));
    assert_eq!(rt; house.raise(0, u32::MAX), Err(StoreFault::WouldEmpty));
    assert_eq!(rt; house.raise(0, u32::MAX / 366), Ok(()));
    assert_eq!(rt; words, [u32::MAX / 366 * 366, u32::MAX]);
    Ok(())
}

#[test]
fn lengths_of_a_period(rt: HostRuntime) -> Result<(), Fail> {
    assert_eq!(rt; PeriodLength::new(0), Err(PeriodFault::OutOfRange));
    assert_eq!(rt; PeriodLength::new(367), Err(PeriodFault::OutOfRange));
    assert_eq!(rt; PeriodFault::OutOfRange.number(), 10);
    assert_eq!(rt; PeriodFault::OutOfRange.place(), 0);
    assert_eq!(rt; PeriodLength::new(1)?.days(), 1);
    assert_eq!(rt; PeriodLength::new(366)?.days(), 366);
    Ok(())
}

#[test]
fn weeks_before_dispatch_on_words(rt: HostRuntime) -> Result<(), Fail> {
    let week = PeriodLength::new(7)?;
    let mut words = [2, 24];
    let mut house = Period::new(Dispatch::new(WordStore::new(&mut words), 30), week);
    assert_eq!(rt; read_window(&house, 0), Some(Window { low: 0, high: 4 }));
    assert_eq!(rt; house.raise(0, 1), Ok(()));
    assert_eq!(rt; house.lower(0, 2), Ok(()));
    assert_eq!(rt; words, [10, 23]);
    Ok(())
}

#[test]
fn weeks_below_dispatch_on_masks(rt: HostRuntime) -> Result<(), Fail> {
    let mut masks = [1 << 20 | 1 << 50];
    let (shown, raised, weeks) = below_dispatch(MaskStore::new(&mut masks), PeriodLength::new(7)?);
    assert_eq!(rt; shown, Some(Window { low: 2, high: 7 }));
    assert_eq!(rt; raised, Ok(()));
    assert_eq!(rt; weeks, Some(Window { low: 2, high: 3 }));
    assert_eq!(rt; masks, [(1 << 28) - (1 << 20)]);
    Ok(())
}

// What a pile over these days shows, what it answers when lot 0 is to rise to 6, and what its weeks show then.
// Generic in the store at the bottom: with the pile's type written out over lent memory, no proof is made of it.
fn below_dispatch<S: WindowStore + Drop>(
    days: S,
    week: PeriodLength,
) -> (Option<Window>, Result<(), StoreFault>, Option<Window>) {
    let mut house = Dispatch::new(Period::new(days, week), 9);
    let shown = read_window(&house, 0);
    let raised = house.raise(0, 6);
    let weeks = house.into_below();
    (shown, raised, read_window(&weeks, 0))
}
