// The windows of a house, read and moved in each calendar.
use base_stores::masks::MaskStore;
use base_stores::words::WordStore;
use calendar::dispatch::Dispatch;
use calendar::period::{Period, PeriodLength};
use std::io;
use store::fault::StoreFault;
use store::store::{WindowStore, read_window};

const DISPATCH: u32 = 14;

// In days of the season: a later first day, a first day pushed past the last, a lot that is not there.
pub fn season(rt: &HostRuntime, words: &mut [u32]) -> io::Result<()> {
    println!(rt; "The house's windows, in days of the season")?;
    let mut house = WordStore::new(words);
    show(rt, &house)?;
    println!(rt; "Lot 1 is to start on day 5 or later")?;
    told(rt, house.raise(1, 5))?;
    println!(rt; "Lot 0 is to start on day 9 or later, past its last day")?;
    told(rt, house.raise(0, 9))?;
    println!(rt; "Lot 7 is to end on day 3 or earlier")?;
    told(rt, house.lower(7, 3))?;
    println!(rt; "Every window after the two refusals")?;
    show(rt, &house)
}

// In days before dispatch, where a later first day is an earlier last day below.
pub fn before_dispatch(rt: &HostRuntime, words: &mut [u32]) -> io::Result<()> {
    println!(rt; "The same house in days before dispatch, which is on day {DISPATCH}")?;
    let mut house = Dispatch::new(WordStore::new(words), DISPATCH);
    show(rt, &house)?;
    println!(rt; "Lot 4 is to start 3 days before dispatch or later in this count")?;
    told(rt, house.raise(4, 3))?;
    show(rt, &house)?;
    println!(rt; "Below, in days of the season")?;
    show(rt, &house.into_below())
}

// In weeks, where an end moves to the edge of its week below.
pub fn in_weeks(rt: &HostRuntime, words: &mut [u32], week: PeriodLength) -> io::Result<()> {
    let days = week.days();
    println!(rt; "The same house in weeks of {days} days")?;
    let mut house = Period::new(WordStore::new(words), week);
    show(rt, &house)?;
    println!(rt; "Lot 1 is to start in week 1 or later")?;
    told(rt, house.raise(1, 1))?;
    println!(rt; "Lot 2 is to end in week 0")?;
    told(rt, house.lower(2, 0))?;
    show(rt, &house)?;
    println!(rt; "Below, in days of the season")?;
    show(rt, &house.into_below())
}

// One calendar over the other: any pile of layers is a store.
pub fn weeks_before_dispatch(
    rt: &HostRuntime,
    words: &mut [u32],
    week: PeriodLength,
) -> io::Result<()> {
    println!(rt; "The same house in weeks before dispatch")?;
    let mut house = Period::new(Dispatch::new(WordStore::new(words), DISPATCH), week);
    show(rt, &house)?;
    println!(rt; "Lot 0 is to end in week 1 before dispatch: it does already")?;
    told(rt, house.lower(0, 1))?;
    println!(rt; "Lot 4 is to start in week 1 before dispatch or later, past its last")?;
    told(rt, house.raise(4, 1))?;
    println!(rt; "Below, in days of the season")?;
    show(rt, &house.into_below().into_below())?;
    println!(rt; "Periods of 367 days are asked for")?;
    match PeriodLength::new(367) {
        Ok(_) => println!(rt; "  accepted"),
        Err(fault) => println!(rt; "  {fault}"),
    }
}

// On day masks: gaps do not count, and a window that moved has none.
pub fn masked(rt: &HostRuntime, masks: &mut [u64]) -> io::Result<()> {
    println!(rt; "A house on day masks: bits 3, 5 and 6, and a mask with no bit")?;
    let mut house = MaskStore::new(masks);
    show(rt, &house)?;
    println!(rt; "Lot 0 is to start on day 4 or later")?;
    told(rt, house.raise(0, 4))?;
    show(rt, &house)?;
    for mask in masks.iter() {
        println!(rt; "  mask {mask}")?;
    }
    Ok(())
}

// Lot by lot, as a store answers: no store has a text of its own. The other checklist has the same lines, since two
// programs share no library for so few.
fn show<S: WindowStore>(rt: &HostRuntime, house: &S) -> io::Result<()> {
    for lot in 0..house.lots() {
        if let Some(window) = read_window(house, lot) {
            println!(rt; "  lot {lot}: {window}")?;
        }
    }
    Ok(())
}

// A sentence of this program alone, so no `Display` of a library.
fn told(rt: &HostRuntime, answer: Result<(), StoreFault>) -> io::Result<()> {
    match answer {
        Ok(()) => println!(rt; "  accepted"),
        Err(fault) => println!(rt; "  refused: {fault}"),
    }
}
