// The fewest and the most days of a stretch, with what shows them, in days and in weeks.
use base_stores::words::WordStore;
use calendar::period::{Period, PeriodLength};
use count::fewest::fewest;
use count::most::most;
use count::stretch::Stretch;
use guard::guard::WORDS;
use std::io;
use store::store::WindowStore;

const LOTS: usize = 6;

pub fn in_days(rt: &HostRuntime, words: &mut [u32]) -> io::Result<()> {
    println!(rt; "How few and how many different days all lots can take")?;
    ask(rt, &WordStore::new(words))
}

pub fn in_weeks(rt: &HostRuntime, words: &mut [u32], week: PeriodLength) -> io::Result<()> {
    println!(rt; "The same in weeks")?;
    ask(rt, &Period::new(WordStore::new(words), week))
}

fn ask<S: WindowStore>(rt: &HostRuntime, house: &S) -> io::Result<()> {
    let all = Stretch {
        first: 0,
        length: LOTS,
    };
    let mut answer = [0; 2 * LOTS];
    let mut work = [0; WORDS];
    match fewest(house, all, &mut answer, &mut work) {
        Ok(few) => {
            println!(rt; "  the fewest are {few}, as with")?;
            show_choice(rt, &answer)?;
            show_lots(rt, &answer, few)?;
        }
        Err(fault) => println!(rt; "  {fault}")?,
    }
    match most(house, all, &mut answer, &mut work) {
        Ok(shown) => {
            let many = shown.count;
            println!(rt; "  the most are {many}, as with")?;
            show_choice(rt, &answer)?;
            show_runs(rt, &answer, shown.runs)
        }
        Err(fault) => println!(rt; "  {fault}"),
    }
}

// A sentence of this program alone, so no `Display` of a library.
fn show_choice(rt: &HostRuntime, answer: &[u32]) -> io::Result<()> {
    for (lot, day) in answer.iter().take(LOTS).enumerate() {
        println!(rt; "    lot {lot} on {day}")?;
    }
    Ok(())
}

// A sentence of this program alone, so no `Display` of a library.
fn show_lots(rt: &HostRuntime, answer: &[u32], few: usize) -> io::Result<()> {
    println!(rt; "  not fewer, since no two of these lots share a day")?;
    for lot in answer.iter().skip(LOTS).take(few) {
        println!(rt; "    lot {lot}")?;
    }
    Ok(())
}

// A sentence of this program alone, so no `Display` of a library.
fn show_runs(rt: &HostRuntime, answer: &[u32], runs: usize) -> io::Result<()> {
    if runs == 0 {
        return println!(rt; "  not more, since there are no more lots");
    }
    println!(rt; "  not more, since each of these runs has more lots than days")?;
    for run in answer.chunks_exact(2).skip(LOTS / 2).take(runs) {
        if let [first, last] = run {
            println!(rt; "    {first} to {last}")?;
        }
    }
    Ok(())
}
