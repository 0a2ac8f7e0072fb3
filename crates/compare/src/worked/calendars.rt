// One lot and no rule, through each calendar and on a mask: what is shown and planned, and what an ask leaves below.
use crate::planner;
use crate::second::calendars::{Calendar, days_of, days_of_mask, mask_of};
use crate::second::choices::Days;
use crate::second::plans;
use crate::told::{Score, tell};
use answers::answer::Answer;
use answers::small::{Small, window};
use base_stores::masks::MaskStore;
use base_stores::words::WordStore;
use calendar::dispatch::Dispatch;
use calendar::period::{Period, PeriodLength};
use std::alloc::{AllocError, Global};
use std::io;
use store::store::WindowStore;
use store::window::Window;

// The days below, how they are shown, and the shown days that are asked for.
#[derive(Drop)]
struct Case {
    days: Days,
    calendar: Calendar,
    asked: Window,
}

pub fn show(rt: &HostRuntime, score: &mut Score) -> io::Result<()> {
    before_dispatch(rt, score)?;
    in_weeks(rt, score)?;
    on_a_mask(rt, score)
}

fn before_dispatch(rt: &HostRuntime, score: &mut Score) -> io::Result<()> {
    println!(rt; "one lot before dispatch: [2,4] below, dispatch on day 10")?;
    let case = Case {
        days: days_of(rt.alloc(), window(2, 4))?,
        calendar: Calendar::BeforeDispatch(10),
        asked: window(7, 8),
    };
    let mut words = [2, 4];
    let mut house = Dispatch::new(WordStore::new(&mut words), 10);
    ask(rt, score, &mut house, &case)?;
    let left = left_below(rt.alloc(), &case)?;
    tell_shown(rt, score, "then below", &WordStore::new(&mut words), left)
}

fn in_weeks(rt: &HostRuntime, score: &mut Score) -> io::Result<()> {
    println!(rt; "one lot in weeks: [5,20] below")?;
    let Ok(week) = PeriodLength::new(7) else {
        return println!(rt; "no such period");
    };
    let case = Case {
        days: days_of(rt.alloc(), window(5, 20))?,
        calendar: Calendar::Weeks,
        asked: window(1, 1),
    };
    let mut words = [5, 20];
    let mut house = Period::new(WordStore::new(&mut words), week);
    ask(rt, score, &mut house, &case)?;
    let left = left_below(rt.alloc(), &case)?;
    tell_shown(rt, score, "then below", &WordStore::new(&mut words), left)
}

fn on_a_mask(rt: &HostRuntime, score: &mut Score) -> io::Result<()> {
    println!(rt; "one lot on a mask with a gap: mask 104")?;
    // gaps do not count, so every day between two set bits is a day below
    let bits = days_of_mask(rt.alloc(), 104)?;
    let case = Case {
        days: days_of(rt.alloc(), Calendar::Plain.shown_window(&bits))?,
        calendar: Calendar::Plain,
        asked: window(4, 6),
    };
    let mut masks = [104];
    ask(rt, score, &mut MaskStore::new(&mut masks), &case)?;
    let planner = Answer::Number(masks[0]);
    let second = Answer::Number(mask_of(left_below(rt.alloc(), &case)?));
    tell(rt, score, "then the mask", &planner, &second)
}

// What a store shows and plans, before and after its ends are moved to those asked for.
fn ask<S: WindowStore>(
    rt: &HostRuntime,
    score: &mut Score,
    house: &mut S,
    case: &Case,
) -> io::Result<()> {
    let seen = case.calendar.shown_window(&case.days);
    tell_shown(rt, score, "shown", house, seen)?;
    tell_plan(rt, score, house, seen)?;
    let Window { low, high } = case.asked;
    // A refusal, which no case expects, would show in the next line.
    let _ = house.raise(0, low);
    let _ = house.lower(0, high);
    let asked = format!(in rt.alloc(); "raised to {low} and lowered to {high}")?;
    tell_shown(rt, score, &asked, house, case.asked)
}

fn tell_shown<S: WindowStore>(
    rt: &HostRuntime,
    score: &mut Score,
    asked: &str,
    house: &S,
    seen: Window,
) -> io::Result<()> {
    let planner = planner::shown(rt.alloc(), house)?;
    let second = Answer::Windows(one_window(rt.alloc(), seen)?);
    tell(rt, score, asked, &planner, &second)
}

fn tell_plan<S: WindowStore>(
    rt: &HostRuntime,
    score: &mut Score,
    house: &S,
    seen: Window,
) -> io::Result<()> {
    let planner = planner::planned_on(rt.alloc(), house, &[])?;
    let second = plans::planned(rt.alloc(), &one_window(rt.alloc(), seen)?)?;
    tell(rt, score, "plan", &planner, &second)
}

// From the first to the last day below that is shown as one of those asked for.
fn left_below(alloc: Global, case: &Case) -> Result<Window, AllocError> {
    let left = case.calendar.days_shown_in(alloc, &case.days, case.asked)?;
    Ok(Calendar::Plain.shown_window(&left))
}

fn one_window(alloc: Global, window: Window) -> Result<Small, AllocError> {
    Small::new(alloc, &[(window.low, window.high)], &[])
}
