// Lists of calls on a closed sheet, and the plans that they leave.
ghost use Rattle.std.specs.Prelude.{◌≡◌, ◌<◌, [], ◌∷◌, length, IfOk};
ghost use Rattle.store.specs.Checks.{Checked, refuse};
ghost use Rattle.store.specs.Windows.{Onward};
ghost use Rattle.plan.specs.Calls.{Makes, PlansLeft, RunsInto, accepted, state};
ghost use Rattle.sheet.specs.Books.{sheet_of};
ghost use Rattle.sheet.specs.declared.fault.SheetFault.TheVariants.{ShortAnswer};

use crate::calls::{Call, Outcome};
use crate::planning::plan;
use crate::settle::settle;
use sheet::asks::{at_least, at_most, not_after, not_before};
use sheet::book::Book;
use sheet::fault::SheetFault;
use sheet::slip::Closed;
use store::store::WindowStore;

// Makes one call after the other, each on what the one before left, and writes what each answered over the first
// outcomes; where there are fewer outcomes than calls, nothing is called. Whatever the calls and their answers, the
// plans that are left are just those that meet every ask which was accepted.
// Slip, store, book, answer and working words are parameters of their own, as those of settle and plan.
pub fn make_calls<S: WindowStore>(
    slip: &Closed,
    store: &mut S,
    book: &mut Book,
    calls: &[Call],
    outcomes: &mut [Outcome],
    answer: &mut [u32],
    work: &mut [u32],
) -> Result<(), SheetFault>
    ensures runs { Checked (refuse ShortAnswer (length outcomes.old < length calls.now) ∷ []) result (λ _.
        RunsInto slip.now.lots slip.now.rules calls.now (state (S.WindowStore.windows store.old)
        book.old answer.old work.old) outcomes.old outcomes.new (state (S.WindowStore.windows
        store.new) book.new answer.new work.new)) ((store.new ≡ store.old) × (book.new ≡ book.old) ×
        (outcomes.new ≡ outcomes.old) × (answer.new ≡ answer.old) × (work.new ≡ work.old)) }
    ensures plans { IfOk result (λ _. PlansLeft (accepted calls.now outcomes.new) (sheet_of
        (S.WindowStore.windows store.old) book.old) (sheet_of (S.WindowStore.windows store.new)
        book.new)) }
    ensures reach { Onward (S.WindowStore.reached store.old) (S.WindowStore.reached store.new)
        (S.WindowStore.windows store.new) }
    ensures memory { S.WindowStore.memory store.new ≡ S.WindowStore.reached store.old
        (S.WindowStore.windows store.new) }
    ensures framed { S.WindowStore.frame store.new ≡ S.WindowStore.frame store.old }
{
    if outcomes.len() < calls.len() {
        return Err(SheetFault::ShortAnswer);
    }
    for (number, call) in calls.iter().enumerate() {
        outcomes[number] = make_call(slip, store, book, *call, answer, work);
    }
    Ok(())
}

// Makes one call. A `match`, since a list of calls is plain values that a house hands over, and of no other kinds.
pub fn make_call<S: WindowStore>(
    slip: &Closed,
    store: &mut S,
    book: &mut Book,
    call: Call,
    answer: &mut [u32],
    work: &mut [u32],
) -> Outcome
    ensures makes { Makes slip.now.lots slip.now.rules call
        (state (S.WindowStore.windows store.old) book.old answer.old work.old) result
        (state (S.WindowStore.windows store.new) book.new answer.new work.new) }
    ensures reach { Onward (S.WindowStore.reached store.old) (S.WindowStore.reached store.new)
        (S.WindowStore.windows store.new) }
    ensures memory { S.WindowStore.memory store.new ≡ S.WindowStore.reached store.old
        (S.WindowStore.windows store.new) }
    ensures framed { S.WindowStore.frame store.new ≡ S.WindowStore.frame store.old }
{
    match call {
        Call::NotBefore(lot, day) => Outcome::Asked(not_before(slip, store, book, lot, day)),
        Call::NotAfter(lot, day) => Outcome::Asked(not_after(slip, store, book, lot, day)),
        Call::AtLeast(rule, number) => Outcome::Asked(at_least(slip, book, rule, number)),
        Call::AtMost(rule, number) => Outcome::Asked(at_most(slip, book, rule, number)),
        Call::Settle => Outcome::Settled(settle(slip, store, book, work)),
        Call::Plan => Outcome::Planned(plan(slip, store, book, answer, work)),
    }
}
