// Windows, rules, outcomes and refusals in plain words.
use nvalue::stretch::Stretch;
use plan::calls::Outcome;
use rules::row::Row;
use sheet::book::Book;
use std::io;
use store::store::{WindowStore, read_window};

// Lot by lot, as a store answers: no store has a text of its own. The other checklist has the same lines, since two
// programs share no library for so few.
pub fn show_windows<S: WindowStore>(rt: &HostRuntime, house: &S) -> io::Result<()> {
    for lot in 0..house.lots() {
        if let Some(window) = read_window(house, lot) {
            println!(rt; "  lot {lot}: {window}")?;
        }
    }
    Ok(())
}

// A sentence of this program alone, so no `Display` of a library.
pub fn show_rules(rt: &HostRuntime, book: &Book) -> io::Result<()> {
    for (number, row) in book.rows().iter().enumerate() {
        let Row {
            stretch: Stretch { first, length },
            floor,
            ceiling,
        } = *row;
        println!(rt;
            "  rule {number}: {length} lots from lot {first} on take {floor} to {ceiling} days"
        )?;
    }
    Ok(())
}

// A sentence of this program alone, so no `Display` of a library.
pub fn show_days(rt: &HostRuntime, days: &[u32]) -> io::Result<()> {
    for (lot, day) in days.iter().enumerate() {
        println!(rt; "    lot {lot} on {day}")?;
    }
    Ok(())
}

// A sentence of this program alone, so no `Display` of a library.
pub fn show_outcome(rt: &HostRuntime, outcome: Outcome) -> io::Result<()> {
    match outcome {
        Outcome::Asked(Ok(())) => println!(rt; "  accepted"),
        Outcome::Settled(Ok(())) => println!(rt; "  settled"),
        Outcome::Planned(Ok(count)) => println!(rt; "  planned, days in all: {count}"),
        Outcome::Asked(Err(fault)) | Outcome::Settled(Err(fault)) | Outcome::Planned(Err(fault)) =>
            { println!(rt; "  {fault}") }
    }
}
