// Answers and small sheets in plain words.
use crate::answer::Answer;
use crate::small::Small;
use nvalue::stretch::Stretch;
use rules::row::Row;
use std::fmt;
use store::window::Window;

impl fmt::Display for Answer {
    fn fmt<W: fmt::Write>(&self, f: &mut fmt::Formatter<W>) -> fmt::Result {
        match self {
            Answer::Windows(sheet) => {
                write_windows(f, &sheet.windows)?;
                write_counts(f, &sheet.rules)
            }
            Answer::Plan(days, count) => write!(f, "{}, count {count}", Listed { days }),
            Answer::Days(days) => write!(f, "{}", Listed { days }),
            Answer::Number(number) => write!(f, "{number}"),
            Answer::Holds(true) => f.write_str("yes"),
            Answer::Holds(false) => f.write_str("no"),
            Answer::Refused(number) => write!(f, "refused {number}"),
        }
    }
}

// A sheet that is asked about: its windows, and its rules in full.
impl fmt::Display for Small {
    fn fmt<W: fmt::Write>(&self, f: &mut fmt::Formatter<W>) -> fmt::Result {
        write_windows(f, &self.windows)?;
        for rule in self.rules.iter() {
            write_rule(f, rule)?;
        }
        Ok(())
    }
}

// Days with spaces between them.
#[derive(Clone, Copy)]
pub struct Listed<'a> {
    pub days: &'a [u32],
}

impl fmt::Display for Listed<'_> {
    fn fmt<W: fmt::Write>(&self, f: &mut fmt::Formatter<W>) -> fmt::Result {
        let Some((first, rest)) = self.days.split_first() else {
            return f.write_str("no day");
        };
        write!(f, "{first}")?;
        for day in rest {
            write!(f, " {day}")?;
        }
        Ok(())
    }
}

fn write_windows<W: fmt::Write>(f: &mut fmt::Formatter<W>, windows: &[Window]) -> fmt::Result {
    let Some((first, rest)) = windows.split_first() else {
        return f.write_str("no window");
    };
    write!(f, "[{},{}]", first.low, first.high)?;
    for window in rest {
        write!(f, " [{},{}]", window.low, window.high)?;
    }
    Ok(())
}

fn write_rule<W: fmt::Write>(f: &mut fmt::Formatter<W>, rule: &Row) -> fmt::Result {
    let Row {
        stretch,
        floor,
        ceiling,
    } = *rule;
    let Stretch { first, length } = stretch;
    let last = first.saturating_add(length).saturating_sub(1);
    match length {
        1 => write!(f, "; lot {first} on {floor} to {ceiling} days"),
        _ => write!(f, "; lots {first}-{last} on {floor} to {ceiling} days"),
    }
}

fn write_counts<W: fmt::Write>(f: &mut fmt::Formatter<W>, rules: &[Row]) -> fmt::Result {
    let Some((first, rest)) = rules.split_first() else {
        return Ok(());
    };
    write!(f, ", count [{},{}]", first.floor, first.ceiling)?;
    for rule in rest {
        write!(f, " [{},{}]", rule.floor, rule.ceiling)?;
    }
    Ok(())
}
