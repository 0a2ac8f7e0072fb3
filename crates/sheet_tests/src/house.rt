// What the tests share: reading a rule of a book.
use rules::row::Row;
use sheet::book::Book;

// The rule with a number as plain numbers; absent where there is no such rule.
pub fn row(book: &Book, number: usize) -> Option<Row> {
    let rule = book.rule(number)?;
    Some(Row::from(rule))
}
