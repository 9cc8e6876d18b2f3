// Rows of tables: parts in one text with ` => ` between them.
use std::test::Fail;

/// The first part of a row, and the others.
pub fn first(row: &str) -> Result<(&str, &str), Fail> {
    match row.split_once(" => ") {
        Some(parts) => Ok(parts),
        None => Err(Fail::from("the row has too few parts")),
    }
}
