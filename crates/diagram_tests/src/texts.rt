//! Tables as texts.

use conditions::Table;
use std::alloc::{AllocError, Global};
use std::process::Abort;
use std::test::Fail;

/// Adds the numbers of each row with a comma behind them, and then the identifiers.
fn add(alloc: Global, text: &mut String, table: &Table, ids: &[u32]) -> Result<(), AllocError> {
    for (variable, low, high) in table.rows() {
        text.push_str(&format!(in alloc; "{variable} {low} {high}, ")?)?;
    }
    for id in ids {
        text.push_str(&format!(in alloc; "{id} ")?)?;
    }
    Ok(())
}

/// Tests the numbers of each row, with a comma behind them, and then the identifiers.
pub fn check_text(
    rt: &impl Abort,
    alloc: Global,
    table: &Table,
    ids: &[u32],
    wanted: &str,
) -> Result<(), Fail> {
    let mut text = String::new(alloc);
    add(alloc, &mut text, table, ids)?;
    assert_eq!(rt; text.as_str(), wanted);
    Ok(())
}
