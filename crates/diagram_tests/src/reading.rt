//! Tables that are read from documents: each rule that a row may break, and the table of many rows.

ghost use Rattle.std.specs.Prelude.{◌≡◌, ◌+◌, ◌<◌, length, IfOk};

use crate::texts::check_text;
use conditions::{Table, TableStop, first_bad_row, read_table};
use doc_tree::{Doc, NoMemory, Row, from_json};
use std::alloc::Global;
use std::process::Abort;
use std::test::Fail;

/// Why a document is no table of three features. Where there is no document, that is told as want of memory.
fn stop(alloc: Global, json: &str) -> Option<TableStop> {
    match from_json(alloc, json.as_bytes()) {
        Ok(doc) => read_table(alloc, &doc, 3).err(),
        Err(_) => Some(TableStop::NoMemory),
    }
}

const fn not_triple(row: u32) -> Option<TableStop> {
    Some(TableStop::NotTriple(row))
}

const fn not_ordered(row: u32) -> Option<TableStop> {
    Some(TableStop::NotOrdered(row))
}

const fn not_reduced(row: u32) -> Option<TableStop> {
    Some(TableStop::NotReduced(row))
}

#[test]
fn what_is_no_list_of_three_numbers_is_told_with_its_row(rt: HostRuntime) {
    let alloc = rt.alloc();
    assert_eq!(rt;
        (
            stop(alloc, "[[0,0,1],[1,0]]"),
            stop(alloc, "[[0,0,1,1]]"),
            stop(alloc, "[[-1,0,1]]"),
            stop(alloc, "[[0,0,4294967296]]"),
            stop(alloc, "[[3,0,1]]"),
        ),
        (
            not_triple(1),
            not_triple(0),
            not_triple(0),
            not_triple(0),
            not_triple(0),
        )
    );
    assert_eq!(rt;
        (
            stop(alloc, "[]"),
            stop(alloc, "\"table\""),
            stop(alloc, "[[0,0,1],\"table\"]"),
            stop(alloc, "[[0,false,1]]"),
        ),
        (None, not_triple(0), not_triple(1), not_triple(0))
    );
}

#[test]
fn each_broken_rule_is_told_with_its_row(rt: HostRuntime) {
    let alloc = rt.alloc();
    assert_eq!(rt;
        (
            stop(alloc, "[[0,0,2]]"),
            stop(alloc, "[[0,4294967295,1]]"),
            stop(alloc, "[[2,0,1],[2,0,2]]"),
            stop(alloc, "[[1,0,1],[2,2,1]]"),
        ),
        (
            not_ordered(0),
            not_ordered(0),
            not_ordered(1),
            not_ordered(1),
        )
    );
    assert_eq!(rt;
        (
            stop(alloc, "[[2,0,1],[0,2,2]]"),
            stop(alloc, "[[2,0,1],[1,0,2],[2,0,1]]"),
            stop(alloc, "[[0,1,1],[0,0]]"),
        ),
        (not_reduced(1), Some(TableStop::Repeated(2)), not_reduced(0))
    );
}

/// The truth table of an identifier over two features, as a number whose lowest bit is the world of no feature.
fn truths(table: &Table, id: u32) -> u8
    requires there { id < length table.now.rows + 2 }
    requires two { table.now.features ≡ 2 }
{
    let none = u8::from(table.at(id, &[false, false]));
    let last = u8::from(table.at(id, &[false, true]));
    let first = u8::from(table.at(id, &[true, false]));
    let both = u8::from(table.at(id, &[true, true]));
    none | last << 1 | first << 2 | both << 3
}

/// Tests the truth tables of the constants and of three rows.
fn check_truths(rt: &impl Abort, table: &Table)
    requires { table.now.features ≡ 2 }
{
    assert!(rt; table.rows().len() == 3);
    assert_eq!(rt;
        (
            truths(table, 0),
            truths(table, 1),
            truths(table, 2),
            truths(table, 3),
            truths(table, 4),
        ),
        (0b0000, 0b1111, 0b1010, 0b1110, 0b1011)
    );
}

/// The table of two features that a document is.
fn read(alloc: Global, json: &str) -> Result<Table, Fail>
    ensures { IfOk result (λ table. table.features ≡ 2) }
{
    let doc = from_json(alloc, json.as_bytes())?;
    Ok(read_table(alloc, &doc, 2)?)
}

#[test]
fn a_table_has_the_rows_of_its_document(rt: HostRuntime) -> Result<(), Fail> {
    let table = read(rt.alloc(), "[[1,0,1],[0,2,1],[0,1,2]]")?;
    check_truths(&rt, &table);
    check_text(&rt, rt.alloc(), &table, &[], "1 0 1, 0 2 1, 0 1 2, ")
}

/// The first bad row of a list in a table of so many features.
fn bad(alloc: Global, json: &str, features: usize) -> Result<Option<u32>, Fail> {
    let doc = from_json(alloc, json.as_bytes())?;
    Ok(first_bad_row(alloc, features, doc.as_list().ok_or("list")?)?)
}

#[test]
fn the_first_bad_row_is_found_for_any_number_of_features(rt: HostRuntime) -> Result<(), Fail> {
    let alloc = rt.alloc();
    let rows = "[[70000,0,1],[69999,0,2],[69999,2,2]]";
    assert_eq!(rt;
        (
            bad(alloc, rows, 70_001)?,
            bad(alloc, "[[70000,0,1],[69999,0,2]]", 70_001)?,
            bad(alloc, rows, 70_000)?,
            bad(alloc, "[]", 0)?,
        ),
        (Some(2), None, Some(0), None)
    );
    Ok(())
}

/// Adds the document of a row.
fn add(
    alloc: Global,
    items: &mut Vec<Doc>,
    variable: i64,
    low: i64,
    high: i64,
) -> Result<(), NoMemory> {
    let mut row = Vec::new(alloc);
    row.push(Doc::Number(variable))?;
    row.push(Doc::Number(low))?;
    row.push(Doc::Number(high))?;
    items.push(Doc::List(Row::of(row)))?;
    Ok(())
}

/// Adds a thousand rows of two constants, and rows over pairs of them, 100,900 in all.
fn add_many(alloc: Global, items: &mut Vec<Doc>) -> Result<(), NoMemory> {
    for variable in 1..1001 {
        add(alloc, items, variable, 0, 1)?;
    }
    for low in 2..102 {
        for high in 2..1002 {
            if low != high {
                add(alloc, items, 0, low, high)?;
            }
        }
    }
    Ok(())
}

/// Those rows, and maybe a row of them once more.
fn many_rows(alloc: Global, again: bool) -> Result<Vec<Doc>, NoMemory> {
    let mut items = Vec::new(alloc);
    add_many(alloc, &mut items)?;
    if again {
        add(alloc, &mut items, 0, 2, 3)?;
    }
    Ok(items)
}

/// The first bad row, how many rows the table has that is read, and why none is.
fn of_many(
    alloc: Global,
    items: Vec<Doc>,
) -> Result<(Option<u32>, Result<usize, TableStop>), Fail> {
    let bad = first_bad_row(alloc, 1001, items.as_slice());
    let doc = Doc::List(Row::of(items));
    let read = read_table(alloc, &doc, 1001).map(|table| table.rows().len());
    Ok((bad?, read))
}

#[test]
fn a_table_of_many_rows_is_read(rt: HostRuntime) -> Result<(), Fail> {
    let alloc = rt.alloc();
    assert_eq!(rt;
        (
            of_many(alloc, many_rows(alloc, false)?)?,
            of_many(alloc, many_rows(alloc, true)?)?,
        ),
        (
            (None, Ok(100_900)),
            (Some(100_900), Err(TableStop::Repeated(100_900))),
        )
    );
    Ok(())
}
