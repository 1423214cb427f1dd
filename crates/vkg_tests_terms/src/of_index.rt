use std::alloc::Global;
use std::test::Fail;
use vkg_base::{Items, Memory, Text};
use vkg_cells::Cell;
use vkg_hash::Seed;
use vkg_index::{grouped, key_of, text_of_row};
use vkg_terms::Term;

fn pair(alloc: Global, first: Cell, second: Cell) -> Result<Items<Cell>, Memory> {
    let mut row = Items::new(alloc);
    row.push(first)?;
    row.push(second)?;
    Ok(row)
}

// Rows of which the first two agree on the first column, and the third has NULL there.
fn rows(alloc: Global) -> Result<Items<Items<Cell>>, Memory> {
    let mut rows = Items::new(alloc);
    let one = Cell::Int(Text::new(alloc, "1")?);
    rows.push(pair(alloc, one, Cell::Text(Text::new(alloc, "a")?))?)?;
    let decimal = Cell::Dec(Text::new(alloc, "1")?);
    rows.push(pair(alloc, decimal, Cell::Null)?)?;
    rows.push(pair(alloc, Cell::Null, Cell::Bool(true))?)?;
    let iri = Term::Iri(Text::new(alloc, "http://e/")?);
    rows.push(pair(alloc, Cell::Term(iri), Cell::Bool(true))?)?;
    Ok(rows)
}

#[test]
fn rows_of_one_key_are_one_group(rt: HostRuntime) -> Result<(), Fail> {
    let rows = rows(rt.alloc())?;
    let index = grouped(rt.alloc(), Seed::new(0), &[0], rows.as_slice())?;
    let table = &[("1\0", 2), ("<http://e/>\0", 1), ("\0", 0), ("2\0", 0)];
    for &(key, expected) in table {
        let found = match index.get(key) {
            None => 0,
            Some(numbers) => numbers.len(),
        };
        assert!(rt; found == expected, "{key}");
    }
    Ok(())
}

// A row's key by the second and the first column, or `none`, and its text.
fn texts(alloc: Global, row: &[Cell]) -> Result<String, Memory> {
    let mut all = match key_of(alloc, &[1, 0], row)? {
        None => String::from_str(alloc, "none")?,
        Some(key) => key,
    };
    all.push(' ')?;
    all.push_str(text_of_row(alloc, row)?.as_str())?;
    Ok(all)
}

#[test]
fn rows_have_keys_and_texts(rt: HostRuntime) -> Result<(), Fail> {
    let rows = rows(rt.alloc())?;
    let mut all = String::new(rt.alloc());
    for row in rows.as_slice() {
        all.push_str(texts(rt.alloc(), row.as_slice())?.as_str())?;
        all.push(';')?;
    }
    assert_eq!(rt;
        all.as_str(),
        "a\01\0 1\0a\0;none 1\0\0;none \0true\0;true\0<http://e/>\0 <http://e/>\0true\0;"
    );
    Ok(())
}
