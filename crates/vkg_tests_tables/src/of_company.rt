use crate::fields::field;
use crate::told::told;
use std::alloc::Global;
use std::test::Fail;
use vkg_company::{count_of, generate};
use vkg_tables::TableRows;

/// The rows as a table's file has them.
fn file(alloc: Global, rows: &TableRows<'_>) -> Result<String, Fail> {
    let mut out = String::new(alloc);
    for i in 0..rows.len() {
        let row = rows.row(i);
        for k in 0..row.len() {
            out.push_str(field(&row.cell(k).to_cell(alloc)?))?;
            out.push_str(",")?;
        }
        out.push_str("\n")?;
    }
    Ok(out)
}

#[test]
fn one_employee_works_in_one_department(rt: HostRuntime) -> Result<(), Fail> {
    let db = generate(rt.alloc(), 1)?;
    told(
        &rt,
        "departments",
        file(rt.alloc(), &db.table(0)),
        "1,D1,\n",
    )?;
    told(
        &rt,
        "employees",
        file(rt.alloc(), &db.table(1)),
        "1,N1,1,\n",
    )?;
    Ok(())
}

#[test]
fn a_cell_stands_at_its_row_and_column(rt: HostRuntime) -> Result<(), Fail> {
    let db = generate(rt.alloc(), 1)?;
    assert!(rt; 0 < db.rows(1));
    assert!(rt; 1 < db.columns(1));
    let cell = db.cell(1, 0, 1)?;
    assert!(rt; field(&cell) == "N1");
    Ok(())
}

#[test]
fn every_fourth_employee_has_no_department(rt: HostRuntime) -> Result<(), Fail> {
    let db = generate(rt.alloc(), 10)?;
    told(
        &rt,
        "departments",
        file(rt.alloc(), &db.table(0)),
        "1,D1,\n2,D2,\n",
    )?;
    told(
        &rt,
        "employees",
        file(rt.alloc(), &db.table(1)),
        "1,N1,2,\n2,N2,1,\n3,N3,2,\n4,N4,\\N,\n5,N5,2,\n6,N6,1,\n7,N0,2,\n8,N1,\\N,\n9,N2,2,\n10,N3,1,\n",
    )?;
    Ok(())
}

#[test]
fn every_fifth_department_has_no_title(rt: HostRuntime) -> Result<(), Fail> {
    let db = generate(rt.alloc(), 40)?;
    told(
        &rt,
        "departments",
        file(rt.alloc(), &db.table(0)),
        "1,D1,\n2,D2,\n3,D3,\n4,D4,\n5,\\N,\n",
    )?;
    Ok(())
}

#[test]
fn counts_are_digits_alone(rt: HostRuntime) {
    let counts = &[("1", 1), ("10", 10), ("99999", 99_999), ("100000", 100_000)];
    for &(word, count) in counts {
        assert!(rt; count_of(word) == Some(count), "{word}");
    }
    let others = &[
        "",
        "0",
        "007",
        "+5",
        "-5",
        "5 ",
        "1e3",
        "100001",
        "18446744073709551617",
        "five",
    ];
    for &word in others {
        assert!(rt; count_of(word).is_none(), "{word}");
    }
}
