use crate::told::told;
use std::alloc::Global;
use std::test::Fail;
use vkg_index::{grouped_lent, key_of_lent};
use vkg_schema::read_schema;
use vkg_tables::{Database, TableRows};

// A table of which the first two rows agree on the second column, and the third has NULL there.
fn table(alloc: Global) -> Result<Database, Fail> {
    let schema = read_schema(alloc, b"CREATE TABLE t (a VARCHAR(5), b INTEGER);")?;
    let mut database = Database::new(alloc, &schema)?;
    if database.schema().tables().is_empty() {
        return Err(Fail::new("no table"));
    }
    database.load_table(alloc, 0, b"a,b\nx,1\ny,1\nx,\\N\n")?;
    Ok(database)
}

#[test]
fn rows_of_a_table_are_grouped_by_their_keys(rt: HostRuntime) -> Result<(), Fail> {
    let database = table(rt.alloc())?;
    let index = grouped_lent(rt.alloc(), &[1], &database.table(0))?;
    let groups = &[("1\0", 2), ("\0", 0), ("2\0", 0)];
    for &(key, expected) in groups {
        let found = match index.get(key) {
            None => 0,
            Some(numbers) => numbers.len(),
        };
        assert!(rt; found == expected, "{key}");
    }
    Ok(())
}

// The key of each row by the second and the first column, or `none`.
fn keys(alloc: Global, rows: &TableRows<'_>) -> Result<String, Fail> {
    let mut all = String::new(alloc);
    for i in 0..rows.len() {
        match key_of_lent(alloc, &[1, 0], &rows.row(i))? {
            None => all.push_str("none")?,
            Some(key) => all.push_str(key.as_str())?,
        }
        all.push(';')?;
    }
    Ok(all)
}

#[test]
fn rows_of_a_table_have_keys(rt: HostRuntime) -> Result<(), Fail> {
    let database = table(rt.alloc())?;
    let found = keys(rt.alloc(), &database.table(0));
    told(&rt, "keys", found, "1\0x\0;1\0y\0;none;")
}
