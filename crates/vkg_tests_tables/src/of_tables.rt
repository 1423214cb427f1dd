// What a database is behind an error; the faults of files, keys and references are cases of `vkg_cases`.
use std::test::Fail;
use vkg_cells::Cell;
use vkg_schema::read_schema;
use vkg_tables::{Database, TableError};

const COMPANY: &str =
    "CREATE TABLE dept (id INTEGER PRIMARY KEY, title VARCHAR(20)); CREATE TABLE emp (id INTEGER PRIMARY KEY, name VARCHAR(20), dept INTEGER REFERENCES dept);";

const DEPT: &str = "id,title\n1,Ore\n2,\\N\n";

// The answers of the checks, in the order in which a database is loaded, as the numbers of the fault.
type Answer = (u8, usize, usize, usize);

const ACCEPTED: Answer = (0, 0, 0, 0);

fn answer(outcome: Result<(), TableError>) -> Answer {
    match outcome {
        Ok(()) => ACCEPTED,
        Err(TableError::Fault(fault)) => (fault.check, fault.table, fault.row, fault.column),
        Err(TableError::Memory) => (255, 0, 0, 0),
    }
}

#[test]
fn an_error_leaves_the_rows(rt: HostRuntime) -> Result<(), Fail> {
    let schema = read_schema(rt.alloc(), COMPANY.as_bytes()).expect(&rt, "a schema");
    let mut database = Database::new(rt.alloc(), &schema).expect(&rt, "a database");
    assert!(rt; 0 < database.schema().tables().len());
    assert!(rt; answer(database.load_table(rt.alloc(), 0, DEPT.as_bytes())) == ACCEPTED);
    assert!(rt; 0 < database.schema().tables().len());
    let refused = answer(database.load_table(rt.alloc(), 0, b"id,title\n3,x\ny,x\n"));
    assert!(rt; refused == (6, 1, 2, 1));
    assert!(rt; database.rows(0) == 2);
    let rows = database.table(0);
    assert!(rt; 1 < rows.len());
    let title = rows.row(1).cell(1).to_cell(rt.alloc())?;
    assert!(rt; matches!(&title, Cell::Null));
    Ok(())
}
