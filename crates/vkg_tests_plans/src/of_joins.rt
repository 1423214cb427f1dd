use crate::made::{Made, MadeExpr, column, same, scans};
use std::alloc::Global;
use std::process::Abort;
use std::test::Fail;
use vkg_base::{Box, Memory};
use vkg_engine::run_uncounted;
use vkg_expr::{Expr, Shared};
use vkg_plan::{CheckedPlan, Plan, well_typed};
use vkg_schema::read_schema;
use vkg_tables::Database;

const ROWS: usize = 100_000;

// A table whose rows are numbered, and a 1 behind each number.
fn numbered(alloc: Global) -> Result<String, Memory> {
    let mut text = String::new(alloc);
    text.push_str("k,g\n")?;
    for i in 0..ROWS {
        text.push_str(&format!(in alloc; "{i},1\n")?)?;
    }
    Ok(text)
}

fn database(rt: &impl Abort, alloc: Global, text: &str) -> Database {
    let schema = read_schema(alloc, b"CREATE TABLE w (k INTEGER, g INTEGER);").expect(
        rt, "a schema",
    );
    let mut database = Database::new(alloc, &schema).expect(rt, "a database");
    assert!(rt; database.schema().tables().len() == 1);
    database
        .load_table(alloc, 0, text.as_bytes())
        .expect(rt, "rows");
    database
}

// The IRI whose text is that of the column's number.
fn iri(alloc: Global, at: usize) -> MadeExpr {
    let e = column(alloc, at)?;
    let e = Shared::new(alloc, Expr::Lex(e))?;
    Box::new(alloc, Expr::MakeIri(e))
}

fn same_iris(alloc: Global, a: usize, b: usize) -> MadeExpr {
    let a = iri(alloc, a)?;
    let b = iri(alloc, b)?;
    Box::new(alloc, Expr::Same(a, b))
}

fn joined(alloc: Global, c: MadeExpr) -> Made {
    let ps = scans(alloc, 0, 0)?;
    let c = c?;
    Box::new(alloc, Plan::Join(ps, c.into_inner()))
}

// How many rows a plan has, if it is well typed.
fn count(alloc: Global, database: &Database, plan: Made) -> Result<Option<usize>, Memory> {
    let plan = plan?.into_inner();
    if !well_typed(alloc, &plan, database.schema())? {
        return Ok(None);
    }
    let plan = CheckedPlan::new(plan, database.schema());
    Ok(Some(run_uncounted(alloc, &plan, database)?.len()))
}

#[test]
fn a_join_looks_at_partners_alone(rt: HostRuntime) -> Result<(), Fail> {
    let alloc = rt.alloc();
    let text = numbered(alloc)?;
    let database = database(&rt, alloc, text.as_str());
    let by_column = count(alloc, &database, joined(alloc, same(alloc, 0, 2)))?;
    assert_eq!(rt; by_column, Some(ROWS));
    let by_iri = count(alloc, &database, joined(alloc, same_iris(alloc, 0, 2)))?;
    assert_eq!(rt; by_iri, Some(ROWS));
    Ok(())
}
