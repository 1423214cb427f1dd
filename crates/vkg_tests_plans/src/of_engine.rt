use crate::made::{Made, MadeExpr, anti_joined, left, null_test, same, scan, scans, select, told};
use std::alloc::Global;
use std::process::Abort;
use std::test::Fail;
use vkg_base::{Box, Items, Memory};
use vkg_cells::{Cell, SqlType, form};
use vkg_engine::{Rows, run_uncounted};
use vkg_expr::{Expr, Shared};
use vkg_plan::{CheckedPlan, Plan, well_typed};
use vkg_schema::read_schema;
use vkg_tables::Database;

const COMPANY: &str =
    "CREATE TABLE dept (id INTEGER PRIMARY KEY, title VARCHAR(20)); CREATE TABLE emp (id INTEGER PRIMARY KEY, name VARCHAR(20), dept INTEGER REFERENCES dept); CREATE TABLE pay (level DECIMAL(4, 1) PRIMARY KEY, amount INTEGER);";

const DEPT: &[u8] = b"id,title\n1,Ore\n2,\\N\n";

const EMP: &[u8] = b"id,name,dept\n7,Ann,1\n8,Bo,\\N\n9,Ann,1\n";

const PAY: &[u8] = b"level,amount\n1.0,10\n2.5,20\n";

fn company(rt: &impl Abort, alloc: Global) -> Database {
    let schema = read_schema(alloc, COMPANY.as_bytes()).expect(rt, "a schema");
    let mut database = Database::new(alloc, &schema).expect(rt, "a database");
    assert!(rt; database.schema().tables().len() == 3);
    database
        .load_table(alloc, 0, DEPT)
        .expect(rt, "departments");
    assert!(rt; database.schema().tables().len() == 3);
    database.load_table(alloc, 1, EMP).expect(rt, "employees");
    assert!(rt; database.schema().tables().len() == 3);
    database.load_table(alloc, 2, PAY).expect(rt, "pay");
    database
}

// The columns are the same, or one is NULL.
fn same_or_null(alloc: Global, a: usize, b: usize) -> MadeExpr {
    let mut choices = Items::new(alloc);
    choices.push(null_test(alloc, a)?.into_inner())?;
    choices.push(null_test(alloc, b)?.into_inner())?;
    choices.push(same(alloc, a, b)?.into_inner())?;
    Box::new(alloc, Expr::Or(choices))
}

// The columns are not the same; unknown where one is NULL.
fn not_same(alloc: Global, a: usize, b: usize) -> MadeExpr {
    let e = Shared::from_box(alloc, same(alloc, a, b)?)?;
    Box::new(alloc, Expr::Not(e))
}

fn project(alloc: Global, at: usize, p: Made) -> Made {
    let p = p?;
    let mut es = Items::new(alloc);
    es.push(Expr::Col(at))?;
    Box::new(alloc, Plan::Project(es, p))
}

fn distinct(alloc: Global, p: Made) -> Made {
    let p = p?;
    Box::new(alloc, Plan::Distinct(p))
}

fn join(alloc: Global, ps: Result<Items<Plan>, Memory>, c: MadeExpr) -> Made {
    let ps = ps?;
    let c = c?;
    Box::new(alloc, Plan::Join(ps, c.into_inner()))
}

fn three_scans(alloc: Global) -> Result<Items<Plan>, Memory> {
    let mut ps = scans(alloc, 0, 0)?;
    ps.push(Plan::Scan(1))?;
    Ok(ps)
}

// The first two by no columns, and the third by one of each.
fn links_to_both(alloc: Global) -> MadeExpr {
    let mut conjuncts = Items::new(alloc);
    conjuncts.push(same(alloc, 6, 0)?.into_inner())?;
    conjuncts.push(same(alloc, 2, 6)?.into_inner())?;
    Box::new(alloc, Expr::And(conjuncts))
}

fn union(alloc: Global) -> Made {
    let ps = scans(alloc, 0, 0)?;
    Box::new(alloc, Plan::UnionAll(ps))
}

fn empty(alloc: Global) -> Made {
    let kinds = Items::from_slice(alloc, &[SqlType::Int])?;
    Box::new(alloc, Plan::Empty(kinds))
}

// A left join of two tables.
fn left_of(alloc: Global, p: usize, q: usize, c: MadeExpr) -> Made {
    left(alloc, scan(alloc, p), scan(alloc, q), c)
}

// The rows of a table without a partner in another.
fn anti_of(alloc: Global, p: usize, q: usize, c: MadeExpr) -> Made {
    anti_joined(alloc, scan(alloc, p), scan(alloc, q), c)
}

fn made(alloc: Global, node: &str) -> Made {
    match node {
        "Unit" => Box::new(alloc, Plan::Unit),
        "Empty" => empty(alloc),
        "Scan" => scan(alloc, 0),
        "Select" => select(alloc, null_test(alloc, 2), scan(alloc, 1)),
        "Select of unknown" => select(alloc, same(alloc, 2, 2), scan(alloc, 1)),
        "Project" => project(alloc, 1, scan(alloc, 1)),
        "Join" => join(alloc, scans(alloc, 1, 0), same(alloc, 2, 3)),
        "Join of NULL and NULL" => join(alloc, scans(alloc, 0, 0), same(alloc, 3, 1)),
        "Join of Int and Dec" => join(alloc, scans(alloc, 0, 2), same(alloc, 0, 2)),
        "Join of three" => join(alloc, three_scans(alloc), links_to_both(alloc)),
        "Left" => left_of(alloc, 1, 0, same(alloc, 2, 3)),
        "Left or NULL" => left_of(alloc, 1, 0, same_or_null(alloc, 2, 3)),
        "Left or NULL without NULL" => left_of(alloc, 0, 2, same_or_null(alloc, 0, 2)),
        "AntiJoin" => anti_of(alloc, 1, 0, same(alloc, 2, 3)),
        "AntiJoin by others" => anti_of(alloc, 1, 0, not_same(alloc, 2, 3)),
        "AntiJoin or NULL" => anti_of(alloc, 1, 0, same_or_null(alloc, 2, 3)),
        "AntiJoin or NULL without NULL" => anti_of(alloc, 0, 2, same_or_null(alloc, 0, 2)),
        "UnionAll" => union(alloc),
        _ => distinct(alloc, union(alloc)),
    }
}

// The cells of a row, with a comma between each two.
fn line(alloc: Global, row: &[Cell]) -> Result<String, Memory> {
    let mut line = String::new(alloc);
    for (i, cell) in row.iter().enumerate() {
        if i > 0 {
            line.push(',')?;
        }
        line.push_str(form(cell).unwrap_or("NULL"))?;
    }
    Ok(line)
}

// The rows in the order of their lines, with a semicolon behind each.
fn lines(rt: &impl Abort, alloc: Global, rows: &Rows) -> Result<String, Memory> {
    let mut lines = Vec::new(alloc);
    for i in 0..rows.len() {
        lines.push(line(alloc, rows.row(i))?)?;
    }
    lines.sort().expect(rt, "sorted");
    let mut all = String::new(alloc);
    for line in &lines {
        all.push_str(line.as_str())?;
        all.push(';')?;
    }
    Ok(all)
}

// The rows of a plan, if it is well typed.
fn rows_of(alloc: Global, database: &Database, plan: Plan) -> Result<Option<Rows>, Memory> {
    if !well_typed(alloc, &plan, database.schema())? {
        return Ok(None);
    }
    let plan = CheckedPlan::new(plan, database.schema());
    Ok(Some(run_uncounted(alloc, &plan, database)?))
}

// The lines of a plan's rows; of an ill-typed one a text that no rows have.
fn shown(rt: &impl Abort, alloc: Global, database: &Database, node: &str) -> Result<String, Fail> {
    match rows_of(alloc, database, made(alloc, node)?.into_inner())? {
        None => Ok(String::from_str(alloc, "ill typed")?),
        Some(rows) => Ok(lines(rt, alloc, &rows)?),
    }
}

#[test]
fn each_node_has_its_rows(rt: HostRuntime) -> Result<(), Fail> {
    let table = &[
        ("Unit", ";"),
        ("Empty", ""),
        ("Scan", "1,Ore;2,NULL;"),
        ("Select", "8,Bo,NULL;"),
        ("Select of unknown", "7,Ann,1;9,Ann,1;"),
        ("Project", "Ann;Ann;Bo;"),
        ("Join", "7,Ann,1,1,Ore;9,Ann,1,1,Ore;"),
        ("Join of NULL and NULL", "1,Ore,1,Ore;"),
        ("Join of Int and Dec", "1,Ore,1,10;"),
        ("Join of three", "1,Ore,1,Ore,7,Ann,1;1,Ore,1,Ore,9,Ann,1;"),
        ("Left", "7,Ann,1,1,Ore;8,Bo,NULL,NULL,NULL;9,Ann,1,1,Ore;"),
        (
            "Left or NULL",
            "7,Ann,1,1,Ore;8,Bo,NULL,1,Ore;8,Bo,NULL,2,NULL;9,Ann,1,1,Ore;",
        ),
        ("Left or NULL without NULL", "1,Ore,1,10;2,NULL,NULL,NULL;"),
        // where the condition is unknown the row stays
        ("AntiJoin", "8,Bo,NULL;"),
        ("AntiJoin by others", "8,Bo,NULL;"),
        ("AntiJoin or NULL", ""),
        ("AntiJoin or NULL without NULL", "2,NULL;"),
        ("UnionAll", "1,Ore;1,Ore;2,NULL;2,NULL;"),
        ("Distinct", "1,Ore;2,NULL;"),
    ];
    let database = company(&rt, rt.alloc());
    for &(node, expected) in table {
        told(&rt, node, shown(&rt, rt.alloc(), &database, node), expected)?;
    }
    Ok(())
}
