ghost use Rattle.std.specs.Prelude.{◌≡◌, ◌<◌, ◌≤◌, ℕ, [], IfOk, OnOk};
ghost use Rattle.vkg_schema.specs.Meets.{MeetsSchema};
ghost use Rattle.vkg_schema.specs.Company.{company};
ghost use Rattle.vkg_company.specs.Company.{company_of, department_rows, employee_rows, holding};

use crate::rows::{department, employee};
use crate::schema::company_schema;
use std::alloc::Global;
use vkg_base::Memory;
use vkg_tables::Database;

/// The company of `n` employees.
pub fn generate(alloc: Global, n: usize) -> Result<Database, Memory>
    requires some { 0 < n }
    requires limit { n ≤ 100000 }
    ensures value { IfOk result (λ db. db ≡ company_of n) }
    ensures meets { IfOk result (λ db. MeetsSchema db.schema db.tables) }
{
    let schema = company_schema(alloc)?;
    let departments = n / 10 + 1;
    let mut database = Database::new(alloc, &schema)?;
    push_departments(alloc, &mut database, departments)?;
    push_employees(alloc, &mut database, departments, n)?;
    Ok(database)
}

fn push_departments(alloc: Global, database: &mut Database, count: usize) -> Result<(), Memory>
    requires empty { database.old ≡ holding [] [] }
    requires small { count ≤ 100000 }
    ensures { OnOk result (database.new ≡ holding (department_rows count) []) }
{
    for k in 0..count {
        let row = department(alloc, k + 1)?;
        database.push_row(0, row)?;
    }
    Ok(())
}

fn push_employees(
    alloc: Global,
    database: &mut Database,
    departments: usize,
    count: usize,
) -> Result<(), Memory>
    requires before { database.old ≡ holding (department_rows departments) [] }
    requires some { 0 < departments }
    requires departments { departments ≤ 100000 }
    requires small { count ≤ 100000 }
    ensures { OnOk result (database.new ≡ holding (department_rows departments) (employee_rows departments count)) }
{
    for i in 0..count {
        let row = employee(alloc, departments, i + 1)?;
        database.push_row(1, row)?;
    }
    Ok(())
}
