// The schema of the company.
ghost use Rattle.std.specs.Prelude.{◌≡◌, IfOk};
ghost use Rattle.vkg_schema.specs.Reading.{IsSchemaOf};
ghost use Rattle.vkg_schema.specs.Company.{company};
ghost use Rattle.vkg_company.specs.Company.{company_text};

use std::alloc::Global;
use vkg_base::Memory;
use vkg_schema::{Schema, SchemaError, read_schema};

/// The schema of the company, which is the one that its text says.
pub fn company_schema(alloc: Global) -> Result<Schema, Memory>
    ensures value { IfOk result (λ schema. schema ≡ company) }
    ensures text { IfOk result (IsSchemaOf company_text) }
{
    let text =
        "CREATE TABLE dept (id INTEGER PRIMARY KEY, title VARCHAR(20)); CREATE TABLE emp (id INTEGER PRIMARY KEY, name VARCHAR(20), dept INTEGER REFERENCES dept);";
    match read_schema(alloc, text.as_bytes()) {
        Ok(schema) => Ok(schema),
        Err(SchemaError::Memory) => Err(Memory),
        Err(SchemaError::Fault(_)) => unreachable!(),
    }
}
