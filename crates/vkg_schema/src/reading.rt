ghost use Rattle.std.specs.Prelude.{◌≡◌, IfOk, IfErr, IsUtf8};
ghost use Rattle.vkg_schema.specs.Reading.{IsSchemaOf, IsSchemaText, Fails, TextFails, IsDetermined, of_text};
ghost use Rattle.vkg_schema.specs.Names.{HasOwnNames};
ghost use Rattle.vkg_schema.specs.declared.reading.SchemaError.TheVariants.{Memory as OutOfMemory};

use crate::resolve::resolve;
use crate::schema::Schema;
use std::alloc::Global;
use std::str;
use thiserror::Error;
use vkg_base::Memory;
use vkg_ddl::{TextFault, first_fault, read_written};
use vkg_tokens::without_mark;

/// The first fault of a schema's text: the number of its check, and the byte at which it stands, counted behind a
/// byte order mark.
#[derive(Clone, Copy, Debug, PartialEq, Eq)]
pub struct SchemaFault {
    pub check: u8,
    pub at: usize,
}

/// Why bytes are no schema.
#[derive(Clone, Copy, Debug, PartialEq, Eq, Error)]
pub enum SchemaError {
    #[error("check {} fails at byte {}", .0.check, .0.at)]
    Fault(SchemaFault),
    #[error("out of memory")]
    Memory,
}

impl From<Memory> for SchemaError {
    ghost from_gives = { λ _ e. e ≡ OutOfMemory };

    fn from(_: Memory) -> SchemaError {
        SchemaError::Memory
    }
}

fn of_text(e: TextFault) -> SchemaError
    ensures { result ≡ of_text e }
{
    match e {
        TextFault::Memory => SchemaError::Memory,
        TextFault::Lexical { at } => SchemaError::Fault(SchemaFault { check: 1, at }),
        TextFault::Grammar { at } => SchemaError::Fault(SchemaFault { check: 2, at }),
    }
}

fn read_text(alloc: Global, bytes: &[u8]) -> Result<Schema, SchemaError>
    ensures ok { IfOk result (IsSchemaText bytes.now) }
    ensures names { IfOk result HasOwnNames }
    ensures err { IfErr result (TextFails bytes.now) }
{
    let text = match str::from_utf8(bytes) {
        Ok(text) => text,
        Err(e) => {
            let at = e.valid_up_to();
            return Err(SchemaError::Fault(SchemaFault { check: 15, at }));
        }
    };
    let written = match read_written(alloc, text) {
        Ok(written) => written,
        Err(e) => return Err(of_text(e)),
    };
    if let Some((check, at)) = first_fault(written.as_slice()) {
        return Err(SchemaError::Fault(SchemaFault { check, at }));
    }
    let tables = resolve(alloc, written.as_slice())?;
    Ok(Schema::new(tables))
}

/// Reads a schema: `CREATE TABLE` statements of SQL-92, 11.3 to 11.8, in part. One byte order mark at the front is
/// passed over. Each table has a name of its own.
pub fn read_schema(alloc: Global, bytes: &[u8]) -> Result<Schema, SchemaError>
    ensures ok { IfOk result (IsSchemaOf bytes.now) }
    ensures names { IfOk result HasOwnNames }
    ensures err { IfErr result (Fails bytes.now) }
{
    read_text(alloc, without_mark(bytes))
}

/// What `read_schema` answers is determined by the bytes, but for want of memory.
pub fn is_determined()
    ensures { IsDetermined }
{}
