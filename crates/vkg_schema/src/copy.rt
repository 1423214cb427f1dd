// Copies of the parts of a schema, each in memory of its own.
ghost use Rattle.std.specs.Prelude.{◌≡◌, IfOk};

use crate::table::{Column, Key, Reference, Table};
use vkg_base::{Items, Memory};

impl Column {
    pub fn copy(&self) -> Result<Column, Memory>
        ensures { IfOk result (λ c. c ≡ self.now) }
    {
        Ok(Column {
            name: self.name.copy()?,
            kind: self.kind,
            not_null: self.not_null,
        })
    }
}

impl Key {
    pub fn copy(&self) -> Result<Key, Memory>
        ensures { IfOk result (λ k. k ≡ self.now) }
    {
        Ok(Key {
            primary: self.primary,
            columns: Items::from_slice(self.columns.alloc(), self.columns.as_slice())?,
        })
    }
}

impl Reference {
    pub fn copy(&self) -> Result<Reference, Memory>
        ensures { IfOk result (λ r. r ≡ self.now) }
    {
        Ok(Reference {
            table: self.table,
            pairs: Items::from_slice(self.pairs.alloc(), self.pairs.as_slice())?,
        })
    }
}

impl Table {
    pub fn copy(&self) -> Result<Table, Memory>
        ensures { IfOk result (λ t. t ≡ self.now) }
    {
        Ok(Table {
            name: self.name.copy()?,
            columns: copy_columns(&self.columns)?,
            keys: copy_keys(&self.keys)?,
            references: copy_references(&self.references)?,
        })
    }
}

fn copy_columns(columns: &Items<Column>) -> Result<Items<Column>, Memory>
    ensures { IfOk result (λ cs. cs ≡ columns.now) }
{
    let mut copies = Items::new(columns.alloc());
    for column in columns.as_slice() {
        copies.push(column.copy()?)?;
    }
    Ok(copies)
}

fn copy_keys(keys: &Items<Key>) -> Result<Items<Key>, Memory>
    ensures { IfOk result (λ ks. ks ≡ keys.now) }
{
    let mut copies = Items::new(keys.alloc());
    for key in keys.as_slice() {
        copies.push(key.copy()?)?;
    }
    Ok(copies)
}

fn copy_references(references: &Items<Reference>) -> Result<Items<Reference>, Memory>
    ensures { IfOk result (λ rs. rs ≡ references.now) }
{
    let mut copies = Items::new(references.alloc());
    for reference in references.as_slice() {
        copies.push(reference.copy()?)?;
    }
    Ok(copies)
}

pub fn copy_tables(tables: &Items<Table>) -> Result<Items<Table>, Memory>
    ensures { IfOk result (λ ts. ts ≡ tables.now) }
{
    let mut copies = Items::new(tables.alloc());
    for table in tables.as_slice() {
        copies.push(table.copy()?)?;
    }
    Ok(copies)
}
