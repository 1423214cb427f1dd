ghost use Rattle.std.specs.Prelude.{◌≡◌, ◌++◌, ◌∷◌, [], IfOk, OnOk, slice_index_or, true, false};
ghost use Rattle.vkg_ddl.specs.Written.{act, edit, edit_column, edit_key, edit_reference, on_last, last_name, new_table, new_column, new_key, new_reference, with_columns, with_key, with_keys, with_reference, with_references};

use crate::name::Name;
use crate::role::Role;
use std::alloc::Global;
use vkg_base::{Items, Memory};

/// A column as it is written: its name, the type's word and the numbers in brackets.
#[derive(Drop)]
pub struct WrittenColumn {
    pub name: Name,
    pub kind: Name,
    pub numbers: Items<Name>,
    pub not_null: bool,
}

/// A key as it is written, with the token that begins it.
#[derive(Drop)]
pub struct WrittenKey {
    pub primary: bool,
    pub first: Name,
    pub columns: Items<Name>,
}

/// A foreign key as it is written, with its REFERENCES.
#[derive(Drop)]
pub struct WrittenReference {
    pub first: Name,
    pub columns: Items<Name>,
    pub table: Name,
    pub targets: Items<Name>,
}

#[derive(Drop)]
pub struct WrittenTable {
    pub name: Name,
    pub columns: Items<WrittenColumn>,
    pub keys: Items<WrittenKey>,
    pub references: Items<WrittenReference>,
}

fn new_column(alloc: Global, token: &Name) -> Result<WrittenColumn, Memory>
    ensures { IfOk result (λ c. c ≡ new_column token.now) }
{
    let name = token.copy()?;
    let kind = token.copy()?;
    Ok(WrittenColumn {
        name,
        kind,
        numbers: Items::new(alloc),
        not_null: false,
    })
}

fn new_key(primary: bool, first: &Name, columns: Items<Name>) -> Result<WrittenKey, Memory>
    ensures { IfOk result (λ k. k ≡ new_key primary first.now columns) }
{
    let first = first.copy()?;
    Ok(WrittenKey {
        primary,
        first,
        columns,
    })
}

fn new_reference(
    alloc: Global,
    token: &Name,
    columns: Items<Name>,
) -> Result<WrittenReference, Memory>
    ensures { IfOk result (λ r. r ≡ new_reference token.now columns) }
{
    let first = token.copy()?;
    let table = token.copy()?;
    Ok(WrittenReference {
        first,
        columns,
        table,
        targets: Items::new(alloc),
    })
}

fn new_table(alloc: Global, token: &Name) -> Result<WrittenTable, Memory>
    ensures { IfOk result (λ t. t ≡ new_table token.now) }
{
    let name = token.copy()?;
    Ok(WrittenTable {
        name,
        columns: Items::new(alloc),
        keys: Items::new(alloc),
        references: Items::new(alloc),
    })
}

// One name, as a list.
fn one_name(alloc: Global, name: &Name) -> Result<Items<Name>, Memory>
    ensures { IfOk result (λ names. names ≡ name.now ∷ []) }
{
    let mut names = Items::new(alloc);
    names.push(name.copy()?)?;
    Ok(names)
}

// The name of the last column, as a list.
fn last_name(alloc: Global, token: &Name, columns: &[WrittenColumn]) -> Result<Items<Name>, Memory>
    ensures { IfOk result (λ names. names ≡ last_name token.now columns.now) }
{
    match columns.last() {
        None => one_name(alloc, token),
        Some(last) => one_name(alloc, &last.name),
    }
}

fn edit_column(role: Role, token: &Name, column: &mut WrittenColumn) -> Result<(), Memory>
    ensures { OnOk result (column.new ≡ edit_column role token.now column.old) }
{
    match role {
        Role::Kind => {
            column.kind = token.copy()?;
            Ok(())
        }
        Role::NotNull => {
            column.not_null = true;
            Ok(())
        }
        Role::Number => column.numbers.push(token.copy()?),
        _ => Ok(()),
    }
}

fn edit_key(alloc: Global, role: Role, token: &Name, key: &mut WrittenKey) -> Result<(), Memory>
    ensures { OnOk result (key.new ≡ edit_key role token.now key.old) }
{
    match role {
        Role::KeyFirst => {
            key.columns = one_name(alloc, token)?;
            Ok(())
        }
        Role::KeyColumn => key.columns.push(token.copy()?),
        _ => Ok(()),
    }
}

fn edit_reference(role: Role, token: &Name, reference: &mut WrittenReference) -> Result<(), Memory>
    ensures { OnOk result (reference.new ≡ edit_reference role token.now reference.old) }
{
    match role {
        Role::References => {
            reference.first = token.copy()?;
            Ok(())
        }
        Role::Target => {
            reference.table = token.copy()?;
            Ok(())
        }
        Role::ChildColumn => reference.columns.push(token.copy()?),
        Role::TargetColumn => reference.targets.push(token.copy()?),
        _ => Ok(()),
    }
}

fn edit_last_column(
    role: Role,
    token: &Name,
    columns: &mut Items<WrittenColumn>,
) -> Result<(), Memory>
    ensures { OnOk result (columns.new ≡ on_last (edit_column role token.now) columns.old) }
{
    let Some(mut last) = columns.pop() else {
        return Ok(());
    };
    edit_column(role, token, &mut last)?;
    columns.push(last)
}

fn edit_last_key(
    alloc: Global,
    role: Role,
    token: &Name,
    keys: &mut Items<WrittenKey>,
) -> Result<(), Memory>
    ensures { OnOk result (keys.new ≡ on_last (edit_key role token.now) keys.old) }
{
    let Some(mut last) = keys.pop() else {
        return Ok(());
    };
    edit_key(alloc, role, token, &mut last)?;
    keys.push(last)
}

fn edit_last_reference(
    role: Role,
    token: &Name,
    references: &mut Items<WrittenReference>,
) -> Result<(), Memory>
    ensures { OnOk result (references.new ≡ on_last (edit_reference role token.now) references.old) }
{
    let Some(mut last) = references.pop() else {
        return Ok(());
    };
    edit_reference(role, token, &mut last)?;
    references.push(last)
}

// The editors of a table change it where it stands: a table that is passed on by value would be dropped at each way out.

fn add_column(alloc: Global, token: &Name, table: &mut WrittenTable) -> Result<(), Memory>
    ensures { OnOk result (table.new ≡ with_columns table.old (table.old.columns ++ new_column token.now ∷ [])) }
{
    table.columns.push(new_column(alloc, token)?)
}

fn change_column(role: Role, token: &Name, table: &mut WrittenTable) -> Result<(), Memory>
    ensures { OnOk result (table.new ≡ with_columns table.old (on_last (edit_column role token.now) table.old.columns)) }
{
    edit_last_column(role, token, &mut table.columns)
}

fn add_column_key(
    alloc: Global,
    primary: bool,
    token: &Name,
    table: &mut WrittenTable,
) -> Result<(), Memory>
    ensures { OnOk result (table.new ≡ with_key table.old (new_key primary token.now (last_name token.now table.old.columns))) }
{
    let names = last_name(alloc, token, table.columns.as_slice())?;
    table.keys.push(new_key(primary, token, names)?)
}

fn add_table_key(
    alloc: Global,
    primary: bool,
    token: &Name,
    table: &mut WrittenTable,
) -> Result<(), Memory>
    ensures { OnOk result (table.new ≡ with_key table.old (new_key primary token.now (token.now ∷ []))) }
{
    let names = one_name(alloc, token)?;
    table.keys.push(new_key(primary, token, names)?)
}

fn change_key(
    alloc: Global,
    role: Role,
    token: &Name,
    table: &mut WrittenTable,
) -> Result<(), Memory>
    ensures { OnOk result (table.new ≡ with_keys table.old (on_last (edit_key role token.now) table.old.keys)) }
{
    edit_last_key(alloc, role, token, &mut table.keys)
}

fn add_column_reference(alloc: Global, token: &Name, table: &mut WrittenTable) -> Result<(), Memory>
    ensures { OnOk result (table.new ≡ with_reference table.old (new_reference token.now (last_name token.now table.old.columns))) }
{
    let names = last_name(alloc, token, table.columns.as_slice())?;
    table.references.push(new_reference(alloc, token, names)?)
}

fn add_table_reference(alloc: Global, token: &Name, table: &mut WrittenTable) -> Result<(), Memory>
    ensures { OnOk result (table.new ≡ with_reference table.old (new_reference token.now [])) }
{
    let names = Items::new(alloc);
    table.references.push(new_reference(alloc, token, names)?)
}

fn change_reference(role: Role, token: &Name, table: &mut WrittenTable) -> Result<(), Memory>
    ensures { OnOk result (table.new ≡ with_references table.old (on_last (edit_reference role token.now) table.old.references)) }
{
    edit_last_reference(role, token, &mut table.references)
}

// What a token adds to the last table.
fn edit(alloc: Global, role: Role, token: &Name, table: &mut WrittenTable) -> Result<(), Memory>
    ensures { OnOk result (table.new ≡ edit role token.now table.old) }
{
    match role {
        Role::Column => add_column(alloc, token, table),
        Role::Kind => change_column(role, token, table),
        Role::Number => change_column(role, token, table),
        Role::NotNull => change_column(role, token, table),
        Role::ColumnPrimary => add_column_key(alloc, true, token, table),
        Role::ColumnUnique => add_column_key(alloc, false, token, table),
        Role::Primary => add_table_key(alloc, true, token, table),
        Role::Unique => add_table_key(alloc, false, token, table),
        Role::KeyFirst => change_key(alloc, role, token, table),
        Role::KeyColumn => change_key(alloc, role, token, table),
        Role::ColumnReferences => add_column_reference(alloc, token, table),
        Role::Foreign => add_table_reference(alloc, token, table),
        Role::ChildColumn => change_reference(role, token, table),
        Role::References => change_reference(role, token, table),
        Role::Target => change_reference(role, token, table),
        Role::TargetColumn => change_reference(role, token, table),
        _ => Ok(()),
    }
}

pub fn act(
    alloc: Global,
    role: Role,
    token: &Name,
    tables: &mut Items<WrittenTable>,
) -> Result<(), Memory>
    ensures { OnOk result (tables.new ≡ act role token.now tables.old) }
{
    if let Role::Table = role {
        return tables.push(new_table(alloc, token)?);
    }
    let Some(mut last) = tables.pop() else {
        return Ok(());
    };
    edit(alloc, role, token, &mut last)?;
    tables.push(last)
}
