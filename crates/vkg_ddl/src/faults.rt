ghost use Rattle.std.specs.Prelude.{◌≡◌};
ghost use Rattle.vkg_ddl.specs.FirstFault.{first_fault};

use crate::limits::limit_passed;
use crate::targets::{columns_wrong, families_differ, no_key};
use crate::twice::{column_twice, key_column_twice, primary_twice, table_twice};
use crate::types::{precision_wrong, type_unknown};
use crate::unknown::{key_column_unknown, table_unknown};
use crate::written::WrittenTable;

/// The first check that fails, and its least place.
pub fn first_fault(tables: &[WrittenTable]) -> Option<(u8, usize)>
    ensures { result ≡ first_fault tables.now }
{
    if let Some(at) = table_twice(tables) {
        return Some((3, at));
    }
    if let Some(at) = column_twice(tables) {
        return Some((4, at));
    }
    if let Some(at) = type_unknown(tables) {
        return Some((5, at));
    }
    if let Some(at) = precision_wrong(tables) {
        return Some((6, at));
    }
    if let Some(at) = key_column_unknown(tables) {
        return Some((7, at));
    }
    if let Some(at) = key_column_twice(tables) {
        return Some((8, at));
    }
    if let Some(at) = primary_twice(tables) {
        return Some((9, at));
    }
    if let Some(at) = table_unknown(tables) {
        return Some((10, at));
    }
    if let Some(at) = columns_wrong(tables) {
        return Some((11, at));
    }
    if let Some(at) = no_key(tables) {
        return Some((12, at));
    }
    if let Some(at) = families_differ(tables) {
        return Some((13, at));
    }
    match limit_passed(tables) {
        None => None,
        Some(at) => Some((14, at)),
    }
}
