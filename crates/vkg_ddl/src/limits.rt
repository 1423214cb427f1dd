ghost use Rattle.std.specs.Prelude.{◌≡◌, slice_get, option_map};
ghost use Rattle.vkg_ddl.specs.NameChecks.{limit_passed};

use crate::written::{WrittenColumn, WrittenTable};
use vkg_base::lesser;

fn table_past(tables: &[WrittenTable]) -> Option<usize>
    ensures { result ≡ option_map (λ t. t.name.at) (slice_get tables.now 256) }
{
    match tables.get(256) {
        None => None,
        Some(t) => Some(t.name.at),
    }
}

fn column_past(columns: &[WrittenColumn]) -> Option<usize>
    ensures { result ≡ option_map (λ c. c.name.at) (slice_get columns.now 128) }
{
    match columns.get(128) {
        None => None,
        Some(c) => Some(c.name.at),
    }
}

pub fn limit_passed(tables: &[WrittenTable]) -> Option<usize>
    ensures { result ≡ limit_passed tables.now }
{
    let columns = tables.iter().fold(
        None,
        |best, t| lesser(best, column_past(t.columns.as_slice())),
    );
    lesser(table_past(tables), columns)
}
