// Whether the direct mapping has more quad rules than a mapping may have.
ghost use Rattle.std.specs.Prelude.{◌≡◌, ◌≤◌, ◌-◌, nat_lt, sum_by};
ghost use Rattle.std.specs.Option.{SomeIff};
ghost use Rattle.vkg_maps.specs.QuadRules.{rule_limit};
ghost use Rattle.vkg_direct.specs.DirectMapping.{rules_of_table};

use vkg_schema::Table;

const RULE_LIMIT: usize = 4096;

/// Whether there are more quad rules than the limit.
pub fn exceeds_limit(tables: &[Table]) -> bool
    ensures { result ≡ nat_lt rule_limit (sum_by rules_of_table tables.now) }
{
    exceeds(tables, RULE_LIMIT)
}

fn exceeds(tables: &[Table], limit: usize) -> bool
    ensures { result ≡ nat_lt limit (sum_by rules_of_table tables.now) }
{
    let mut left = limit;
    for table in tables {
        let Some(rest) = after_table(left, table) else {
            return true;
        };
        left = rest;
    }
    false
}

fn after_table(left: usize, table: &Table) -> Option<usize>
    ensures { SomeIff result (rules_of_table table.now ≤ left) (left - rules_of_table table.now) }
{
    let after_type = left.checked_sub(1)?;
    let after_columns = after_type.checked_sub(table.columns.len())?;
    after_columns.checked_sub(table.references.len())
}
