ghost use Rattle.std.specs.Prelude.{◌≡◌, IfOk};
ghost use Rattle.std.specs.List.{list_all};
ghost use Rattle.vkg_equalities.specs.TableColumns.{flag_at as flag_of};
ghost use Rattle.vkg_expr.specs.Seen.{expr_seen};
ghost use Rattle.vkg_plan.specs.Seen.{plan_seen};
ghost use Rattle.vkg_sure.specs.NeverNull.{is_known as known_by, own_never_null as own_flags};

use crate::columns::named_columns;
use crate::never_null::own_told;
use crate::told::is_set;
use std::alloc::Global;
use std::marker::Model;
use vkg_base::Memory;
use vkg_conditions::is_strict;
use vkg_expr::Expr;
use vkg_plan::Plan;
use vkg_schema::Schema;

/// The columns over which a plan's own expressions are. They are seen as flags, of each whether no row has NULL in it, as far as this is seen;
/// but a flag is told when it is asked for, and no other one.
#[derive(Drop)]
pub struct OwnColumns<'a> {
    schema: &'a Schema,
    plan: &'a Plan,
}

impl<'a> Model for OwnColumns<'a> {
    ghost use Rattle.std.specs.Prelude.{Bool, List};
    ghost use Rattle.vkg_plan.specs.Seen.{plan_seen};
    ghost use Rattle.vkg_sure.specs.NeverNull.{own_never_null};

    ghost Value = { List Bool };

    ghost view = { λ o. own_never_null o.schema.now (plan_seen o.plan.now) };
}

impl<'a> OwnColumns<'a> {
    /// Those of a plan.
    pub fn of(schema: &'a Schema, plan: &'a Plan) -> OwnColumns<'a>
        ensures { result ≡ own_flags schema.now (plan_seen plan.now) }
    {
        OwnColumns { schema, plan }
    }

    /// Whether no row has NULL in a column.
    #[tactic(auto, using(crate::proofs::Places::flag_told))]
    pub fn is_never_null(&self, alloc: Global, column: usize) -> Result<bool, Memory>
        ensures { IfOk result (λ b. b ≡ flag_of self.now column) }
    {
        let told = own_told(alloc, self.schema, self.plan, column)?;
        Ok(is_set(told))
    }

    /// Whether an expression is strict, and no row has NULL in a column that it names: so it is never NULL.
    pub fn is_known(&self, alloc: Global, e: &Expr) -> Result<bool, Memory>
        ensures { IfOk result (λ b. b ≡ known_by self.now (expr_seen e.now)) }
    {
        if !is_strict(e) {
            return Ok(false);
        }
        let columns = named_columns(alloc, e)?;
        are_never_null(alloc, self, columns.as_slice())
    }
}

fn are_never_null(alloc: Global, own: &OwnColumns, columns: &[usize]) -> Result<bool, Memory>
    ensures { IfOk result (λ b. b ≡ list_all (flag_of own.now) columns.now) }
{
    for column in columns {
        if !own.is_never_null(alloc, *column)? {
            return Ok(false);
        }
    }
    Ok(true)
}
