ghost use Rattle.std.specs.Prelude.{◌≡◌, IfOk};

use std::alloc::Global;
use vkg_base::{Box, Items, Memory};
use vkg_cells::SqlType;
use vkg_expr::{Expr, copy_exprs};

/// A plan over the tables of a schema. Tables and columns count from 0.
#[derive(Drop)]
pub enum Plan {
    /// One row without columns.
    Unit,
    /// No row.
    Empty(Items<SqlType>),
    /// The rows of a table.
    Scan(usize),
    /// The rows for which the condition is true.
    Select(Expr, Box<Plan>),
    /// Of each row the values of the expressions.
    Project(Items<Expr>, Box<Plan>),
    /// Each row of the first with each of the second and so on, for which the condition is true.
    Join(Items<Plan>, Expr),
    /// The pairs for which the condition is true, and each row of the first without such a pair, with NULLs.
    Left(Box<Plan>, Box<Plan>, Expr),
    /// Each row of the first without a pair for which the condition is true.
    AntiJoin(Box<Plan>, Box<Plan>, Expr),
    /// The rows of all, with their repeats.
    UnionAll(Items<Plan>),
    /// Each row once; NULL is equal to NULL here.
    Distinct(Box<Plan>),
}

impl Plan {
    /// A plan equal to this one.
    #[cycle(copy_plan)]
    pub fn copy(&self, alloc: Global) -> Result<Plan, Memory>
        ensures { IfOk result (λ p. p ≡ self.now) }
    {
        match self {
            Plan::Unit => Ok(Plan::Unit),
            Plan::Empty(kinds) => Ok(Plan::Empty(Items::from_slice(alloc, kinds.as_slice())?)),
            Plan::Scan(table) => Ok(Plan::Scan(*table)),
            Plan::Select(c, p) => Ok(Plan::Select(c.copy(alloc)?, copy_plan_box(alloc, p)?)),
            Plan::Project(es, p) => {
                let es = copy_exprs(alloc, es.as_slice())?;
                Ok(Plan::Project(es, copy_plan_box(alloc, p)?))
            }
            Plan::Join(ps, c) => {
                let ps = copy_plans(alloc, ps.as_slice())?;
                Ok(Plan::Join(ps, c.copy(alloc)?))
            }
            Plan::Left(p, q, c) => {
                let p = copy_plan_box(alloc, p)?;
                let q = copy_plan_box(alloc, q)?;
                Ok(Plan::Left(p, q, c.copy(alloc)?))
            }
            Plan::AntiJoin(p, q, c) => {
                let p = copy_plan_box(alloc, p)?;
                let q = copy_plan_box(alloc, q)?;
                Ok(Plan::AntiJoin(p, q, c.copy(alloc)?))
            }
            Plan::UnionAll(ps) => Ok(Plan::UnionAll(copy_plans(alloc, ps.as_slice())?)),
            Plan::Distinct(p) => Ok(Plan::Distinct(copy_plan_box(alloc, p)?)),
        }
    }
}

/// A plan equal to this one, on the heap.
#[cycle(copy_plan)]
pub fn copy_plan_box(alloc: Global, plan: &Plan) -> Result<Box<Plan>, Memory>
    ensures { IfOk result (λ p. p ≡ plan.now) }
{
    Box::new(alloc, plan.copy(alloc)?)
}

/// Plans equal to these.
#[cycle(copy_plan)]
pub fn copy_plans(alloc: Global, plans: &[Plan]) -> Result<Items<Plan>, Memory>
    ensures { IfOk result (λ ps. ps ≡ plans.now) }
{
    let mut copies = Items::new(alloc);
    for plan in plans {
        copies.push(plan.copy(alloc)?)?;
    }
    Ok(copies)
}
