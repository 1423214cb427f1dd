// The answers, and how they are joined.
ghost use Rattle.std.specs.Prelude.{◌≡◌, IfOk};
ghost use Rattle.vkg_expr.specs.Seen.{expr_seen};
ghost use Rattle.vkg_match.specs.Seen.{verdict_seen};
ghost use Rattle.vkg_match.specs.Verdict.{both as both_verdicts, when as verdict_when, where_same as verdict_where_same};

use std::alloc::Global;
use vkg_base::{Box, Items, Memory};
use vkg_expr::Expr;

/// Whether two expressions make one term.
#[derive(Drop)]
pub enum Verdict {
    /// On no row.
    Never,
    /// On the rows on which all these equalities are true.
    All(Items<Expr>),
}

/// No equality, or never.
pub fn when(alloc: Global, holds: bool) -> Verdict
    ensures { verdict_seen result ≡ verdict_when holds }
{
    if holds {
        Verdict::All(Items::new(alloc))
    } else {
        Verdict::Never
    }
}

/// One equality.
pub fn where_same(alloc: Global, a: Box<Expr>, b: Box<Expr>) -> Result<Verdict, Memory>
    ensures { IfOk result (λ v. verdict_seen v ≡ verdict_where_same (expr_seen a) (expr_seen b)) }
{
    let mut all = Items::new(alloc);
    all.push(Expr::Same(a, b))?;
    Ok(Verdict::All(all))
}

/// Both: never, or all of both.
pub fn both(v: Verdict, w: Verdict) -> Result<Verdict, Memory>
    ensures { IfOk result (λ r. verdict_seen r ≡ both_verdicts (verdict_seen v) (verdict_seen w)) }
{
    let Verdict::All(mut all) = v else {
        return Ok(Verdict::Never);
    };
    let Verdict::All(more) = w else {
        return Ok(Verdict::Never);
    };
    all.append(more)?;
    Ok(Verdict::All(all))
}
