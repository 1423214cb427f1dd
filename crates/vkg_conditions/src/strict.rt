// Expressions that are made of strict forms alone: NULL where a part is.
ghost use Rattle.std.specs.Prelude.{◌≡◌, map};
ghost use Rattle.vkg_schema.specs.Rows.{is_null as is_null_cell};
ghost use Rattle.vkg_expr.specs.Expr.{exprs};
ghost use Rattle.vkg_expr.specs.Seen.{expr_seen};
ghost use Rattle.vkg_expr.specs.Strict.{are_strict as all_strict, is_strict as strict};

use vkg_cells::Cell;
use vkg_expr::Expr;

/// Whether the expression is made of strict forms alone, whose value is NULL where that of a part is.
#[cycle(strict)]
pub fn is_strict(e: &Expr) -> bool
    ensures { result ≡ strict (expr_seen e.now) }
{
    match e {
        Expr::Col(_) => true,
        Expr::Const(cell, _) => !is_null(cell),
        Expr::MakeIri(e) => is_strict(e),
        Expr::IriOf(_, e) => is_strict(e),
        Expr::MakeBlank(e) => is_strict(e),
        Expr::MakeLit(e, _) => is_strict(e),
        Expr::Lex(e) => is_strict(e),
        Expr::IriSafe(e) => is_strict(e),
        Expr::Concat(list) => are_strict(list.as_slice()),
        Expr::Same(_, _) => false,
        Expr::IsNull(_) => false,
        Expr::Not(_) => false,
        Expr::And(_) => false,
        Expr::Or(_) => false,
        Expr::Coalesce(_) => false,
        Expr::Sparql(_, _) => false,
        Expr::Ebv(_) => false,
    }
}

#[cycle(strict)]
fn are_strict(list: &[Expr]) -> bool
    ensures { result ≡ all_strict (exprs (map expr_seen list.now)) }
{
    for e in list {
        if !is_strict(e) {
            return false;
        }
    }
    true
}

/// Whether the cell is NULL.
pub fn is_null(cell: &Cell) -> bool
    ensures { result ≡ is_null_cell cell.now }
{
    matches!(cell, Cell::Null)
}
