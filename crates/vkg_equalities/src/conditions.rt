// Conditions and their conjuncts.
ghost use Rattle.std.specs.Prelude.{◌≡◌, ◌&&◌, map};
ghost use Rattle.std.specs.List.{list_any};
ghost use Rattle.vkg_expr.specs.Logic.{and_of as all_of, conjuncts as conjuncts_of};
ghost use Rattle.vkg_expr.specs.Seen.{expr_seen};
ghost use Rattle.vkg_equalities.specs.Decided.{asks_terms as asks_for_terms, makes_term as term_maker};

use std::slice;
use vkg_base::Items;
use vkg_cells::{Cell, SqlType};
use vkg_expr::{Expr, same_kind};

/// Whether a conjunct asks two terms to be the same. No other is decided, whatever the columns are.
pub fn may_decide(c: &Expr) -> bool
    ensures { result ≡ list_any asks_for_terms (conjuncts_of (expr_seen c.now)) }
{
    any_asks(conjuncts(c))
}

/// A condition itself, or the members of its And.
#[tactic(auto, using(vkg_columns::proofs::Lists::conjunct_lists))]
pub fn conjuncts(c: &Expr) -> &[Expr]
    ensures { map expr_seen result.now ≡ conjuncts_of (expr_seen c.now) }
{
    match c {
        Expr::And(list) => list.as_slice(),
        _ => slice::from_ref(c),
    }
}

fn any_asks(list: &[Expr]) -> bool
    ensures { result ≡ list_any asks_for_terms (map expr_seen list.now) }
{
    for c in list {
        if asks_terms(c) {
            return true;
        }
    }
    false
}

fn asks_terms(c: &Expr) -> bool
    ensures { result ≡ asks_for_terms (expr_seen c.now) }
{
    match c {
        Expr::Same(a, b) => makes_term(a) && makes_term(b),
        _ => false,
    }
}

fn makes_term(e: &Expr) -> bool
    ensures { result ≡ term_maker (expr_seen e.now) }
{
    match e {
        Expr::Const(_, kind) => same_kind(SqlType::Term, *kind),
        Expr::MakeIri(_) => true,
        Expr::MakeBlank(_) => true,
        Expr::MakeLit(_, _) => true,
        _ => false,
    }
}

/// All of some conditions: of one it is that one, of none the constant true.
#[tactic(auto, using(vkg_columns::proofs::Lists::and_none, vkg_columns::proofs::Lists::and_one, vkg_columns::proofs::Lists::and_more))]
pub fn and_of(conditions: Items<Expr>) -> Expr
    ensures { expr_seen result ≡ all_of (map expr_seen conditions) }
{
    let mut conditions = conditions;
    if conditions.len() == 0 {
        return Expr::Const(Cell::Bool(true), SqlType::Bool);
    }
    if conditions.len() == 1 {
        return conditions.remove(0);
    }
    Expr::And(conditions)
}
