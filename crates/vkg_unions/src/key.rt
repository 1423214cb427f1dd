// A number for each plan: plans of other numbers are other plans, and most of these have other numbers.
ghost use Rattle.std.specs.Prelude.{◌≡◌, IfOk, map};
ghost use Rattle.vkg_expr.specs.Expr.{exprs};
ghost use Rattle.vkg_expr.specs.Seen.{expr_seen};
ghost use Rattle.vkg_plan.specs.Seen.{plan_seen};
ghost use Rattle.vkg_rules.specs.StepSeen.{plans_seen};
ghost use Rattle.vkg_unions.specs.Key.{cell_key as key_of_cell, expr_key as key_of_expr, exprs_key as key_of_exprs, keys_of, mixed as mixed_key, plan_key as key_of_plan, plans_key as key_of_plans, term_key as key_of_term, text_key as key_of_text};

use std::alloc::Global;
use vkg_base::{Items, Memory};
use vkg_cells::Cell;
use vkg_expr::Expr;
use vkg_plan::Plan;
use vkg_terms::Term;

/// The numbers of plans.
pub fn keys(alloc: Global, ps: &[Plan]) -> Result<Items<u64>, Memory>
    ensures { IfOk result (λ ks. ks ≡ keys_of ps.now) }
{
    let mut all = Items::new(alloc);
    for p in ps {
        all.push(plan_key(0, p))?;
    }
    Ok(all)
}

/// The number of a plan behind another number.
#[cycle(plan_keys)]
fn plan_key(key: u64, plan: &Plan) -> u64
    ensures { result ≡ key_of_plan key (plan_seen plan.now) }
{
    match plan {
        Plan::Unit => key,
        Plan::Empty(_) => key,
        Plan::Scan(table) => mixed(key, *table as u64),
        Plan::Select(c, p) => plan_key(expr_key(key, c), p),
        Plan::Project(es, p) => plan_key(exprs_key(key, es.as_slice()), p),
        Plan::Join(ps, c) => expr_key(plans_key(key, ps.as_slice()), c),
        Plan::Left(p, q, c) => expr_key(plan_key(plan_key(key, p), q), c),
        Plan::AntiJoin(p, q, c) => expr_key(plan_key(plan_key(key, p), q), c),
        Plan::UnionAll(ps) => plans_key(key, ps.as_slice()),
        Plan::Distinct(p) => plan_key(key, p),
    }
}

#[cycle(plan_keys)]
fn plans_key(key: u64, ps: &[Plan]) -> u64
    ensures { result ≡ key_of_plans key (plans_seen ps.now) }
{
    let mut all = key;
    for p in ps {
        all = plan_key(all, p);
    }
    all
}

#[cycle(expr_keys)]
fn expr_key(key: u64, e: &Expr) -> u64
    ensures { result ≡ key_of_expr key (expr_seen e.now) }
{
    match e {
        Expr::Col(at) => mixed(key, *at as u64),
        Expr::Const(cell, _) => cell_key(key, cell),
        Expr::MakeIri(e) => expr_key(key, e),
        Expr::IriOf(_, e) => expr_key(key, e),
        Expr::MakeBlank(e) => expr_key(key, e),
        Expr::MakeLit(e, _) => expr_key(key, e),
        Expr::Lex(e) => expr_key(key, e),
        Expr::IriSafe(e) => expr_key(key, e),
        Expr::Concat(es) => exprs_key(key, es.as_slice()),
        Expr::Same(a, b) => expr_key(expr_key(key, a), b),
        Expr::IsNull(e) => expr_key(key, e),
        Expr::Not(e) => expr_key(key, e),
        Expr::And(es) => exprs_key(key, es.as_slice()),
        Expr::Or(es) => exprs_key(key, es.as_slice()),
        Expr::Coalesce(es) => exprs_key(key, es.as_slice()),
        Expr::Sparql(_, es) => exprs_key(key, es.as_slice()),
        Expr::Ebv(e) => expr_key(key, e),
    }
}

#[cycle(expr_keys)]
fn exprs_key(key: u64, es: &[Expr]) -> u64
    ensures { result ≡ key_of_exprs key (exprs (map expr_seen es.now)) }
{
    let mut all = key;
    for e in es {
        all = expr_key(all, e);
    }
    all
}

fn cell_key(key: u64, cell: &Cell) -> u64
    ensures { result ≡ key_of_cell key cell.now }
{
    match cell {
        Cell::Text(text) => text_key(key, text.as_str()),
        Cell::Term(term) => term_key(key, term),
        _ => key,
    }
}

fn term_key(key: u64, term: &Term) -> u64
    ensures { result ≡ key_of_term key term.now }
{
    match term {
        Term::Iri(text) => text_key(key, text.as_str()),
        Term::Blank(text) => text_key(key, text.as_str()),
        Term::Lit(text, _) => text_key(key, text.as_str()),
    }
}

fn text_key(key: u64, text: &str) -> u64
    ensures { result ≡ key_of_text key text.now }
{
    let mut all = key;
    for byte in text.as_bytes() {
        all = mixed(all, *byte as u64);
    }
    all
}

fn mixed(key: u64, n: u64) -> u64
    ensures { result ≡ mixed_key key n }
{
    (key ^ n).wrapping_mul(1099511628211)
}
