// Whether two expressions are one, part by part.
ghost use Rattle.std.specs.Prelude.{◌≡◌, map};
ghost use Rattle.vkg_same.specs.SameExpr.{same_compare as one_compare, same_expr as one_expr, same_exprs as one_list, same_operator as one_operator, same_take as one_take, same_test as one_test};
ghost use Rattle.vkg_expr.specs.Expr.{exprs};
ghost use Rattle.vkg_expr.specs.Seen.{expr_seen};
ghost use Rattle.vkg_plan.specs.Rows.{one_cell};

use vkg_cells::Cell;
use vkg_expr::{Expr, Operator, same_kind};
use vkg_values::{Compare, Take, Test};

/// Whether they are one expression, part by part; constants are one where their cells are of one kind and one form.
#[cycle(same)]
pub fn same_expr(a: &Expr, b: &Expr) -> bool
    ensures { result ≡ one_expr (expr_seen a.now) (expr_seen b.now) }
{
    match (a, b) {
        (Expr::Col(m), Expr::Col(n)) => *m == *n,
        (Expr::Const(c, j), Expr::Const(d, k)) => same_cell(c, d) && same_kind(*j, *k),
        (Expr::MakeIri(x), Expr::MakeIri(y)) => same_expr(x, y),
        (Expr::IriOf(s, x), Expr::IriOf(t, y)) => s.as_str() == t.as_str() && same_expr(x, y),
        (Expr::MakeBlank(x), Expr::MakeBlank(y)) => same_expr(x, y),
        (Expr::MakeLit(x, s), Expr::MakeLit(y, t)) => same_expr(x, y) && s.same(t),
        (Expr::Lex(x), Expr::Lex(y)) => same_expr(x, y),
        (Expr::IriSafe(x), Expr::IriSafe(y)) => same_expr(x, y),
        (Expr::Concat(xs), Expr::Concat(ys)) => same_exprs(xs.as_slice(), ys.as_slice()),
        (Expr::Same(w, x), Expr::Same(y, z)) => same_expr(w, y) && same_expr(x, z),
        (Expr::IsNull(x), Expr::IsNull(y)) => same_expr(x, y),
        (Expr::Not(x), Expr::Not(y)) => same_expr(x, y),
        (Expr::And(xs), Expr::And(ys)) => same_exprs(xs.as_slice(), ys.as_slice()),
        (Expr::Or(xs), Expr::Or(ys)) => same_exprs(xs.as_slice(), ys.as_slice()),
        (Expr::Coalesce(xs), Expr::Coalesce(ys)) => same_exprs(xs.as_slice(), ys.as_slice()),
        (Expr::Sparql(p, xs), Expr::Sparql(q, ys)) => {
            same_operator(*p, *q) && same_exprs(xs.as_slice(), ys.as_slice())
        }
        (Expr::Ebv(x), Expr::Ebv(y)) => same_expr(x, y),
        _ => false,
    }
}

/// Whether two lists have one expression at each place, and as many places.
#[cycle(same)]
pub fn same_exprs(a: &[Expr], b: &[Expr]) -> bool
    ensures { result ≡ one_list (exprs (map expr_seen a.now)) (exprs (map expr_seen b.now)) }
{
    if a.len() != b.len() {
        return false;
    }
    for (k, x) in a.iter().enumerate() {
        if !same_expr(x, &b[k]) {
            return false;
        }
    }
    true
}

/// Whether they are one cell: of one kind and one form, or both NULL.
fn same_cell(a: &Cell, b: &Cell) -> bool
    ensures { result ≡ one_cell a.now b.now }
{
    match (a, b) {
        (Cell::Null, Cell::Null) => true,
        (Cell::Text(s), Cell::Text(t)) => s.as_str() == t.as_str(),
        (Cell::Int(s), Cell::Int(t)) => s.as_str() == t.as_str(),
        (Cell::Dec(s), Cell::Dec(t)) => s.as_str() == t.as_str(),
        (Cell::Bool(s), Cell::Bool(t)) => *s == *t,
        (Cell::Date(s), Cell::Date(t)) => s.as_str() == t.as_str(),
        (Cell::Stamp(s), Cell::Stamp(t)) => s.as_str() == t.as_str(),
        (Cell::Bin(s), Cell::Bin(t)) => s.as_str() == t.as_str(),
        (Cell::Time(s), Cell::Time(t)) => s.as_str() == t.as_str(),
        (Cell::Term(s), Cell::Term(t)) => s.same(t),
        _ => false,
    }
}

fn same_operator(a: Operator, b: Operator) -> bool
    ensures { result ≡ one_operator a b }
{
    match (a, b) {
        (Operator::Test(a), Operator::Test(b)) => same_test(a, b),
        (Operator::Take(a), Operator::Take(b)) => same_take(a, b),
        (Operator::Compare(a), Operator::Compare(b)) => same_compare(a, b),
        _ => false,
    }
}

fn same_test(a: Test, b: Test) -> bool
    ensures { result ≡ one_test a b }
{
    match (a, b) {
        (Test::IsIri, Test::IsIri) => true,
        (Test::IsBlank, Test::IsBlank) => true,
        (Test::IsLiteral, Test::IsLiteral) => true,
        (Test::IsNumeric, Test::IsNumeric) => true,
        _ => false,
    }
}

fn same_take(a: Take, b: Take) -> bool
    ensures { result ≡ one_take a b }
{
    match (a, b) {
        (Take::Str, Take::Str) => true,
        (Take::Lang, Take::Lang) => true,
        (Take::Datatype, Take::Datatype) => true,
        (Take::Length, Take::Length) => true,
        _ => false,
    }
}

fn same_compare(a: Compare, b: Compare) -> bool
    ensures { result ≡ one_compare a b }
{
    match (a, b) {
        (Compare::Equal, Compare::Equal) => true,
        (Compare::NotEqual, Compare::NotEqual) => true,
        (Compare::Less, Compare::Less) => true,
        (Compare::Greater, Compare::Greater) => true,
        (Compare::LessOrEqual, Compare::LessOrEqual) => true,
        (Compare::GreaterOrEqual, Compare::GreaterOrEqual) => true,
        (Compare::Starts, Compare::Starts) => true,
        (Compare::Ends, Compare::Ends) => true,
        (Compare::Contains, Compare::Contains) => true,
        _ => false,
    }
}
