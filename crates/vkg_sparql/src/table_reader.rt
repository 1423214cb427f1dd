// The tables of VALUES.
ghost use Rattle.std.specs.Prelude.{◌≡◌, ◌<◌, [], ◌∷◌, IfOk};
ghost use Rattle.vkg_grammar.specs.Forest.{tree, node_count};
ghost use Rattle.vkg_sparql.specs.Tables.{data_value, row_value, column_value, rows_value, no_table, column_table, rows_table, table_value};
ghost use Rattle.vkg_sparql.specs.declared.query.Part.TheVariants.{Values};

use crate::meaning::{Meaning, first_token, number_of, term_if};
use crate::query::Part;
use crate::query_reader::read_numbers;
use std::alloc::Global;
use vkg_base::{Items, Memory};
use vkg_grammar::{Forest, Node};
use vkg_terms::Term;

// value = iri | literal | UNDEF
fn read_value(meanings: &[Meaning], forest: &Forest, at: usize) -> Result<Option<Term>, Memory>
    requires { at < node_count forest.now }
    ensures { IfOk result (λ v. v ≡ data_value meanings.now (tree forest.now at)) }
{
    let token = first_token(forest, at);
    term_if(meanings, token)
}

// { value }
fn read_row(
    alloc: Global,
    meanings: &[Meaning],
    forest: &Forest,
    at: usize,
) -> Result<Items<Option<Term>>, Memory>
    requires { at < node_count forest.now }
    ensures { IfOk result (λ row. row ≡ row_value meanings.now (tree forest.now at)) }
{
    let mut row = Items::new(alloc);
    let mut rest = at;
    while let Node::Pair(value, more) = forest.node(rest) {
        row.push(read_value(meanings, forest, value)?)?;
        rest = more;
    }
    Ok(row)
}

fn row_of_one(alloc: Global, value: Option<Term>) -> Result<Items<Option<Term>>, Memory>
    ensures { IfOk result (λ row. row ≡ value ∷ []) }
{
    let mut row = Items::new(alloc);
    row.push(value)?;
    Ok(row)
}

// { value }, each of them a row
fn read_column(
    alloc: Global,
    meanings: &[Meaning],
    forest: &Forest,
    at: usize,
) -> Result<Items<Items<Option<Term>>>, Memory>
    requires { at < node_count forest.now }
    ensures { IfOk result (λ rows. rows ≡ column_value meanings.now (tree forest.now at)) }
{
    let mut rows = Items::new(alloc);
    let mut rest = at;
    while let Node::Pair(value, more) = forest.node(rest) {
        rows.push(row_of_one(alloc, read_value(meanings, forest, value)?)?)?;
        rest = more;
    }
    Ok(rows)
}

// { row }, where row = "(" { value } ")"
fn read_rows(
    alloc: Global,
    meanings: &[Meaning],
    forest: &Forest,
    at: usize,
) -> Result<Items<Items<Option<Term>>>, Memory>
    requires { at < node_count forest.now }
    ensures { IfOk result (λ rows. rows ≡ rows_value meanings.now (tree forest.now at)) }
{
    let mut rows = Items::new(alloc);
    let mut rest = at;
    while let Node::Pair(row, more) = forest.node(rest) {
        let Node::Pair(_, inner) = forest.node(row) else {
            return Ok(rows);
        };
        let Node::Pair(values, _) = forest.node(inner) else {
            return Ok(rows);
        };
        rows.push(read_row(alloc, meanings, forest, values)?)?;
        rest = more;
    }
    Ok(rows)
}

fn no_table(alloc: Global) -> Result<Part, Memory>
    ensures { IfOk result (λ p. p ≡ no_table) }
{
    Ok(Part::Values(Items::new(alloc), Items::new(alloc)))
}

// The table of one variable.
fn table_of_one(
    alloc: Global,
    variable: usize,
    rows: Items<Items<Option<Term>>>,
) -> Result<Part, Memory>
    ensures { IfOk result (λ p. p ≡ Values (variable ∷ []) rows) }
{
    let mut variables = Items::new(alloc);
    variables.push(variable)?;
    Ok(Part::Values(variables, rows))
}

// VAR "{" { value } "}"
fn read_column_table(
    alloc: Global,
    meanings: &[Meaning],
    forest: &Forest,
    at: usize,
) -> Result<Part, Memory>
    requires { at < node_count forest.now }
    ensures { IfOk result (λ p. p ≡ column_table meanings.now (tree forest.now at)) }
{
    let Node::Pair(variable, rest) = forest.node(at) else {
        return no_table(alloc);
    };
    let Node::Pair(_, rest) = forest.node(rest) else {
        return no_table(alloc);
    };
    let Node::Pair(values, _) = forest.node(rest) else {
        return no_table(alloc);
    };
    let number = number_of(meanings, first_token(forest, variable));
    table_of_one(alloc, number, read_column(alloc, meanings, forest, values)?)
}

// "(" { VAR } ")" "{" { row } "}"
fn read_rows_table(
    alloc: Global,
    meanings: &[Meaning],
    forest: &Forest,
    at: usize,
) -> Result<Part, Memory>
    requires { at < node_count forest.now }
    ensures { IfOk result (λ p. p ≡ rows_table meanings.now (tree forest.now at)) }
{
    let Node::Pair(_, rest) = forest.node(at) else {
        return no_table(alloc);
    };
    let Node::Pair(variables, rest) = forest.node(rest) else {
        return no_table(alloc);
    };
    let Node::Pair(_, rest) = forest.node(rest) else {
        return no_table(alloc);
    };
    let Node::Pair(_, rest) = forest.node(rest) else {
        return no_table(alloc);
    };
    let Node::Pair(rows, _) = forest.node(rest) else {
        return no_table(alloc);
    };
    let numbers = read_numbers(alloc, meanings, forest, variables)?;
    Ok(Part::Values(numbers, read_rows(alloc, meanings, forest, rows)?))
}

/// The table behind VALUES: table = VAR "{" { value } "}" | "(" { VAR } ")" "{" { row } "}".
pub fn read_table(
    alloc: Global,
    meanings: &[Meaning],
    forest: &Forest,
    at: usize,
) -> Result<Part, Memory>
    requires { at < node_count forest.now }
    ensures { IfOk result (λ p. p ≡ table_value meanings.now (tree forest.now at)) }
{
    match forest.node(at) {
        Node::First(t) => read_column_table(alloc, meanings, forest, t),
        Node::Second(t) => read_rows_table(alloc, meanings, forest, t),
        _ => no_table(alloc),
    }
}
