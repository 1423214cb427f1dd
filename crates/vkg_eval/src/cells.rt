// What the steps of an expression make of cells; NULL is unknown and error.
ghost use Rattle.std.specs.Prelude.{◌≡◌, IfOk, length, option_and_then, option_map};
ghost use Rattle.std.specs.Option.{option_copied};
ghost use Rattle.vkg_cells.specs.declared.cell.SqlType.TheVariants as kind;
ghost use Rattle.vkg_cells.specs.Form.{lexical_form};
ghost use Rattle.vkg_cells.specs.Order.{same as same_cells};
ghost use Rattle.vkg_schema.specs.Rows.{is_null as is_null_cell};
ghost use Rattle.vkg_terms.specs.Iri.{made_absolute};
ghost use Rattle.vkg_terms.specs.Label.{blank_label as label_of};
ghost use Rattle.vkg_terms.specs.Safe.{safe as safe_form};
ghost use Rattle.vkg_values.specs.Known.{widest};
ghost use Rattle.vkg_values.specs.Logic.{not3};
ghost use Rattle.vkg_values.specs.Operators.{ebv, take_value, test_value, compare_value, on_two};
ghost use Rattle.vkg_expr.specs.Steps.{AllFit, Fits};
ghost use Rattle.vkg_expr.specs.Typing.{arity};
ghost use Rattle.vkg_expr.specs.Value.{operator_value, term_cell, term_of as term_in, text_cell, text_of as text_in, truth_cell as cell_of_truth, truth_of as truth_in};

use std::alloc::Global;
use vkg_base::{Memory, Text};
use vkg_cells::{Cell, CellRef, same_ref};
use vkg_expr::Operator;
use vkg_terms::{Annotation, Term, blank_label, iri_safe, is_absolute};
use vkg_values::{Compare, Take, Test, compare_terms, effective_truth, negation, take_of, test_of};

/// Whether a cell is NULL.
#[tactic(auto, using(crate::proofs::Forms::none_same))]
pub fn is_null(cell: &CellRef<'_>) -> bool
    ensures { result ≡ is_null_cell cell.now }
{
    same_ref(cell, &CellRef::truth(true)).is_none()
}

/// The text of a cell, lent as long as the cell is.
#[tactic(auto, using(crate::proofs::Forms::text_form))]
pub fn text_of<'a>(cell: &CellRef<'a>) -> Option<&'a str>
    requires { Fits kind.Text cell.now }
    ensures { option_copied result ≡ text_in cell.now }
{
    cell.form()
}

#[tactic(auto, using(crate::proofs::Forms::truth_form))]
pub fn truth_of(cell: &CellRef<'_>) -> Option<bool>
    requires { Fits kind.Bool cell.now }
    ensures { result ≡ truth_in cell.now }
{
    match cell.form() {
        Some(form) => Some(form == "true"),
        None => None,
    }
}

pub fn truth_cell(truth: Option<bool>) -> Cell
    ensures { result ≡ cell_of_truth truth }
{
    match truth {
        Some(truth) => Cell::Bool(truth),
        None => Cell::Null,
    }
}

pub fn iri(alloc: Global, cell: &CellRef<'_>) -> Result<Cell, Memory>
    requires { Fits kind.Text cell.now }
    ensures { IfOk result (λ c. c ≡ term_cell (option_map Term.Iri (text_in cell.now))) }
{
    match text_of(cell) {
        Some(text) => Ok(Cell::Term(Term::Iri(Text::new(alloc, text)?))),
        None => Ok(Cell::Null),
    }
}

pub fn iri_of(alloc: Global, base: &Text, cell: &CellRef<'_>) -> Result<Cell, Memory>
    requires { Fits kind.Text cell.now }
    ensures { IfOk result (λ c. c ≡ text_cell (option_map (made_absolute base.now) (text_in cell.now))) }
{
    match text_of(cell) {
        Some(text) => Ok(Cell::Text(against(alloc, base, text)?)),
        None => Ok(Cell::Null),
    }
}

fn against(alloc: Global, base: &Text, text: &str) -> Result<Text, Memory>
    ensures { IfOk result (λ t. t ≡ made_absolute base.now text.now) }
{
    if is_absolute(text) {
        return Text::new(alloc, text);
    }
    let mut whole = String::from_str(alloc, base.as_str())?;
    whole.push_str(text)?;
    Ok(Text::from_string(whole))
}

pub fn blank(alloc: Global, cell: &CellRef<'_>) -> Result<Cell, Memory>
    requires { Fits kind.Text cell.now }
    ensures { IfOk result (λ c. c ≡ term_cell (option_map (λ s. Term.Blank (label_of s)) (text_in cell.now))) }
{
    match text_of(cell) {
        Some(text) => {
            let label = blank_label(alloc, text)?;
            Ok(Cell::Term(Term::Blank(Text::from_string(label))))
        }
        None => Ok(Cell::Null),
    }
}

pub fn literal(alloc: Global, cell: &CellRef<'_>, annotation: &Annotation) -> Result<Cell, Memory>
    requires { Fits kind.Text cell.now }
    ensures { IfOk result (λ c. c ≡ term_cell (option_map (λ s. Term.Lit s annotation.now) (text_in cell.now))) }
{
    match text_of(cell) {
        Some(text) => {
            let text = Text::new(alloc, text)?;
            Ok(Cell::Term(Term::Lit(text, annotation.copy()?)))
        }
        None => Ok(Cell::Null),
    }
}

pub fn lexical(alloc: Global, cell: &CellRef<'_>) -> Result<Cell, Memory>
    ensures { IfOk result (λ c. c ≡ text_cell (lexical_form cell.now)) }
{
    match cell.form() {
        Some(form) => Ok(Cell::Text(Text::new(alloc, form)?)),
        None => Ok(Cell::Null),
    }
}

pub fn safe(alloc: Global, cell: &CellRef<'_>) -> Result<Cell, Memory>
    requires { Fits kind.Text cell.now }
    ensures { IfOk result (λ c. c ≡ text_cell (option_map safe_form (text_in cell.now))) }
{
    match text_of(cell) {
        Some(text) => {
            let form = iri_safe(alloc, text)?;
            Ok(Cell::Text(Text::from_string(form)))
        }
        None => Ok(Cell::Null),
    }
}

pub fn equality(a: &CellRef<'_>, b: &CellRef<'_>) -> Cell
    ensures { result ≡ cell_of_truth (same_cells a.now b.now) }
{
    truth_cell(same_ref(a, b))
}

pub fn not(cell: &CellRef<'_>) -> Cell
    requires { Fits kind.Bool cell.now }
    ensures { result ≡ cell_of_truth (not3 (truth_in cell.now)) }
{
    truth_cell(negation(truth_of(cell)))
}

pub fn truth_of_term(alloc: Global, cell: &Cell) -> Result<Cell, Memory>
    requires { Fits kind.Term cell.now }
    ensures { IfOk result (λ c. c ≡ cell_of_truth (option_and_then (ebv widest) (term_in cell.now))) }
{
    match cell {
        Cell::Term(term) => Ok(truth_cell(effective_truth(alloc, term)?)),
        Cell::Null => Ok(Cell::Null),
        _ => unreachable!(),
    }
}

/// What an operator makes of terms.
pub fn operation(alloc: Global, operator: Operator, cells: &[Cell]) -> Result<Cell, Memory>
    requires count { length cells.now ≡ arity operator }
    requires terms { AllFit kind.Term cells.now }
    ensures { IfOk result (λ c. c ≡ operator_value operator cells.now) }
{
    match (operator, cells) {
        (Operator::Test(test), [a]) => tested(alloc, test, a),
        (Operator::Take(take), [a]) => taken(alloc, take, a),
        (Operator::Compare(compare), [a, b]) => compared(alloc, compare, a, b),
        _ => unreachable!(),
    }
}

fn tested(alloc: Global, test: Test, cell: &Cell) -> Result<Cell, Memory>
    requires { Fits kind.Term cell.now }
    ensures { IfOk result (λ c. c ≡ cell_of_truth (option_map (test_value widest test) (term_in cell.now))) }
{
    match cell {
        Cell::Term(term) => Ok(Cell::Bool(test_of(alloc, test, term)?)),
        Cell::Null => Ok(Cell::Null),
        _ => unreachable!(),
    }
}

fn taken(alloc: Global, take: Take, cell: &Cell) -> Result<Cell, Memory>
    requires { Fits kind.Term cell.now }
    ensures { IfOk result (λ c. c ≡ term_cell (option_and_then (take_value take) (term_in cell.now))) }
{
    match cell {
        Cell::Term(term) => match take_of(alloc, take, term)? {
            Some(term) => Ok(Cell::Term(term)),
            None => Ok(Cell::Null),
        },
        Cell::Null => Ok(Cell::Null),
        _ => unreachable!(),
    }
}

fn compared(alloc: Global, compare: Compare, a: &Cell, b: &Cell) -> Result<Cell, Memory>
    requires left { Fits kind.Term a.now }
    requires right { Fits kind.Term b.now }
    ensures { IfOk result (λ c. c ≡ cell_of_truth (on_two (compare_value widest compare) (term_in a.now) (term_in b.now))) }
{
    match (a, b) {
        (Cell::Term(s), Cell::Term(t)) => Ok(truth_cell(compare_terms(alloc, compare, s, t)?)),
        (Cell::Null, _) => Ok(Cell::Null),
        (_, Cell::Null) => Ok(Cell::Null),
        _ => unreachable!(),
    }
}
