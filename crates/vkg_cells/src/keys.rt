ghost use Rattle.std.specs.Prelude.{◌≡◌, ◌∷◌, ◌<◌, IfOk, Some, [], option_map, string_bytes};
ghost use Rattle.vkg_cells.specs.Keys.{HasExactKey, both_bytes, key_parts as key_parts_of, term_tag as term_tag_of};
ghost use Rattle.vkg_terms.specs.Same.{annotation_name, term_annotation, term_name};

use crate::cell_ref::{CellRef, Lent};
use crate::term_order::annotation_text;
use std::alloc::Global;
use vkg_base::Memory;
use vkg_terms::{Annotation, Term};

/// Two texts by which a cell is found: another cell has them exactly where it is the same. NULL has none.
pub fn key_parts(alloc: Global, cell: &CellRef<'_>) -> Result<Option<(String, String)>, Memory>
    ensures parts { IfOk result (λ o. option_map both_bytes o ≡ key_parts_of cell.now) }
    ensures exact { HasExactKey cell.now }
{
    parts(alloc, cell)
}

fn parts(alloc: Global, cell: &CellRef<'_>) -> Result<Option<(String, String)>, Memory>
    ensures { IfOk result (λ o. option_map both_bytes o ≡ key_parts_of cell.now) }
{
    match cell.lent {
        Lent::Null => Ok(None),
        Lent::Text(text) => of_form(alloc, '1', text),
        Lent::Int(text) => of_form(alloc, '2', text),
        Lent::Dec(text) => of_form(alloc, '2', text),
        Lent::Bool(true) => of_form(alloc, '3', "true"),
        Lent::Bool(false) => of_form(alloc, '3', "false"),
        Lent::Date(text) => of_form(alloc, '4', text),
        Lent::Stamp(text) => of_form(alloc, '5', text),
        Lent::Bin(text) => of_form(alloc, '6', text),
        Lent::Time(text) => of_form(alloc, '7', text),
        Lent::Term(term) => of_term(alloc, term),
    }
}

/// A family's digit with a form, and nothing.
fn of_form(alloc: Global, digit: char, form: &str) -> Result<Option<(String, String)>, Memory>
    requires { digit < 128 }
    ensures { IfOk result (λ o. option_map both_bytes o ≡ Some (digit ∷ form.now, [])) }
{
    let text = tagged(alloc, digit, form)?;
    Ok(Some((text, String::new(alloc))))
}

/// A term's letter with its text, and its tag or datatype.
fn of_term(alloc: Global, term: &Term) -> Result<Option<(String, String)>, Memory>
    ensures { IfOk result (λ o. option_map both_bytes o ≡ Some (term_tag_of term.now ∷ term_name term.now, annotation_name (term_annotation term.now))) }
{
    let text = tagged(alloc, term_tag(term), term.name())?;
    let annotation = String::from_str(alloc, annotation_text(term))?;
    Ok(Some((text, annotation)))
}

fn term_tag(term: &Term) -> char
    ensures value { result ≡ term_tag_of term.now }
    ensures ascii { result < 128 }
{
    match term {
        Term::Iri(_) => 'I',
        Term::Blank(_) => 'B',
        Term::Lit(_, Annotation::Plain) => 'P',
        Term::Lit(_, Annotation::Lang(_)) => 'L',
        Term::Lit(_, Annotation::Typed(_)) => 'T',
    }
}

fn tagged(alloc: Global, tag: char, text: &str) -> Result<String, Memory>
    requires { tag < 128 }
    ensures { IfOk result (λ s. string_bytes s ≡ tag ∷ text.now) }
{
    let mut out = String::new(alloc);
    out.push(tag)?;
    out.push_str(text)?;
    Ok(out)
}
