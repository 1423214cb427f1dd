use crate::told::told;
use std::alloc::Global;
use std::test::Fail;
use vkg_base::{Items, Memory, Text};
use vkg_maps::{Piece, TermMap, TermType};
use vkg_quads::made_term;
use vkg_schema::read_schema;
use vkg_tables::{Database, TableRow};
use vkg_terms::{Annotation, term_text};

const INTEGER: &str = "http://www.w3.org/2001/XMLSchema#integer";

/// `http://e/` and the first column.
fn template(alloc: Global, term_type: TermType) -> Result<TermMap, Memory> {
    let mut pieces = Items::new(alloc);
    pieces.push(Piece::Fixed(Text::new(alloc, "http://e/")?))?;
    pieces.push(Piece::Column(0))?;
    Ok(TermMap::Template(pieces, term_type))
}

/// A table of one column of texts, with a row of this field.
fn table_of(alloc: Global, field: &str) -> Result<Database, Fail> {
    let schema = read_schema(alloc, b"CREATE TABLE t (v VARCHAR(50));")?;
    let mut database = Database::new(alloc, &schema)?;
    let mut file = String::from_str(alloc, "v\n")?;
    file.push_str(field)?;
    file.push('\n')?;
    if database.schema().tables().is_empty() {
        return Err(Fail::new("no table"));
    }
    database.load_table(alloc, 0, file.as_bytes())?;
    Ok(database)
}

/// The text of the term of a row, `none`, or the code of its fault.
fn shown(alloc: Global, map: &TermMap, row: &TableRow<'_>) -> Result<String, Memory> {
    match made_term(alloc, "http://e/", map, row)? {
        Ok(Some(term)) => term_text(alloc, &term),
        Ok(None) => Ok(String::from_str(alloc, "none")?),
        Err(fault) => match fault.check() {
            1 => Ok(String::from_str(alloc, "X01")?),
            2 => Ok(String::from_str(alloc, "X02")?),
            _ => Ok(String::from_str(alloc, "X03")?),
        },
    }
}

/// As `shown`, of the row of one field.
fn shown_field(alloc: Global, map: &TermMap, field: &str) -> Result<String, Fail> {
    let database = table_of(alloc, field)?;
    let rows = database.table(0);
    if rows.len() == 0 {
        return Err(Fail::new("no row"));
    }
    Ok(shown(alloc, map, &rows.row(0))?)
}

#[test]
fn a_column_gives_iris(rt: HostRuntime) -> Result<(), Fail> {
    let map = TermMap::Column(0, TermType::Iri);
    for &(cell, expected) in &[
        ("q", "<http://e/q>"),
        ("http://e/q", "<http://e/q>"),
        ("a b", "X01"),
        ("\\N", "none"),
    ] {
        told(&rt, cell, shown_field(rt.alloc(), &map, cell), expected)?;
    }
    Ok(())
}

#[test]
fn a_form_is_of_its_datatype(rt: HostRuntime) -> Result<(), Fail> {
    let datatype = Annotation::typed(Text::new(rt.alloc(), INTEGER)?);
    let map = TermMap::Column(0, TermType::Literal(datatype));
    for &(cell, expected) in &[
        ("01", "\"01\"^^<http://www.w3.org/2001/XMLSchema#integer>"),
        ("x", "X02"),
        ("999999999999999999999999999999999999999", "X03"),
    ] {
        told(&rt, cell, shown_field(rt.alloc(), &map, cell), expected)?;
    }
    Ok(())
}

#[test]
fn a_template_is_made_safe_in_an_iri(rt: HostRuntime) -> Result<(), Fail> {
    let map = template(rt.alloc(), TermType::Iri)?;
    told(
        &rt,
        "a b/é%",
        shown_field(rt.alloc(), &map, "a b/é%"),
        "<http://e/a%20b%2Fé%25>",
    )
}

#[test]
fn a_template_is_kept_in_a_literal(rt: HostRuntime) -> Result<(), Fail> {
    let map = template(rt.alloc(), TermType::Literal(Annotation::Plain))?;
    told(
        &rt,
        "a b",
        shown_field(rt.alloc(), &map, "a b"),
        "\"http://e/a b\"",
    )
}

#[test]
fn a_blank_node_is_labelled_by_octets(rt: HostRuntime) -> Result<(), Fail> {
    let map = TermMap::Column(0, TermType::Blank);
    told(&rt, "q1", shown_field(rt.alloc(), &map, "q1"), "_:b7131")
}
