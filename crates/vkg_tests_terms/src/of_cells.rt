ghost use Rattle.vkg_cells.specs.Order.{HasNumber};

use std::alloc::Global;
use std::cmp::Ordering;
use std::test::Fail;
use vkg_base::Memory;
use vkg_cells::{
    Cell, CellRef, FieldFault, SqlType, form, is_too_wide, is_well_typed, key_parts, lex, natural,
    order, order_ref, read_cell, same, same_ref,
};
use vkg_terms::Annotation;

/// Whether the cell has this form, lent and owned.
fn has_form(rt: &HostRuntime, cell: &Cell, expected: &str) -> bool {
    match lex(rt.alloc(), cell) {
        Ok(Some(owned)) => owned.as_str() == expected && form(cell) == Some(expected),
        _ => false,
    }
}

/// Whether a copy of the cell has this form.
fn copy_has_form(rt: &HostRuntime, cell: &Cell, expected: &str) -> bool {
    match cell.copy() {
        Ok(copy) => has_form(rt, &copy, expected),
        Err(_) => false,
    }
}

/// Whether the field is read as a cell of this form, which a copy has too.
fn reads_as(rt: &HostRuntime, kind: SqlType, field: &str, expected: &str) -> bool {
    match read_cell(rt.alloc(), kind, field) {
        Ok(cell) => has_form(rt, &cell, expected) && copy_has_form(rt, &cell, expected),
        Err(_) => false,
    }
}

/// Whether the natural datatype of the kind is this one of XML Schema.
fn is_natural(rt: &HostRuntime, kind: SqlType, expected: &str) -> bool {
    match natural(rt.alloc(), kind) {
        Ok(Annotation::Typed(datatype)) => {
            datatype
                .iri()
                .as_str()
                .strip_prefix("http://www.w3.org/2001/XMLSchema#")
                == Some(expected)
        }
        _ => false,
    }
}

/// Why the field is refused.
fn fault(rt: &HostRuntime, kind: SqlType, field: &str) -> Option<FieldFault> {
    match read_cell(rt.alloc(), kind, field) {
        Ok(_) => None,
        Err(fault) => Some(fault),
    }
}

#[test]
fn accepted_fields(rt: HostRuntime) {
    for &(kind, field, expected) in &[
        (SqlType::Text, " a ", " a "),
        (SqlType::Int, "+7", "7"),
        (SqlType::Int, "-007", "-7"),
        (SqlType::Int, "-0", "0"),
        (SqlType::Dec, "007.500", "7.5"),
        (SqlType::Dec, "-0.0", "0"),
        (SqlType::Dec, "-.50", "-0.5"),
        (SqlType::Dec, "+5.", "5"),
        (SqlType::Bool, "T", "true"),
        (SqlType::Date, "2024-02-29", "2024-02-29"),
        (
            SqlType::Stamp,
            "2024-02-29 12:00:00.500",
            "2024-02-29T12:00:00.5",
        ),
        (SqlType::Bin, "0aFF", "0AFF"),
        (SqlType::Time, "09:05:00.500", "09:05:00.5"),
        (SqlType::Time, "23:59:59.000", "23:59:59"),
    ] {
        assert!(rt; reads_as(&rt, kind, field, expected), "{field}");
    }
}

#[test]
fn null_has_no_form(rt: HostRuntime) {
    assert!(rt; matches!(lex(rt.alloc(), &Cell::Null), Ok(None)));
    assert!(rt; matches!(Cell::Null.copy(), Ok(Cell::Null)));
}

#[test]
fn natural_datatypes(rt: HostRuntime) {
    for &(kind, expected) in &[
        (SqlType::Int, "integer"),
        (SqlType::Dec, "decimal"),
        (SqlType::Bool, "boolean"),
        (SqlType::Date, "date"),
        (SqlType::Stamp, "dateTime"),
        (SqlType::Bin, "hexBinary"),
        (SqlType::Time, "time"),
    ] {
        assert!(rt; is_natural(&rt, kind, expected), "{expected}");
    }
    assert!(rt; matches!(natural(rt.alloc(), SqlType::Text), Ok(Annotation::Plain)));
}

#[test]
fn refused_fields(rt: HostRuntime) {
    for &(kind, field) in &[
        (SqlType::Int, "1.0"),
        (SqlType::Dec, "."),
        (SqlType::Bool, "yes"),
        (SqlType::Date, "2023-02-29"),
        (SqlType::Date, "0000-01-01"),
        (SqlType::Stamp, "2024-02-29 24:00:00"),
        (SqlType::Stamp, "2024-02-29 12:00:00."),
        (SqlType::Bin, "0aF"),
        (SqlType::Time, "24:00:00"),
        (SqlType::Time, "09:05:00."),
        (SqlType::Time, "9:05:00"),
        (SqlType::Term, "a"),
    ] {
        let fault = fault(&rt, kind, field);
        assert!(rt; fault == Some(FieldFault::BadValue), "{field}");
    }
    let wide = "123456789012345678901234567890123456789";
    assert!(rt; fault(&rt, SqlType::Dec, wide) == Some(FieldFault::TooWide));
}

/// The IRI of a datatype of XML Schema.
fn datatype(alloc: Global, name: &str) -> Result<String, Memory> {
    Ok(format!(in alloc; "http://www.w3.org/2001/XMLSchema#{name}")?)
}

/// Whether the text is a form of the datatype, if it is not too wide for it.
fn is_form(alloc: Global, name: &str, text: &str) -> Result<Option<bool>, Memory> {
    let datatype = datatype(alloc, name)?;
    if is_too_wide(datatype.as_str(), text) {
        return Ok(None);
    }
    Ok(Some(is_well_typed(datatype.as_str(), text)))
}

#[test]
fn well_typed_forms(rt: HostRuntime) -> Result<(), Fail> {
    for &(name, text, expected) in &[
        ("integer", "+007", true),
        ("decimal", ".5", true),
        ("decimal", "5e1", false),
        ("boolean", "TRUE", false),
        ("date", "2024-02-29-13:59", true),
        ("date", "2024-02-29+14:30", false),
        ("dateTime", "2024-02-29T24:00:00.00+14:00", true),
        ("dateTime", "2024-02-29T24:00:00.01", false),
        ("dateTime", "2024-02-29T23:59:59.1234567890123Z", true),
    ] {
        let found = is_form(rt.alloc(), name, text)?;
        assert!(rt; found == Some(expected), "{text}");
    }
    Ok(())
}

/// How a cell and a decimal are ordered, and whether they are the same.
fn beside_decimal(rt: &HostRuntime, a: &Cell, other: &str) -> Option<(Ordering, Option<bool>)>
    requires { HasNumber a.now }
{
    match read_cell(rt.alloc(), SqlType::Dec, other) {
        Ok(b) => Some((order(a, &b), same(a, &b))),
        Err(_) => None,
    }
}

/// Whether a field and a decimal are ordered so, and whether their cells are the same.
fn are_ordered(
    rt: &HostRuntime,
    kind: SqlType,
    field: &str,
    other: &str,
    expected: (Ordering, bool),
) -> bool {
    match read_cell(rt.alloc(), kind, field) {
        Ok(a) => beside_decimal(rt, &a, other) == Some((expected.0, Some(expected.1))),
        Err(_) => false,
    }
}

#[test]
fn cells_in_order(rt: HostRuntime) {
    for &(kind, field, other, order, same) in &[
        (SqlType::Int, "-10", "-9.5", Ordering::Less, false),
        (SqlType::Int, "10", "9.99", Ordering::Greater, false),
        (SqlType::Int, "7", "7.0", Ordering::Equal, true),
        (SqlType::Text, "7", "7.0", Ordering::Less, false),
    ] {
        assert!(rt;
            are_ordered(&rt, kind, field, other, (order, same)),
            "{field}, {other}"
        );
    }
}

fn has_no_key(rt: &HostRuntime, cell: &CellRef<'_>) -> bool {
    matches!(key_parts(rt.alloc(), cell), Ok(None))
}

fn becomes_decimal(rt: &HostRuntime, cell: &CellRef<'_>) -> bool {
    matches!(cell.to_cell(rt.alloc()), Ok(Cell::Dec(_)))
}

#[test]
fn lent_nulls(rt: HostRuntime) {
    let null = CellRef::null();
    assert!(rt; same_ref(&null, &null.shown()) == None);
    assert!(rt; has_no_key(&rt, &null));
}

#[test]
fn lent_numbers(rt: HostRuntime) {
    let seven = CellRef::int("7");
    let other = CellRef::dec("7");
    assert!(rt; same_ref(&seven, &other) == Some(true));
    assert!(rt; becomes_decimal(&rt, &other));
}

#[test]
fn lent_times(rt: HostRuntime) {
    let early = CellRef::time("09:05:00");
    let late = CellRef::time("09:05:00.5");
    assert!(rt; order_ref(&early, &late) == Ordering::Less);
    assert!(rt; late.form() == Some("09:05:00.5"));
}
