use std::alloc::Global;
use std::cmp::Ordering;
use std::process::Abort;
use std::test::Fail;
use vkg_base::{Items, MemSink, Memory, Text};
use vkg_cells::Cell;
use vkg_order::{Candidate, Direction, Keeper, Modifiers, Slice, compare, ranked};
use vkg_terms::{Annotation, Term, term_text};

// A value of a key: nothing, a blank node, an IRI, a plain or a tagged literal, or one of a datatype of XML Schema.
fn value(alloc: Global, sort: &str, text: &str) -> Result<Cell, Memory> {
    let name = Text::new(alloc, text)?;
    match sort {
        "" => Ok(Cell::Null),
        "_:" => Ok(Cell::Term(Term::Blank(name))),
        "<>" => Ok(Cell::Term(Term::Iri(name))),
        "\"" => Ok(Cell::Term(Term::Lit(name, Annotation::Plain))),
        "@" => Ok(Cell::Term(Term::Lit(name, Annotation::Lang(Text::new(alloc, "en")?)))),
        _ => typed(alloc, sort, name),
    }
}

fn typed(alloc: Global, sort: &str, text: Text) -> Result<Cell, Memory> {
    let mut iri = String::from_str(alloc, "http://www.w3.org/2001/XMLSchema#")?;
    iri.push_str(sort)?;
    let annotation = Annotation::typed(Text::from_string(iri));
    Ok(Cell::Term(Term::Lit(text, annotation)))
}

fn compared(alloc: Global, a: (&str, &str), b: (&str, &str)) -> Result<Ordering, Memory> {
    let a = value(alloc, a.0, a.1)?;
    let b = value(alloc, b.0, b.1)?;
    Ok(compare(&a, &b))
}

// SPARQL 1.1, 15.1, and what this project orders beyond it: each value is below the next.
static ASCENDING: [(&str, &str); 22] = [
    ("", ""),
    ("_:", "a"),
    ("_:", "b"),
    ("<>", "http://e/"),
    ("<>", "http://e/a"),
    ("integer", "-10"),
    ("decimal", "-9.5"),
    ("integer", "07"),
    ("integer", "9"),
    ("decimal", "9.01"),
    ("integer", "10"),
    ("\"", "10"),
    ("\"", "9"),
    ("\"", "x"),
    ("boolean", "0"),
    ("boolean", "true"),
    ("dateTime", "2024-02-29T12:00:00"),
    ("dateTime", "2024-02-29T12:00:00.05"),
    ("dateTime", "2024-02-29T12:00:00.5"),
    ("date", "2024-02-29"),
    ("date", "2024-02-29Z"),
    ("integer", "x"),
];

#[test]
fn values_ascend(rt: HostRuntime) -> Result<(), Fail> {
    for i in 1..ASCENDING.len() {
        let (a, b) = (ASCENDING[i - 1], ASCENDING[i]);
        assert!(rt; compared(rt.alloc(), a, b)? == Ordering::Less, "{i}");
        assert!(rt; compared(rt.alloc(), b, a)? == Ordering::Greater, "{i}");
    }
    Ok(())
}

// Values that tie: numbers and moments that are written otherwise.
const TIED: [(&str, &str, &str, &str); 4] = [
    ("integer", "7", "integer", "07"),
    ("integer", "7", "decimal", "7.0"),
    ("boolean", "1", "boolean", "true"),
    (
        "dateTime",
        "2024-02-29T12:00:00.50",
        "dateTime",
        "2024-02-29T12:00:00.5",
    ),
];

#[test]
fn one_value_ties(rt: HostRuntime) -> Result<(), Fail> {
    for &(a_sort, a, b_sort, b) in &TIED {
        let order = compared(rt.alloc(), (a_sort, a), (b_sort, b))?;
        assert!(rt; order == Ordering::Equal, "{a}, {b}");
    }
    Ok(())
}

// Literals without a known value stand by their texts, in which a quote is escaped and ends.
static BY_TEXT: [(&str, &str); 4] = [("@", "a!"), ("@", "a"), ("@", "a#"), ("@", "a\"")];

#[test]
fn others_ascend_by_text(rt: HostRuntime) -> Result<(), Fail> {
    for i in 1..BY_TEXT.len() {
        let order = compared(rt.alloc(), BY_TEXT[i - 1], BY_TEXT[i])?;
        assert!(rt; order == Ordering::Less, "{i}");
    }
    Ok(())
}

// The small company's names by their employees, as a query offers them: the keys ?n and ?e, and the line of ?n.
const OFFERS: [(&str, &str, &str); 3] = [
    ("Bo", "http://e/emp/id=8", "\"Bo\""),
    ("Ann", "http://e/emp/id=9", "\"Ann\""),
    ("Ann", "http://e/emp/id=7", "\"Ann\""),
];

fn offer(
    alloc: Global,
    keeper: &mut Keeper,
    by_name: bool,
    entry: (&str, &str, &str),
) -> Result<(), Memory> {
    let mut keys = Vec::new(alloc);
    if by_name {
        keys.push(value(alloc, "\"", entry.0)?)?;
    }
    keys.push(value(alloc, "<>", entry.1)?)?;
    keeper.offer(keys, String::from_str(alloc, entry.2)?)
}

// What is written of the three offers.
fn written(alloc: Global, by_name: bool, distinct: bool, slice: Slice) -> Result<String, Memory> {
    let mut directions = Items::new(alloc);
    directions.push(Direction::Descending)?;
    if by_name {
        directions.push(Direction::Ascending)?;
    }
    let mut keeper = Keeper::new(
        alloc,
        Modifiers {
            directions,
            distinct,
            slice,
        },
    );
    for &entry in &OFFERS {
        offer(alloc, &mut keeper, by_name, entry)?;
    }
    let lines = keeper.finish(alloc)?;
    let mut sink = MemSink::with_room(alloc, 99, Vec::new(alloc))?;
    let _taken = lines.write_all(&mut sink);
    Ok(String::from_utf8_lossy(alloc, sink.taken())?)
}

// All tests say so here, since each place that says it is proved.
fn told(rt: &impl Abort, found: Result<String, Memory>, expected: &str) -> Result<(), Fail> {
    let found = found?;
    assert_eq!(rt; found.as_str(), expected);
    Ok(())
}

#[test]
fn lines_stand_in_the_asked_order(rt: HostRuntime) -> Result<(), Fail> {
    for &(offset, limit, lines) in &[
        (0, None, "\"Bo\"\n\"Ann\"\n\"Ann\"\n"),
        (0, Some(2), "\"Bo\"\n\"Ann\"\n"),
        (1, Some(1), "\"Ann\"\n"),
        (0, Some(0), ""),
        (3, None, ""),
    ] {
        told(
            &rt,
            written(rt.alloc(), true, false, Slice { offset, limit }),
            lines,
        )?;
    }
    Ok(())
}

#[test]
fn each_line_once_at_its_first_place(rt: HostRuntime) -> Result<(), Fail> {
    for &(offset, limit, lines) in &[
        (0, None, "\"Ann\"\n\"Bo\"\n"),
        (0, Some(1), "\"Ann\"\n"),
        (1, Some(1), "\"Bo\"\n"),
    ] {
        told(
            &rt,
            written(rt.alloc(), false, true, Slice { offset, limit }),
            lines,
        )?;
    }
    Ok(())
}

// An employee as a solution, whose key is the name.
fn candidate(alloc: Global, entry: (&str, &str, &str)) -> Result<Candidate, Memory> {
    let mut cells = Vec::new(alloc);
    cells.push(value(alloc, "<>", entry.1)?)?;
    cells.push(value(alloc, "\"", entry.0)?)?;
    Ok(Candidate::new(1, cells, String::from_str(alloc, entry.1)?))
}

// The employees that are asked, from the greatest name on.
fn employees(alloc: Global, slice: Slice) -> Result<String, Memory> {
    let mut directions = Items::new(alloc);
    directions.push(Direction::Descending)?;
    let modifiers = Modifiers {
        directions,
        distinct: false,
        slice,
    };
    let mut candidates = Vec::new(alloc);
    for entry in OFFERS {
        candidates.push(candidate(alloc, entry)?)?;
    }
    let mut text = String::new(alloc);
    for found in ranked(&modifiers, candidates)? {
        if let Some(Cell::Term(term)) = found.cells().first() {
            text.push_str(term_text(alloc, term)?.as_str())?;
        }
    }
    Ok(text)
}

#[test]
fn solutions_stand_in_the_asked_order(rt: HostRuntime) -> Result<(), Fail> {
    for (offset, limit, terms) in [
        (
            0,
            None,
            "<http://e/emp/id=8><http://e/emp/id=7><http://e/emp/id=9>",
        ),
        (1, Some(1), "<http://e/emp/id=7>"),
        (0, Some(0), ""),
        (3, None, ""),
    ] {
        let found = employees(rt.alloc(), Slice { offset, limit })?;
        assert_eq!(rt; found.as_str(), terms);
    }
    Ok(())
}
