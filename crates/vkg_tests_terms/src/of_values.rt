use std::alloc::Global;
use std::process::Abort;
use std::test::Fail;
use vkg_base::{Memory, Text};
use vkg_terms::{Annotation, Term};
use vkg_values::{
    Compare, Take, Test, compare_terms, conjunction, disjunction, effective_truth, known_value,
    negation, take_of, test_of,
};

// A literal of a datatype of XML Schema.
fn typed(alloc: Global, name: &str, text: &str) -> Result<Term, Memory> {
    let mut iri = String::from_str(alloc, "http://www.w3.org/2001/XMLSchema#")?;
    iri.push_str(name)?;
    let text = Text::new(alloc, text)?;
    Ok(Term::Lit(text, Annotation::typed(Text::from_string(iri))))
}

fn tagged(alloc: Global, text: &str, tag: &str) -> Result<Term, Memory> {
    let text = Text::new(alloc, text)?;
    Ok(Term::Lit(text, Annotation::Lang(Text::new(alloc, tag)?)))
}

// Two literals, each with its datatype, and the answers of `=` and of `<`.
const COMPARED: [(&str, &str, &str, &str, Option<bool>, Option<bool>); 13] = [
    ("integer", "01", "integer", "1", Some(true), Some(false)),
    ("integer", "9", "decimal", "10.0", Some(false), Some(true)),
    ("decimal", "-0.0", "integer", "+0", Some(true), Some(false)),
    ("integer", "x", "integer", "x", Some(true), None),
    ("integer", "x", "integer", "1", None, None),
    ("string", "b", "string", "a", Some(false), Some(false)),
    ("boolean", "0", "boolean", "true", Some(false), Some(true)),
    ("boolean", "1", "boolean", "true", Some(true), Some(false)),
    (
        "date",
        "2024-02-29",
        "date",
        "2024-03-01",
        Some(false),
        Some(true),
    ),
    ("date", "2024-02-29Z", "date", "2024-03-01", None, None),
    (
        "dateTime",
        "2024-02-29T12:00:00.50",
        "dateTime",
        "2024-02-29T12:00:00.5",
        Some(true),
        Some(false),
    ),
    (
        "dateTime",
        "2024-02-29T24:00:00",
        "dateTime",
        "2024-02-29T12:00:00",
        None,
        None,
    ),
    ("time", "09:05:00.50", "time", "09:05:00.5", None, None),
];

// What a comparison answers of two literals, each with its datatype.
fn compared(
    alloc: Global,
    compare: Compare,
    a: (&str, &str),
    b: (&str, &str),
) -> Result<Option<bool>, Memory> {
    let a = typed(alloc, a.0, a.1)?;
    let b = typed(alloc, b.0, b.1)?;
    compare_terms(alloc, compare, &a, &b)
}

// What is answered of these texts.
fn answered(
    rt: &impl Abort,
    found: Result<Option<bool>, Memory>,
    expected: Option<bool>,
    a: &str,
    b: &str,
) -> Result<(), Fail> {
    let found = found?;
    assert_eq!(rt; found, expected, "{a}, {b}");
    Ok(())
}

// What each comparison answers, given the answers of `=` and of `<`.
fn all_compared(
    rt: &impl Abort,
    alloc: Global,
    a: (&str, &str),
    b: (&str, &str),
    equal: Option<bool>,
    less: Option<bool>,
) -> Result<(), Fail> {
    let (not_equal, not_less) = (negation(equal), negation(less));
    answered(rt, compared(alloc, Compare::Equal, a, b), equal, a.1, b.1)?;
    answered(
        rt,
        compared(alloc, Compare::NotEqual, a, b),
        not_equal,
        a.1,
        b.1,
    )?;
    answered(rt, compared(alloc, Compare::Less, a, b), less, a.1, b.1)?;
    answered(rt, compared(alloc, Compare::Greater, b, a), less, a.1, b.1)?;
    answered(
        rt,
        compared(alloc, Compare::GreaterOrEqual, a, b),
        not_less,
        a.1,
        b.1,
    )?;
    answered(
        rt,
        compared(alloc, Compare::LessOrEqual, b, a),
        not_less,
        a.1,
        b.1,
    )
}

// SPARQL 1.1 Query, 17.3: the answers of `=` and of `<`.
#[test]
fn literals_compare_by_value(rt: HostRuntime) -> Result<(), Fail> {
    for &(a_type, a, b_type, b, equal, less) in &COMPARED {
        all_compared(&rt, rt.alloc(), (a_type, a), (b_type, b), equal, less)?;
    }
    Ok(())
}

fn truth_of(alloc: Global, term: Result<Term, Memory>) -> Result<Option<bool>, Memory> {
    let term = term?;
    effective_truth(alloc, &term)
}

// SPARQL 1.1 Query, 17.2.2.
#[test]
fn literals_have_truths(rt: HostRuntime) -> Result<(), Fail> {
    let rows = &[
        ("boolean", "1", Some(true)),
        ("boolean", "yes", Some(false)),
        ("integer", "-0", Some(false)),
        ("decimal", "0.10", Some(true)),
        ("integer", "1.5", Some(false)),
        ("string", "", Some(false)),
        ("string", "0", Some(true)),
        ("date", "2024-02-29", None),
        ("hexBinary", "00", None),
    ];
    for &(name, text, truth) in rows {
        let found = truth_of(rt.alloc(), typed(rt.alloc(), name, text));
        answered(&rt, found, truth, name, text)?;
    }
    let found = truth_of(rt.alloc(), tagged(rt.alloc(), "", "en"));
    answered(&rt, found, Some(false), "tagged", "")
}

// What is asked of 7.
fn seven_is(alloc: Global, test: Test) -> Result<bool, Memory> {
    let number = typed(alloc, "integer", "7")?;
    test_of(alloc, test, &number)
}

// Whether the value of a term is known.
fn is_known(alloc: Global, term: Result<Term, Memory>) -> Result<bool, Memory> {
    let term = term?;
    Ok(known_value(alloc, &term)?.is_some())
}

// SPARQL 1.1 Query, 17.4.2.
#[test]
fn a_number_is_asked(rt: HostRuntime) -> Result<(), Fail> {
    for &(test, holds) in &[
        (Test::IsNumeric, true),
        (Test::IsLiteral, true),
        (Test::IsIri, false),
        (Test::IsBlank, false),
    ] {
        assert!(rt; seven_is(rt.alloc(), test)? == holds);
    }
    assert!(rt; is_known(rt.alloc(), typed(rt.alloc(), "integer", "7"))?);
    Ok(())
}

// What is taken from a term.
fn taken(alloc: Global, take: Take, term: Result<Term, Memory>) -> Result<Option<Term>, Memory> {
    let term = term?;
    take_of(alloc, take, &term)
}

fn is_nothing(taken: Result<Option<Term>, Memory>) -> Result<bool, Memory> {
    Ok(taken?.is_none())
}

// Whether it is the literal of this datatype and text that is taken.
fn is_literal(
    alloc: Global,
    taken: Result<Option<Term>, Memory>,
    name: &str,
    text: &str,
) -> Result<bool, Memory> {
    match taken? {
        Some(taken) => is_typed(alloc, &taken, name, text),
        None => Ok(false),
    }
}

fn is_typed(alloc: Global, term: &Term, name: &str, text: &str) -> Result<bool, Memory> {
    let expected = typed(alloc, name, text)?;
    Ok(term.same(&expected))
}

fn hello(alloc: Global) -> Result<Term, Memory> {
    tagged(alloc, "hello", "en")
}

#[test]
fn a_tag_and_a_text_are_taken(rt: HostRuntime) -> Result<(), Fail> {
    let alloc = rt.alloc();
    assert!(rt; !is_known(alloc, hello(alloc))?);
    let tag = taken(alloc, Take::Lang, hello(alloc));
    assert!(rt; is_literal(alloc, tag, "string", "en")?);
    let text = taken(alloc, Take::Str, hello(alloc));
    assert!(rt; is_literal(alloc, text, "string", "hello")?);
    Ok(())
}

fn blank(alloc: Global) -> Result<Term, Memory> {
    Ok(Term::Blank(Text::new(alloc, "b1")?))
}

#[test]
fn nothing_is_taken_from_a_blank_node(rt: HostRuntime) -> Result<(), Fail> {
    let alloc = rt.alloc();
    assert!(rt; is_nothing(taken(alloc, Take::Str, blank(alloc)))?);
    assert!(rt; is_nothing(taken(alloc, Take::Datatype, blank(alloc)))?);
    Ok(())
}

// A string, plain where the tag is empty, or with the tag.
fn string(alloc: Global, text: &str, tag: &str) -> Result<Term, Memory> {
    if tag.is_empty() {
        typed(alloc, "string", text)
    } else {
        tagged(alloc, text, tag)
    }
}

// Two strings, each with its tag, and the answers of STRSTARTS, STRENDS and CONTAINS.
const STRINGS: [((&str, &str), (&str, &str), [Option<bool>; 3]); 8] = [
    (
        ("abc", ""),
        ("ab", ""),
        [Some(true), Some(false), Some(true)],
    ),
    (
        ("abc", ""),
        ("bc", ""),
        [Some(false), Some(true), Some(true)],
    ),
    (
        ("abc", "en"),
        ("", ""),
        [Some(true), Some(true), Some(true)],
    ),
    (
        ("a\u{fc}b", ""),
        ("\u{fc}", ""),
        [Some(false), Some(false), Some(true)],
    ),
    (
        ("a", ""),
        ("ab", ""),
        [Some(false), Some(false), Some(false)],
    ),
    (
        ("a", "en"),
        ("a", "en"),
        [Some(true), Some(true), Some(true)],
    ),
    (("a", "en"), ("a", "fr"), [None, None, None]),
    (("a", ""), ("a", "en"), [None, None, None]),
];

// What is answered of two strings, each with its tag.
fn of_strings(
    alloc: Global,
    compare: Compare,
    a: (&str, &str),
    b: (&str, &str),
) -> Result<Option<bool>, Memory> {
    let a = string(alloc, a.0, a.1)?;
    let b = string(alloc, b.0, b.1)?;
    compare_terms(alloc, compare, &a, &b)
}

// SPARQL 1.1 Query, 17.4.3.6 to 17.4.3.8.
#[test]
fn strings_are_parts_of_strings(rt: HostRuntime) -> Result<(), Fail> {
    for &(text, part, [starts, ends, contains]) in &STRINGS {
        let found = of_strings(rt.alloc(), Compare::Starts, text, part);
        answered(&rt, found, starts, text.0, part.0)?;
        let found = of_strings(rt.alloc(), Compare::Ends, text, part);
        answered(&rt, found, ends, text.0, part.0)?;
        let found = of_strings(rt.alloc(), Compare::Contains, text, part);
        answered(&rt, found, contains, text.0, part.0)?;
    }
    Ok(())
}

// Whether STRLEN of a term is the number of this text.
fn is_long(alloc: Global, term: Result<Term, Memory>, number: &str) -> Result<bool, Memory> {
    is_literal(alloc, taken(alloc, Take::Length, term), "integer", number)
}

// SPARQL 1.1 Query, 17.4.3.2.
#[test]
fn characters_are_counted(rt: HostRuntime) -> Result<(), Fail> {
    for &(text, tag, number) in &[
        ("", "", "0"),
        ("a\u{fc}b", "", "3"),
        ("\u{1f600}", "en", "1"),
        ("abcdefghijkl", "", "12"),
    ] {
        let term = string(rt.alloc(), text, tag);
        assert!(rt; is_long(rt.alloc(), term, number)?);
    }
    let number = typed(rt.alloc(), "integer", "1");
    assert!(rt; is_nothing(taken(rt.alloc(), Take::Length, number))?);
    Ok(())
}

// SPARQL 1.1 Query, 17.2: an error beside a truth.
#[test]
fn errors_are_a_third_value(rt: HostRuntime) -> Result<(), Fail> {
    assert!(rt; conjunction(None, Some(false)) == Some(false));
    assert!(rt; conjunction(None, Some(true)) == None);
    assert!(rt; disjunction(Some(true), None) == Some(true));
    assert!(rt; disjunction(Some(false), None) == None);
    Ok(())
}
