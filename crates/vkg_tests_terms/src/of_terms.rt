use std::alloc::Global;
use std::test::Fail;
use vkg_base::{Memory, Text};
use vkg_terms::*;

/// Whether this is the safe form of the text in an IRI.
fn is_safe_form(rt: &HostRuntime, text: &str, form: &str) -> bool {
    match iri_safe(rt.alloc(), text) {
        Ok(safe) => safe.as_str() == form,
        Err(_) => false,
    }
}

#[test]
fn safe_forms(rt: HostRuntime) {
    let rows = &[
        ("a b/é%", "a%20b%2Fé%25"),
        ("-._~09AZaz", "-._~09AZaz"),
        ("/:@[`{", "%2F%3A%40%5B%60%7B"),
        ("\u{9F}\u{A0}\u{D7FF}", "%C2%9F\u{A0}\u{D7FF}"),
        (
            "\u{E000}\u{F8FF}\u{F900}\u{FDCF}",
            "%EE%80%80%EF%A3%BF\u{F900}\u{FDCF}",
        ),
        (
            "\u{FDD0}\u{FDEF}\u{FDF0}\u{FFEF}",
            "%EF%B7%90%EF%B7%AF\u{FDF0}\u{FFEF}",
        ),
    ];
    for &(text, form) in rows {
        assert!(rt; is_safe_form(&rt, text, form), "{text}");
    }
}

#[test]
fn safe_forms_of_other_planes(rt: HostRuntime) {
    let rows = &[
        (
            "\u{FFF0}\u{FFFF}\u{10000}\u{1FFFD}",
            "%EF%BF%B0%EF%BF%BF\u{10000}\u{1FFFD}",
        ),
        (
            "\u{1FFFE}\u{1FFFF}\u{20000}\u{DFFFD}",
            "%F0%9F%BF%BE%F0%9F%BF%BF\u{20000}\u{DFFFD}",
        ),
        (
            "\u{2FFFD}\u{30000}\u{3FFFD}\u{40000}\u{4FFFD}\u{50000}",
            "\u{2FFFD}\u{30000}\u{3FFFD}\u{40000}\u{4FFFD}\u{50000}",
        ),
        (
            "\u{5FFFD}\u{60000}\u{6FFFD}\u{70000}\u{7FFFD}\u{80000}",
            "\u{5FFFD}\u{60000}\u{6FFFD}\u{70000}\u{7FFFD}\u{80000}",
        ),
        (
            "\u{8FFFD}\u{90000}\u{9FFFD}\u{A0000}\u{AFFFD}\u{B0000}",
            "\u{8FFFD}\u{90000}\u{9FFFD}\u{A0000}\u{AFFFD}\u{B0000}",
        ),
        (
            "\u{BFFFD}\u{C0000}\u{CFFFD}\u{D0000}",
            "\u{BFFFD}\u{C0000}\u{CFFFD}\u{D0000}",
        ),
        (
            "\u{DFFFE}\u{E0FFF}\u{E1000}\u{EFFFD}",
            "%F3%9F%BF%BE%F3%A0%BF%BF\u{E1000}\u{EFFFD}",
        ),
        ("\u{EFFFE}\u{10FFFF}", "%F3%AF%BF%BE%F4%8F%BF%BF"),
    ];
    for &(text, form) in rows {
        assert!(rt; is_safe_form(&rt, text, form), "{text}");
    }
}

/// Whether this is the label of the blank node of the text.
fn is_label(rt: &HostRuntime, text: &str, expected: &str) -> bool {
    match blank_label(rt.alloc(), text) {
        Ok(label) => label.as_str() == expected,
        Err(_) => false,
    }
}

#[test]
fn labels(rt: HostRuntime) {
    assert!(rt; is_label(&rt, "q1", "b7131"));
    assert!(rt; is_label(&rt, "é", "bc3a9"));
}

#[test]
fn absolute_iris(rt: HostRuntime) {
    for &iri in &["http://e/", "a:", "a+1.-:b", "http://e/é"] {
        assert!(rt; is_absolute(iri), "{iri}");
    }
}

#[test]
fn texts_that_are_no_absolute_iris(rt: HostRuntime) {
    for &text in &[
        "",
        "e",
        ":a",
        "1a:b",
        "http://e/a b",
        "http://e/<",
        "http://e/>",
        "http://e/\"",
        "http://e/{",
        "http://e/}",
        "http://e/|",
        "http://e/^",
        "http://e/`",
        "http://e/\\",
        "http://e/\u{0}",
        "http://e/\u{1F}",
        "a\u{e9}:b",
    ] {
        assert!(rt; !is_absolute(text), "{text}");
    }
}

/// The examples of RFC 3986, 5.4.1 and 5.4.2.
const EXAMPLES: [(&str, &str); 42] = [
    ("g:h", "g:h"),
    ("g", "http://a/b/c/g"),
    ("./g", "http://a/b/c/g"),
    ("g/", "http://a/b/c/g/"),
    ("/g", "http://a/g"),
    ("//g", "http://g"),
    ("?y", "http://a/b/c/d;p?y"),
    ("g?y", "http://a/b/c/g?y"),
    ("#s", "http://a/b/c/d;p?q#s"),
    ("g#s", "http://a/b/c/g#s"),
    ("g?y#s", "http://a/b/c/g?y#s"),
    (";x", "http://a/b/c/;x"),
    ("g;x", "http://a/b/c/g;x"),
    ("g;x?y#s", "http://a/b/c/g;x?y#s"),
    ("", "http://a/b/c/d;p?q"),
    (".", "http://a/b/c/"),
    ("./", "http://a/b/c/"),
    ("..", "http://a/b/"),
    ("../", "http://a/b/"),
    ("../g", "http://a/b/g"),
    ("../..", "http://a/"),
    ("../../", "http://a/"),
    ("../../g", "http://a/g"),
    ("../../../g", "http://a/g"),
    ("../../../../g", "http://a/g"),
    ("/./g", "http://a/g"),
    ("/../g", "http://a/g"),
    ("g.", "http://a/b/c/g."),
    (".g", "http://a/b/c/.g"),
    ("g..", "http://a/b/c/g.."),
    ("..g", "http://a/b/c/..g"),
    ("./../g", "http://a/b/g"),
    ("./g/.", "http://a/b/c/g/"),
    ("g/./h", "http://a/b/c/g/h"),
    ("g/../h", "http://a/b/c/h"),
    ("g;x=1/./y", "http://a/b/c/g;x=1/y"),
    ("g;x=1/../y", "http://a/b/c/y"),
    ("g?y/./x", "http://a/b/c/g?y/./x"),
    ("g?y/../x", "http://a/b/c/g?y/../x"),
    ("g#s/./x", "http://a/b/c/g#s/./x"),
    ("g#s/../x", "http://a/b/c/g#s/../x"),
    ("http:g", "http:g"),
];

/// Whether the reference to a base is resolved to this IRI.
fn is_resolved(rt: &HostRuntime, base: &str, reference: &str, target: &str) -> bool {
    match resolve(rt.alloc(), base, reference) {
        Ok(resolved) => resolved.as_str() == target,
        Err(_) => false,
    }
}

#[test]
fn references(rt: HostRuntime) {
    for &(reference, target) in &EXAMPLES {
        let resolved = is_resolved(&rt, "http://a/b/c/d;p?q", reference, target);
        assert!(rt; resolved, "{reference}");
    }
    assert!(rt; is_resolved(&rt, "http://e", "x", "http://e/x"));
}

fn iri(alloc: Global, iri: &str) -> Result<Term, Memory> {
    Ok(Term::Iri(Text::new(alloc, iri)?))
}

fn blank(alloc: Global, label: &str) -> Result<Term, Memory> {
    Ok(Term::Blank(Text::new(alloc, label)?))
}

fn literal(
    alloc: Global,
    form: &str,
    annotation: Result<Annotation, Memory>,
) -> Result<Term, Memory> {
    let annotation = annotation?;
    Ok(Term::Lit(Text::new(alloc, form)?, annotation))
}

fn typed(alloc: Global, datatype: &str) -> Result<Annotation, Memory> {
    Ok(Annotation::typed(Text::new(alloc, datatype)?))
}

fn tagged(alloc: Global, tag: &str) -> Result<Annotation, Memory> {
    Ok(Annotation::Lang(Text::new(alloc, tag)?))
}

/// Whether the text of the term is this one.
fn is_written(alloc: Global, term: Result<Term, Memory>, expected: &str) -> Result<bool, Memory> {
    let term = term?;
    Ok(term_text(alloc, &term)?.as_str() == expected)
}

#[test]
fn terms(rt: HostRuntime) -> Result<(), Fail> {
    let alloc = rt.alloc();
    assert!(rt; is_written(alloc, iri(alloc, "http://e/p"), "<http://e/p>")?);
    assert!(rt; is_written(alloc, blank(alloc, "b7131"), "_:b7131")?);
    let plain = literal(alloc, "a\"b\\c\nd\re\tf\u{8}é", Ok(Annotation::Plain));
    assert!(rt; is_written(alloc, plain, "\"a\\\"b\\\\c\\nd\\re\\tf\u{8}é\"")?);
    Ok(())
}

#[test]
fn typed_terms(rt: HostRuntime) -> Result<(), Fail> {
    let alloc = rt.alloc();
    let seven = literal(
        alloc,
        "7",
        typed(alloc, "http://www.w3.org/2001/XMLSchema#integer"),
    );
    let expected = "\"7\"^^<http://www.w3.org/2001/XMLSchema#integer>";
    assert!(rt; is_written(alloc, seven, expected)?);
    Ok(())
}

#[test]
fn tagged_terms(rt: HostRuntime) -> Result<(), Fail> {
    let x = literal(rt.alloc(), "x", tagged(rt.alloc(), "de-at"));
    assert!(rt; is_written(rt.alloc(), x, "\"x\"@de-at")?);
    Ok(())
}

/// Whether the term is the plain literal x, where its copy is the term.
fn is_plain_x(alloc: Global, term: Result<Term, Memory>) -> Result<Option<bool>, Memory> {
    let term = term?;
    if !is_copied(&term)? {
        return Ok(None);
    }
    Ok(Some(is_same(&term, literal(alloc, "x", Ok(Annotation::Plain)))?))
}

fn is_copied(term: &Term) -> Result<bool, Memory> {
    let copy = term.copy()?;
    Ok(copy.same(term))
}

fn is_same(term: &Term, other: Result<Term, Memory>) -> Result<bool, Memory> {
    let other = other?;
    Ok(term.same(&other))
}

#[test]
fn string_is_plain(rt: HostRuntime) -> Result<(), Fail> {
    let string = typed(rt.alloc(), "http://www.w3.org/2001/XMLSchema#string");
    let x = literal(rt.alloc(), "x", string);
    assert!(rt; is_plain_x(rt.alloc(), x)? == Some(true));
    Ok(())
}

#[test]
fn tagged_is_not_plain(rt: HostRuntime) -> Result<(), Fail> {
    let x = literal(rt.alloc(), "x", tagged(rt.alloc(), "de-at"));
    assert!(rt; is_plain_x(rt.alloc(), x)? == Some(false));
    Ok(())
}

/// Whether this is the line of the subject, the predicate and the subject once more, in the predicate's graph.
fn is_line(
    alloc: Global,
    subject: Result<Term, Memory>,
    predicate: Result<Term, Memory>,
    expected: &str,
) -> Result<bool, Memory> {
    let subject = subject?;
    let predicate = predicate?;
    let line = quad_line(alloc, &subject, &predicate, &subject, Some(&predicate))?;
    Ok(line.as_str() == expected)
}

#[test]
fn quads(rt: HostRuntime) -> Result<(), Fail> {
    let subject = blank(rt.alloc(), "b7131");
    let predicate = iri(rt.alloc(), "http://e/p");
    let expected = "_:b7131 <http://e/p> _:b7131 <http://e/p> .";
    assert!(rt; is_line(rt.alloc(), subject, predicate, expected)?);
    Ok(())
}

/// Whether the text is read as a fixed text and a hole after it.
fn is_read(rt: &HostRuntime, written: &str, fixed: &str, hole: &str) -> bool {
    match read_template(rt.alloc(), written) {
        Ok(template) => match template.as_slice() {
            [Part::Fixed(text), Part::Hole(name)] => text.as_str() == fixed
                && name.as_str() == hole,
            _ => false,
        },
        Err(_) => false,
    }
}

#[test]
fn good_templates(rt: HostRuntime) {
    for &(written, fixed, hole) in &[
        ("http://e/{a}", "http://e/", "a"),
        ("\\{\\\\{\"a \\} b\"}", "{\\", "\"a } b\""),
    ] {
        assert!(rt; is_read(&rt, written, fixed, hole), "{written}");
    }
}

/// Whether the text is refused as a template.
fn is_bad(rt: &HostRuntime, text: &str) -> bool {
    match read_template(rt.alloc(), text) {
        Ok(_) => false,
        Err(fault) => fault == TemplateFault::BadTemplate,
    }
}

#[test]
fn bad_templates(rt: HostRuntime) {
    for &text in &[
        "{",
        "}",
        "{}",
        "{a",
        "a}",
        "{a{b}",
        "\\a",
        "\\",
        "{a\\",
        "{\"a}",
        "{\"\"}",
        "{\"a\"b}",
        "{\"a\"\"}",
    ] {
        assert!(rt; is_bad(&rt, text), "{text}");
    }
}

#[test]
fn names(rt: HostRuntime) {
    for &name in &["a b", "\"a\"\"b\"", "a\"b"] {
        assert!(rt; is_name(name), "{name}");
    }
}

#[test]
fn texts_that_are_no_names(rt: HostRuntime) {
    for &text in &["", "\"", "\"\"", "\"a", "\"a\"b"] {
        assert!(rt; !is_name(text), "{text}");
    }
}

#[test]
fn standings(rt: HostRuntime) -> Result<(), Fail> {
    for &(text, stands) in &[
        ("http://e/{a}", Standing::Absolute),
        ("a+1.-:{a}", Standing::Absolute),
        ("{a}:x", Standing::Doubtful),
        ("x{a}:", Standing::Doubtful),
        ("{a}/b:c", Standing::Relative),
        ("1a:b", Standing::Relative),
        (":a", Standing::Relative),
        ("\\{:a", Standing::Relative),
        ("", Standing::Relative),
    ] {
        let template = read_template(rt.alloc(), text)?;
        assert!(rt; standing(template.as_slice()) == stands, "{text}");
    }
    Ok(())
}
