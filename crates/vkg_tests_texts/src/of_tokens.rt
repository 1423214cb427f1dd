use crate::told::told;
use std::alloc::Global;
use std::process::Abort;
use std::test::Fail;
use vkg_tokens::{Lang, TokensError, tokens};

// The kind and the length of each token, or the place of the fault.
fn shown(alloc: Global, lang: Lang, text: &str) -> Result<String, Fail> {
    let found = match tokens(alloc, lang, text) {
        Ok(found) => found,
        Err(TokensError::LexFault { at }) => return Ok(format!(in alloc; "fault {at}")?),
        Err(TokensError::Memory) => return Err(Fail::new("memory")),
    };
    let mut shown = String::new(alloc);
    for token in found.iter() {
        let kind = token.kind;
        let length = token.end.saturating_sub(token.start);
        shown.push_str(&format!(in alloc; " {kind}:{length}")?)?;
    }
    Ok(shown)
}

// What is shown of each text.
fn all_shown(
    rt: &impl Abort,
    alloc: Global,
    lang: Lang,
    rows: &[(&str, &str)],
) -> Result<(), Fail> {
    for &(text, want) in rows {
        told(rt, text, shown(alloc, lang, text), want)?;
    }
    Ok(())
}

#[test]
fn the_ddl(rt: HostRuntime) -> Result<(), Fail> {
    let rows = &[
        ("", ""),
        ("a1_b", " 6:4"),
        ("a 1_b", " 6:1 7:1 6:2"),
        ("12ab", " 7:2 6:2"),
        ("(a,b);", " 2:1 6:1 3:1 6:1 4:1 5:1"),
        ("\"a\"\"b\"", " 16:6"),
        ("\"a\" \"b\"", " 16:3 16:3"),
        ("Create T (\"a\"\"b\" 12", " 0:6 6:1 2:1 16:6 7:2"),
        ("a -- b c\nd", " 6:1 6:1"),
        ("a -- b c\rd", " 6:1 6:1"),
        ("a -- b c", " 6:1"),
        ("a - b", "fault 2"),
        ("a \"\"", "fault 2"),
        ("a \"b", "fault 2"),
        ("a.b", "fault 1"),
    ];
    all_shown(&rt, rt.alloc(), Lang::Ddl, rows)
}

#[test]
fn words_and_signs_of_turtle(rt: HostRuntime) -> Result<(), Fail> {
    let rows = &[
        ("@prefix p: <x> .", " 0:7 16:2 15:3 4:1"),
        ("@base @BASE @prefixes", " 1:5 20:5 20:9"),
        ("PreFix bAse", " 2:6 3:4"),
        ("a A true True false", " 9:1 24:1 11:4 24:4 12:5"),
        ("atrue a_b _ _a", " 24:5 24:3 24:1 24:2"),
        ("[ ] ; , ( ) ^^", " 5:1 6:1 7:1 8:1 13:1 14:1 10:2"),
        ("a # b <\nc#d\re", " 9:1 24:1 24:1"),
        ("^", "fault 0"),
        ("a {", "fault 2"),
        ("?a", "fault 0"),
        ("a - 1", "fault 2"),
    ];
    all_shown(&rt, rt.alloc(), Lang::Turtle, rows)
}

#[test]
fn names_of_turtle(rt: HostRuntime) -> Result<(), Fail> {
    let rows = &[
        ("p:a.", " 17:3 4:1"),
        ("p:a..b", " 17:6"),
        ("p:a\\.", " 17:5"),
        ("p:%41 p:%4", "fault 8"),
        (":", " 16:1"),
        ("a.b:c", " 17:5"),
        ("a.b.:c", " 9:1 4:1 24:1 4:1 17:2"),
        ("a1:b a1", " 17:4 9:1 21:1"),
        ("_:a. _:1.b _:", " 18:3 4:1 18:5 24:1 16:1"),
        ("p:a-b:\\~1", " 17:9"),
        ("\u{e9}:\u{e9}\u{b7}", " 17:7"),
        ("p:\u{d7}", "fault 2"),
        ("\u{e9}", "fault 0"),
        ("\u{10000}:", " 16:5"),
        ("a.b.c d.e:f", " 9:1 4:1 24:1 4:1 24:1 17:5"),
        ("a1.b_2.:c", " 9:1 21:1 4:1 24:2 21:1 4:1 17:2"),
        ("a..b.c\u{e9}.d:e", " 17:12"),
        ("a..b.c\u{d7}d:e", "fault 6"),
    ];
    all_shown(&rt, rt.alloc(), Lang::Turtle, rows)
}

// A prefix of one letter, and behind it a character with which a local name may or may not go on.
fn goes_on(alloc: Global, c: char) -> Result<bool, Fail> {
    let mut text = String::from_str(alloc, "p:a")?;
    text.push(c)?;
    let found = shown(alloc, Lang::Turtle, text.as_str())?;
    Ok(found.as_str() != "fault 3")
}

#[test]
fn ends_of_the_ranges_of_names(rt: HostRuntime) -> Result<(), Fail> {
    let ranges = &[
        ('\u{c0}', '\u{d6}'),
        ('\u{d8}', '\u{f6}'),
        ('\u{f8}', '\u{37d}'),
        ('\u{37f}', '\u{1fff}'),
        ('\u{200c}', '\u{200d}'),
        ('\u{203f}', '\u{2040}'),
        ('\u{2070}', '\u{218f}'),
        ('\u{2c00}', '\u{2fef}'),
        ('\u{3001}', '\u{d7ff}'),
        ('\u{f900}', '\u{fdcf}'),
        ('\u{fdf0}', '\u{fffd}'),
        ('\u{10000}', '\u{effff}'),
    ];
    for &(first, last) in ranges {
        assert!(rt; goes_on(rt.alloc(), first)?, "{first}");
        assert!(rt; goes_on(rt.alloc(), last)?, "{last}");
    }
    Ok(())
}

#[test]
fn neighbours_of_the_ranges_of_names(rt: HostRuntime) -> Result<(), Fail> {
    let outside = &[
        '\u{bf}',
        '\u{d7}',
        '\u{f7}',
        '\u{37e}',
        '\u{2000}',
        '\u{200b}',
        '\u{200e}',
        '\u{203e}',
        '\u{2041}',
        '\u{206f}',
        '\u{2190}',
        '\u{2bff}',
        '\u{2ff0}',
        '\u{3000}',
        '\u{e000}',
        '\u{f8ff}',
        '\u{fdd0}',
        '\u{fdef}',
        '\u{fffe}',
        '\u{f0000}',
    ];
    for &c in outside {
        assert!(rt; !goes_on(rt.alloc(), c)?, "{c}");
    }
    Ok(())
}

fn run_of_words(alloc: Global, times: usize) -> Result<String, Fail> {
    Ok("a.b1.".repeat(alloc, times)?)
}

#[test]
fn words_joined_by_dots(rt: HostRuntime) -> Result<(), Fail> {
    let mut text = run_of_words(rt.alloc(), 200)?;
    let want = " 9:1 4:1 24:1 21:1 4:1".repeat(rt.alloc(), 200)?;
    let found = shown(rt.alloc(), Lang::Turtle, text.as_str());
    told(&rt, "words", found, want.as_str())?;
    text.push_str("c:d")?;
    let found = shown(rt.alloc(), Lang::Turtle, text.as_str());
    told(&rt, "one name", found, " 17:1003")
}

// Were each word's search to read such a run to its end, this would take minutes.
#[test]
fn a_long_run_of_words(rt: HostRuntime) -> Result<(), Fail> {
    let text = run_of_words(rt.alloc(), 20000)?;
    match tokens(rt.alloc(), Lang::Turtle, text.as_str()) {
        Ok(found) => assert!(rt; found.len() == 100000),
        Err(_) => return Err(Fail::new("no tokens")),
    }
    Ok(())
}

#[test]
fn strings_and_iris_of_turtle(rt: HostRuntime) -> Result<(), Fail> {
    let rows = &[
        ("\"\" '' \"a\" 'b'", " 19:2 19:2 19:3 19:3"),
        ("\"\"\"\"\"\" \"\"\"a\"b\"\"c\"\"\"", " 19:6 19:12"),
        ("'''a''''", "fault 7"),
        ("'''a'''''", " 19:7 19:2"),
        ("'''a\\''''", " 19:9"),
        ("'''\n'''", " 19:7"),
        ("'a\n'", "fault 0"),
        ("'\\n\\u0041\\U0001F600'", " 19:20"),
        ("'\\x'", "fault 0"),
        ("'\\ud7ff' '\\ud800'", "fault 9"),
        ("'\\U0010ffff' '\\U00110000'", "fault 13"),
        ("'\\u004'", "fault 0"),
        ("'\\u004g'", "fault 0"),
        ("<> <a\\u0020b>", " 15:2 15:10"),
        ("<a b>", "fault 0"),
        ("<a\\u00dg>", "fault 0"),
        ("<\\udfff>", "fault 0"),
        ("'a'@en-GB-1 @en-", "fault 15"),
        ("'a'@1", "fault 3"),
    ];
    all_shown(&rt, rt.alloc(), Lang::Turtle, rows)
}

#[test]
fn numbers_of_turtle(rt: HostRuntime) -> Result<(), Fail> {
    let rows = &[
        ("1 -1 +1", " 21:1 21:2 21:2"),
        ("1.", " 21:1 4:1"),
        (".5 1.5 -.5", " 22:2 22:3 22:3"),
        ("1.e3 1e3 .5E-3 1.5e+3", " 23:4 23:3 23:5 23:6"),
        ("1e 1.e", " 21:1 24:1 21:1 4:1 24:1"),
        (".", " 4:1"),
        ("1.2.3", " 22:3 22:2"),
    ];
    all_shown(&rt, rt.alloc(), Lang::Turtle, rows)
}

// Texts, and their tokens: of each its kind and its length in bytes.
const TOKENS_OF_SPARQL: [(&str, &str); 21] = [
    ("{ } ( ) [ ] . ; ,", " 0:1 1:1 2:1 3:1 4:1 5:1 6:1 7:1 8:1"),
    (
        "= != < > <= >= ! && ||",
        " 9:1 10:2 11:1 12:1 13:2 14:2 15:1 16:2 17:2",
    ),
    (
        "* / | ^ ^^ + - ?",
        " 18:1 19:1 20:1 21:1 22:2 23:1 24:1 25:1",
    ),
    (
        "<a> <> <=> <a b> <=1",
        " 26:3 26:2 26:3 11:1 36:1 60:1 12:1 13:2 33:1",
    ),
    (
        "p: p:a _:a ?a $1 ?a-b",
        " 27:2 28:3 29:3 30:2 30:2 30:2 24:1 60:1",
    ),
    ("'a' @en 1 1.5 1e1", " 31:3 32:3 33:1 34:3 35:3"),
    ("a A TRUE fAlse", " 36:1 60:1 37:4 38:5"),
    (
        "Base prefix SELECT distinct Reduced where",
        " 39:4 40:6 41:6 42:8 43:7 44:5",
    ),
    ("optional Graph FILTER union", " 45:8 46:5 47:6 48:5"),
    (
        "bound sameTerm isIRI isURI isBlank isLiteral",
        " 49:5 50:8 51:5 52:5 53:7 54:9",
    ),
    ("isNumeric str LANG datatype", " 55:9 56:3 57:4 58:8"),
    (
        "ask Construct describe from service minus values bind as",
        " 76:3 77:9 59:8 59:4 59:7 65:5 68:6 66:4 67:2",
    ),
    (
        "order limit offset group having count sum min max avg",
        " 70:5 72:5 73:6 59:5 59:6 59:5 59:3 59:3 59:3 59:3",
    ),
    (
        "sample group_concat exists not in regex if coalesce",
        " 59:6 59:12 59:6 59:3 59:2 59:5 59:2 59:8",
    ),
    (
        "langmatches strlen strstarts strends contains",
        " 59:11 61:6 62:9 63:7 64:8",
    ),
    ("insert delete load clear", " 59:6 59:6 59:4 59:5"),
    ("Undef by ASC desc", " 69:5 71:2 74:3 75:4"),
    ("FILTERBOUND ?x+1 1-1", " 60:11 30:2 33:2 33:1 33:2"),
    ("? $", "fault 2"),
    ("a & b", "fault 2"),
    ("'\\ud800'", "fault 0"),
];

#[test]
fn tokens_of_sparql(rt: HostRuntime) -> Result<(), Fail> {
    all_shown(&rt, rt.alloc(), Lang::Sparql, &TOKENS_OF_SPARQL)
}
