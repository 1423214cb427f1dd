use crate::told::told;
use std::alloc::Global;
use std::process::Abort;
use std::test::Fail;
use vkg_sparql::{Form, Query, QueryError, Slice, read_query};

// The check and the place of the first fault, or the number of names and whether DISTINCT is asked.
fn shown(alloc: Global, bytes: &[u8]) -> Result<String, Fail> {
    match read_query(alloc, bytes, "http://h/") {
        Ok(query) => {
            let names = query.names.len();
            let parts = query.group.len();
            let distinct = query.distinct;
            Ok(format!(in alloc; "{names} {parts} {distinct}")?)
        }
        Err(QueryError::Fault(fault)) => {
            let check = fault.check;
            let at = fault.at;
            Ok(format!(in alloc; "Q{check:02} {at}")?)
        }
        Err(QueryError::Memory) => Err(Fail::new("memory")),
    }
}

// What is shown of each query.
fn all_shown(rt: &impl Abort, alloc: Global, rows: &[(&str, &str)]) -> Result<(), Fail> {
    for &(text, want) in rows {
        told(rt, text, shown(alloc, text.as_bytes()), want)?;
    }
    Ok(())
}

#[test]
fn queries_are_read(rt: HostRuntime) -> Result<(), Fail> {
    let rows = &[
        ("SELECT * {}", "0 0 false"),
        ("\u{feff}select distinct ?a where { ?a <p> 1 }", "1 1 true"),
        (
            "PREFIX p: <x#> BASE <http://k/> SELECT ?a $b { ?a p:q ?b ; a p:C . [] <r> _:a FILTER(?a = ?b && !bound(?c)) }",
            "5 2 false",
        ),
        (
            "SELECT * { { ?a <p> ?b } UNION { ?b <p> ?a } OPTIONAL { ?a <q> [ <r> 'x'@EN ] } GRAPH ?g { ?s ?p true } }",
            "6 3 false",
        ),
    ];
    all_shown(&rt, rt.alloc(), rows)
}

#[test]
fn each_fault_is_named(rt: HostRuntime) -> Result<(), Fail> {
    let rows = &[
        ("SELECT * { ' }", "Q01 11"),
        ("SELECT * WHERE {", "Q02 16"),
        ("SELECT * { FILTERBOUND(?x) }", "Q02 11"),
        ("SELECT * { ?s <http://e/p>* ?o }", "Q07 26"),
        ("DESCRIBE ?s {}", "Q07 0"),
        ("SELECT * { ?s ?p 1e3 }", "Q07 17"),
        ("SELECT * { ?s q:p ?o }", "Q04 14"),
        ("BASE <q> SELECT * { ?s <mailto:x\\u003c> ?o }", "Q05 23"),
        ("SELECT * { _:a ?p ?o { _:a ?p 1 } }", "Q06 23"),
        (
            "SELECT * { ?s ?p '1'^^<http://www.w3.org/2001/XMLSchema#double> }",
            "Q07 17",
        ),
        (
            "SELECT * { ?s ?p 123456789012345678901234567890123456789 }",
            "Q08 17",
        ),
    ];
    all_shown(&rt, rt.alloc(), rows)
}

// STRLEN takes one argument, STRSTARTS, STRENDS and CONTAINS take two, and they stand in conditions alone.
#[test]
fn string_functions_have_their_arguments(rt: HostRuntime) -> Result<(), Fail> {
    let rows = &[
        ("SELECT * { FILTER(STRLEN('a', 'b')) }", "Q02 28"),
        ("SELECT * { FILTER(CONTAINS('a')) }", "Q02 30"),
        ("SELECT * { FILTER strends('a') }", "Q02 29"),
        ("SELECT * { FILTER(STRSTARTS('a', 'b', 'c')) }", "Q02 36"),
        ("SELECT * { ?s STRLEN ?o }", "Q02 14"),
        ("SELECT CONTAINS {}", "Q02 7"),
    ];
    all_shown(&rt, rt.alloc(), rows)
}

// The word of a call is a node, as the sign behind it is: the last one here is the 1,025th.
#[test]
fn words_of_calls_are_counted(rt: HostRuntime) -> Result<(), Fail> {
    let mut text = String::from_str(rt.alloc(), "SELECT * { FILTER(")?;
    for _ in 0..511 {
        text.push_str("STRLEN('')||")?;
    }
    text.push_str("STRLEN('')) }")?;
    let found = shown(rt.alloc(), text.as_bytes());
    told(&rt, "1,025 words", found, "Q09 6150")
}

// Each is told where it stands: as left out, or as a word that no query goes on with.
#[test]
fn words_out_of_place_are_refused(rt: HostRuntime) -> Result<(), Fail> {
    let rows = &[
        ("SELECT * { UNDEF }", "Q02 11"),
        ("SELECT * { ASK {} }", "Q02 11"),
        ("CONSTRUCT {} CONSTRUCT {}", "Q02 13"),
        ("SELECT * {} VALUES ?x { 1 }", "Q07 12"),
        ("SELECT * { MINUS ?x }", "Q02 17"),
        ("SELECT * { BIND(1 ?x) }", "Q02 18"),
        ("SELECT * { VALUES ?x { ?y } }", "Q02 23"),
    ];
    all_shown(&rt, rt.alloc(), rows)
}

// What VALUES and BIND may hold, and what is wrong with them.
#[test]
fn tables_and_bound_variables_are_checked(rt: HostRuntime) -> Result<(), Fail> {
    let rows = &[
        ("SELECT * { VALUES () { () () } }", "0 1 false"),
        (
            "SELECT * { VALUES (?a ?b) { (1 UNDEF) ('x'@en 'y'^^<d>) } . ?s ?p ?o }",
            "5 2 false",
        ),
        (
            "SELECT * { ?s ?p ?o MINUS { ?a ?b ?c } BIND(?a AS ?b) }",
            "6 3 false",
        ),
        (
            "SELECT * { FILTER(?x) BIND(1 AS ?x) { BIND(1 AS ?x) } }",
            "1 3 false",
        ),
        ("SELECT * { VALUES (?a ?b) { (1) } }", "Q10 28"),
        ("SELECT * { VALUES (?a ?b) { (1 2) () (3 4 5) } }", "Q10 34"),
        ("SELECT * { VALUES (?a ?b ?a) {} }", "Q10 25"),
        ("SELECT * { MINUS { VALUES () { (UNDEF) } } }", "Q10 31"),
        ("SELECT * { VALUES (?a ?a) {} BIND(1 AS ?a) }", "Q10 22"),
        ("SELECT * { ?s ?p ?o BIND(1 AS ?o) }", "Q11 30"),
        ("SELECT * { { BIND(1 AS ?x) } BIND(2 AS ?x) }", "Q11 39"),
        ("SELECT * { OPTIONAL { ?x ?p ?o } BIND(1 AS ?x) }", "Q11 43"),
        ("SELECT * { VALUES ?x { 1 } BIND(1 AS ?x) }", "Q11 37"),
        ("SELECT * { GRAPH ?x {} BIND(1 AS ?x) }", "Q11 33"),
        (
            "SELECT * { { BIND(1 AS ?x) BIND(1 AS ?x) } UNION {} }",
            "Q11 37",
        ),
        ("SELECT * { _:a ?p ?o BIND(1 AS ?x) _:a ?q ?r }", "Q06 35"),
        (
            "SELECT * { VALUES ?x { 123456789012345678901234567890123456789 } }",
            "Q08 23",
        ),
        (
            "SELECT * { VALUES ?x { '1'^^<http://www.w3.org/2001/XMLSchema#float> } }",
            "Q07 23",
        ),
    ];
    all_shown(&rt, rt.alloc(), rows)
}

// VALUES and each value are nodes, the brace is none: the last value is the 1,025th.
#[test]
fn values_are_counted(rt: HostRuntime) -> Result<(), Fail> {
    let mut text = String::from_str(rt.alloc(), "SELECT * { VALUES ?x { ")?;
    for _ in 0..1023 {
        text.push_str("1 ")?;
    }
    text.push_str("} }")?;
    all_shown(&rt, rt.alloc(), &[(text.as_str(), "Q09 2067")])
}

// The number of keys, and the slice.
fn order_of(alloc: Global, text: &str) -> Result<(usize, Slice), QueryError> {
    let query = read_query(alloc, text.as_bytes(), "http://h/")?;
    Ok((query.keys.len(), query.slice))
}

// The number of keys, OFFSET, and LIMIT if there is one.
fn ordered(alloc: Global, text: &str) -> Result<String, Fail> {
    let Ok((keys, slice)) = order_of(alloc, text) else {
        return Err(Fail::new("refused"));
    };
    let offset = slice.offset;
    match slice.limit {
        Some(limit) => Ok(format!(in alloc; "{keys} {offset} {limit}")?),
        None => Ok(format!(in alloc; "{keys} {offset} none")?),
    }
}

#[test]
fn orders_and_slices_are_read(rt: HostRuntime) -> Result<(), Fail> {
    let rows = &[
        ("SELECT * {}", "0 0 none"),
        ("SELECT * {} ORDER BY ?x", "1 0 none"),
        (
            "SELECT * {} order by desc(?x) ?y STR(?z) (?x < ?y) asc(?z)",
            "5 0 none",
        ),
        ("SELECT * {} LIMIT 7", "0 0 7"),
        ("SELECT * {} OFFSET 7", "0 7 none"),
        ("SELECT * {} LIMIT 007 OFFSET 2", "0 2 7"),
        ("SELECT * {} ORDER BY ?x OFFSET 2 LIMIT 0", "1 2 0"),
        ("SELECT * {} LIMIT 4294967295", "0 0 4294967295"),
        (
            "SELECT * {} LIMIT 0000000000000000000000000000000000000001",
            "0 0 1",
        ),
    ];
    for &(text, want) in rows {
        told(&rt, text, ordered(rt.alloc(), text), want)?;
    }
    Ok(())
}

// The number of a slice is no literal; the checks of the rest of the query come first.
#[test]
fn faults_of_slices_are_named(rt: HostRuntime) -> Result<(), Fail> {
    let rows = &[
        ("SELECT * {} LIMIT -1", "Q12 18"),
        ("SELECT * {} LIMIT +1", "Q12 18"),
        ("SELECT * {} LIMIT 4294967296", "Q12 18"),
        (
            "SELECT * {} LIMIT 999999999999999999999999999999999999999",
            "Q12 18",
        ),
        ("SELECT * {} OFFSET 1 LIMIT -1", "Q12 27"),
        ("SELECT * { ?s ?p q:o } LIMIT -1", "Q04 17"),
        ("SELECT * {} LIMIT 1 LIMIT 2", "Q02 20"),
        ("SELECT * {} LIMIT 1 OFFSET 2 LIMIT 3", "Q02 29"),
        ("SELECT * {} LIMIT 1.0", "Q02 18"),
        ("SELECT * {} LIMIT ?x", "Q02 18"),
        ("SELECT * { LIMIT 1 }", "Q02 11"),
    ];
    all_shown(&rt, rt.alloc(), rows)
}

#[test]
fn faults_of_orders_are_named(rt: HostRuntime) -> Result<(), Fail> {
    let rows = &[
        (
            "SELECT * {} ORDER BY (999999999999999999999999999999999999999) LIMIT -1",
            "Q08 22",
        ),
        ("SELECT * {} ORDER BY", "Q02 20"),
        ("SELECT * {} ORDER BY DESC ?x", "Q02 26"),
        ("SELECT * {} ORDER ?x", "Q02 18"),
        ("SELECT * {} LIMIT 1 ORDER BY ?x", "Q02 20"),
        ("SELECT * { ORDER BY ?x }", "Q02 11"),
        ("SELECT * {} BY ?x", "Q02 12"),
        ("SELECT * {} ASC(?x)", "Q02 12"),
        ("SELECT * {} desc(?x)", "Q02 12"),
        ("SELECT * {} ORDER BY <http://e/f>(?x)", "Q02 21"),
    ];
    all_shown(&rt, rt.alloc(), rows)
}

// The least place at which no token begins or the bytes are no UTF-8.
#[test]
fn bad_bytes_have_their_place(rt: HostRuntime) -> Result<(), Fail> {
    let rows = &[
        (b"SELECT * { ?s ~ ?o } # \xff".as_slice(), "Q01 14"),
        (b"SELECT * { ?s ?p ?o } # \xff".as_slice(), "Q01 24"),
        (b"\xef\xbb\xbfSELECT * { 'a\xff' }".as_slice(), "Q01 11"),
    ];
    for &(bytes, want) in rows {
        told(&rt, want, shown(rt.alloc(), bytes), want)?;
    }
    Ok(())
}

// What is made of the solutions: of CONSTRUCT how many triples its template has.
fn form_shown(rt: &HostRuntime, query: &Query) -> Result<String, Fail> {
    match &query.form {
        Form::Select => Ok(format!(in rt.alloc(); "select")?),
        Form::Ask => Ok(format!(in rt.alloc(); "ask")?),
        Form::Construct(template) => {
            let triples = template.len();
            Ok(format!(in rt.alloc(); "construct {triples}")?)
        }
    }
}

#[test]
fn forms_are_read(rt: HostRuntime) -> Result<(), Fail> {
    let rows = [
        ("SELECT * {}", "select"),
        ("ASK {}", "ask"),
        ("ask where { ?s ?p ?o }", "ask"),
        ("CONSTRUCT {} {}", "construct 0"),
        (
            "construct { ?s ?p [ a <c> ] . } where { ?s ?p ?o } order by ?s offset 2",
            "construct 2",
        ),
    ];
    for (text, want) in rows.iter() {
        let query = read_query(rt.alloc(), text.as_bytes(), "http://h/")?;
        let found = form_shown(&rt, &query)?;
        assert_eq!(rt; found.as_str(), *want, "at {text}");
    }
    Ok(())
}

// ASK has no order and no slice, CONSTRUCT has a template, and a label of that is another one than that of the pattern.
#[test]
fn forms_are_checked(rt: HostRuntime) -> Result<(), Fail> {
    let rows = [
        ("ASK { ?s ?p ?o }", "3 1 false"),
        (
            "CONSTRUCT { ?s ?p [] . _:a ?p _:b } { _:a ?p ?s } LIMIT 3",
            "6 1 false",
        ),
        ("CONSTRUCT { ?s ?p 1 } { ?s ?p ?o }", "3 1 false"),
        ("CONSTRUCT WHERE { ?s ?p ?o }", "Q02 10"),
        ("ASK {} LIMIT 1", "Q02 7"),
        ("CONSTRUCT { GRAPH ?g {} } {}", "Q02 12"),
        ("CONSTRUCT { ?s ?p ?o", "Q02 20"),
        (
            "CONSTRUCT { ?s ?p ?o } { _:a ?p ?o OPTIONAL { _:a ?q ?o } }",
            "Q06 46",
        ),
        ("CONSTRUCT { ?s q:p ?o } {}", "Q04 15"),
    ];
    for (text, want) in rows.iter() {
        let found = shown(rt.alloc(), text.as_bytes())?;
        assert_eq!(rt; found.as_str(), *want, "at {text}");
    }
    Ok(())
}

// The braces of a template are no nodes: that of the group is the first, and the 1,025th is past the limit.
#[test]
fn a_template_has_no_nodes(rt: HostRuntime) -> Result<(), Fail> {
    let mut text = String::from_str(rt.alloc(), "CONSTRUCT {} {")?;
    for _ in 0..1023 {
        text.push_str("{}")?;
    }
    let mut one_more = text.clone()?;
    text.push_str("}")?;
    let found = shown(rt.alloc(), text.as_bytes())?;
    assert_eq!(rt; found.as_str(), "0 1023 false");
    one_more.push_str("{}}")?;
    let found = shown(rt.alloc(), one_more.as_bytes())?;
    assert_eq!(rt; found.as_str(), "Q09 2060");
    Ok(())
}
