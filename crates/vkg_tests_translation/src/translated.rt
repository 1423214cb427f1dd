// Queries as they are written, and their whole algebra.
use crate::texts::algebra_text;
use std::alloc::Global;
use std::test::Fail;
use vkg_algebra::translate;
use vkg_sparql::{Query, read_query};

// Queries and their algebra by the rules of SPARQL 1.1, 18.2.2.
const ROWS: [(&str, &str); 18] = [
    ("SELECT * {}", "Bgp"),
    (
        "SELECT ?n ?d { ?e <name> ?n OPTIONAL { ?e <ref-dept> ?d } }",
        "LeftJoin(Bgp[?e <http://e/name> ?n], Bgp[?e <http://e/ref-dept> ?d], true)",
    ),
    (
        "SELECT * { ?x <p> ?v OPTIONAL { ?x <q> ?w FILTER(?w < ?v) } FILTER(BOUND(?w)) ?x <r> ?u }",
        "Filter(Bound ?w, Join(LeftJoin(Bgp[?x <http://e/p> ?v], Bgp[?x <http://e/q> ?w], Less(?w, ?v)), Bgp[?x <http://e/r> ?u]))",
    ),
    (
        "SELECT ?n { { ?e <name> ?n } UNION { ?e <name> ?n FILTER(!(?n = \"Bo\")) } UNION {} }",
        "Union(Union(Bgp[?e <http://e/name> ?n], Filter(Not Equal(?n, \"Bo\"), Bgp[?e <http://e/name> ?n])), Bgp)",
    ),
    (
        "SELECT ?g { GRAPH ?g {} GRAPH <none> { ?s ?p [] } }",
        "Join(Graph(?g, Bgp), Graph(<http://e/none>, Bgp[?s ?p _:]))",
    ),
    (
        "SELECT * { { ?a <p> ?b } ?b <q> ?c ; <r> _:x , \"y\"@en . }",
        "Join(Bgp[?a <http://e/p> ?b], Bgp[?b <http://e/q> ?c][?b <http://e/r> _:x][?b <http://e/r> \"y\"@en])",
    ),
    (
        "SELECT * { ?s <q> ?o FILTER(BOUND(?x)) OPTIONAL { ?s <q> ?x FILTER(?x = ?o) } }",
        "Filter(Bound ?x, LeftJoin(Bgp[?s <http://e/q> ?o], Bgp[?s <http://e/q> ?x], Equal(?x, ?o)))",
    ),
    (
        "SELECT * { ?s <q> ?o OPTIONAL { { ?s <q> ?x FILTER(?x = ?o) } } }",
        "LeftJoin(Bgp[?s <http://e/q> ?o], Filter(Equal(?x, ?o), Bgp[?s <http://e/q> ?x]), true)",
    ),
    (
        "SELECT * { ?a <q> ?b FILTER(?a = ?b) ?b <q> ?c FILTER(?b = ?c) }",
        "Filter(And(Equal(?a, ?b), Equal(?b, ?c)), Bgp[?a <http://e/q> ?b][?b <http://e/q> ?c])",
    ),
    (
        "SELECT * { { ?s <q> ?o } UNION { ?s <q> ?o } UNION {} }",
        "Union(Union(Bgp[?s <http://e/q> ?o], Bgp[?s <http://e/q> ?o]), Bgp)",
    ),
    (
        "SELECT ?s { ?s <d> 01 FILTER(?s != <a> && isIRI(?s) && (LANG(?s) = \"en\" || sameTerm(?s, ?s))) FILTER(?s) }",
        "Filter(And(And(NotEqual(?s, <http://e/a>), IsIri ?s, Or(Equal(Lang ?s, \"en\"), SameTerm(?s, ?s))), ?s), Bgp[?s <http://e/d> \"01\"^^<http://www.w3.org/2001/XMLSchema#integer>])",
    ),
    (
        "SELECT * { ?s <q> ?o FILTER(STRLEN(?o) > 1 && STRSTARTS(?o, \"a\") && (STRENDS(?o, \"b\") || contains(?o, \"c\"))) }",
        "Filter(And(Greater(Length ?o, \"1\"^^<http://www.w3.org/2001/XMLSchema#integer>), Starts(?o, \"a\"), Or(Ends(?o, \"b\"), Contains(?o, \"c\"))), Bgp[?s <http://e/q> ?o])",
    ),
    (
        "SELECT * { ?e <name> ?n MINUS { ?e <dept> ?d } ?e <q> ?x }",
        "Join(Minus(Bgp[?e <http://e/name> ?n], Bgp[?e <http://e/dept> ?d]), Bgp[?e <http://e/q> ?x])",
    ),
    (
        "SELECT * { MINUS { ?s <p> ?o } }",
        "Minus(Bgp, Bgp[?s <http://e/p> ?o])",
    ),
    (
        "SELECT * { VALUES (?n ?x) { (\"Bo\" UNDEF) (UNDEF 1) } ?e <name> ?n }",
        "Join(Table( ?n ?x )( \"Bo\" UNDEF )( UNDEF \"1\"^^<http://www.w3.org/2001/XMLSchema#integer> ), Bgp[?e <http://e/name> ?n])",
    ),
    (
        "SELECT * { ?e <name> ?n VALUES ?n { <a> UNDEF } }",
        "Join(Bgp[?e <http://e/name> ?n], Table( ?n )( <http://e/a> )( UNDEF ))",
    ),
    (
        "SELECT * { ?e <name> ?n BIND(STRLEN(?n) AS ?m) FILTER(?m > 1) }",
        "Filter(Greater(?m, \"1\"^^<http://www.w3.org/2001/XMLSchema#integer>), Extend(Bgp[?e <http://e/name> ?n], ?m, Length ?n))",
    ),
    ("SELECT * { BIND(?z AS ?y) }", "Extend(Bgp, ?y, ?z)"),
];

fn query_of(alloc: Global, text: &str) -> Result<Query, Fail> {
    let query = read_query(alloc, text.as_bytes(), "http://e/").ok();
    Ok(query.ok_or("no query")?)
}

/// The text of the algebra of a query's text.
fn translated(alloc: Global, text: &str) -> Result<String, Fail> {
    let query = query_of(alloc, text)?;
    let algebra = translate(alloc, &query)?;
    Ok(algebra_text(alloc, query.names.as_slice(), &algebra)?)
}

#[test]
fn queries_have_their_algebra(rt: HostRuntime) -> Result<(), Fail> {
    let alloc = rt.alloc();
    for &(text, wanted) in &ROWS {
        let found = translated(alloc, text)?;
        assert_eq!(rt; found.as_str(), wanted, "{text}");
    }
    Ok(())
}
