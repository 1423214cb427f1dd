use crate::written::written;
use std::alloc::Global;
use std::process::Abort;
use std::test::Fail;
use vkg_plain::{ReadFault, Solution, answer, read_quads, solution_lines};
use vkg_sparql::{Query, read_query};

const DATASET: &str = "<http://e/1> <http://e/name> \"Ann\" .
<http://e/1> <http://e/says> \"a \\\"b\\\"\\n\"@en .
<http://e/2> <http://e/name> \"Bo\" .
<http://e/2> <http://e/name> \"Bo\" <http://e/g> .
_:b <http://e/age> \"7\"^^<http://www.w3.org/2001/XMLSchema#integer> _:g .
";

/// The query of a text.
pub fn query_of(alloc: Global, text: &str) -> Result<Query, Fail> {
    let query = read_query(alloc, text.as_bytes(), "http://e/").ok();
    Ok(query.ok_or("no query")?)
}

/// The lines of the answer to a query over the dataset.
fn answer_to(alloc: Global, text: &str) -> Result<String, Fail> {
    let query = query_of(alloc, text)?;
    answer_text(alloc, &query)
}

fn answer_text(alloc: Global, query: &Query) -> Result<String, Fail> {
    let quads = read_quads(alloc, DATASET)?;
    let rows = answer(alloc, query, quads.as_slice())?;
    rows_text(alloc, query, rows.as_slice())
}

fn rows_text(alloc: Global, query: &Query, rows: &[Solution]) -> Result<String, Fail> {
    let lines = solution_lines(alloc, query, rows)?;
    let text = String::from_utf8(written(alloc, &lines)?).ok();
    Ok(text.ok_or("no text")?)
}

/// These are the lines of the answer to a query over the dataset.
fn answers(rt: &impl Abort, alloc: Global, text: &str, want: &str) -> Result<(), Fail> {
    let found = answer_to(alloc, text)?;
    assert_eq!(rt; found.as_str(), want, "at {text}");
    Ok(())
}

/// Why a text is no quads.
fn fault(alloc: Global, text: &str) -> Option<ReadFault> {
    read_quads(alloc, text).err()
}

#[test]
fn quads_are_read_as_they_are_written(rt: HostRuntime) -> Result<(), Fail> {
    assert!(rt; read_quads(rt.alloc(), DATASET)?.len() == 5);
    let spaced = fault(rt.alloc(), "<http://e/1>  <http://e/p> \"a\" .\n");
    assert!(rt; spaced == Some(ReadFault::NoQuads));
    let unended = fault(rt.alloc(), "<http://e/1> <http://e/p> \"a\n");
    assert!(rt; unended == Some(ReadFault::NoQuads));
    Ok(())
}

#[test]
fn what_does_not_match_stays_without(rt: HostRuntime) -> Result<(), Fail> {
    answers(
        &rt,
        rt.alloc(),
        "SELECT ?n ?w { ?x <name> ?n OPTIONAL { ?x <says> ?w } }",
        "?n\t?w\n\"Ann\"\t\"a \\\"b\\\"\\n\"@en\n\"Bo\"\t\n",
    )
}

#[test]
fn graphs_have_their_own_solutions(rt: HostRuntime) -> Result<(), Fail> {
    answers(
        &rt,
        rt.alloc(),
        "SELECT ?g ?o { GRAPH ?g { [] ?p ?o FILTER(?o = \"Bo\" || ?o < 8) } }",
        "?g\t?o\n<http://e/g>\t\"Bo\"\n_:g\t\"7\"^^<http://www.w3.org/2001/XMLSchema#integer>\n",
    )
}

#[test]
fn texts_are_filtered_by_their_characters(rt: HostRuntime) -> Result<(), Fail> {
    answers(
        &rt,
        rt.alloc(),
        "SELECT ?n { ?x <name> ?n FILTER(STRLEN(?n) = 2 || CONTAINS(?n, \"x\"@en)) }",
        "?n\n\"Bo\"\n",
    )
}

#[test]
fn each_is_kept_once(rt: HostRuntime) -> Result<(), Fail> {
    answers(
        &rt,
        rt.alloc(),
        "SELECT DISTINCT ?n { { ?x <name> ?n } UNION { GRAPH <g> { ?x <name> ?n } } }",
        "?n\n\"Ann\"\n\"Bo\"\n",
    )
}

#[test]
fn answers_are_ordered_and_sliced(rt: HostRuntime) -> Result<(), Fail> {
    let rows = &[
        (
            "SELECT ?n { ?x <name> ?n } ORDER BY DESC(?n)",
            "?n\n\"Bo\"\n\"Ann\"\n",
        ),
        (
            "SELECT ?n { ?x <name> ?n } ORDER BY DESC(?x) LIMIT 1",
            "?n\n\"Bo\"\n",
        ),
        ("SELECT ?n { ?x <name> ?n } OFFSET 1", "?n\n\"Bo\"\n"),
        ("SELECT ?n { ?x <name> ?n } LIMIT 0", "?n\n"),
    ];
    for &(text, want) in rows {
        answers(&rt, rt.alloc(), text, want)?;
    }
    Ok(())
}

#[test]
fn solutions_are_taken_away(rt: HostRuntime) -> Result<(), Fail> {
    let rows = [
        (
            "SELECT ?n { ?x <name> ?n MINUS { ?x <says> ?w } }",
            "?n\n\"Bo\"\n",
        ),
        // no variable is in common, so nothing is taken away
        (
            "SELECT ?n { ?x <name> ?n MINUS { ?y <says> ?w } }",
            "?n\n\"Ann\"\n\"Bo\"\n",
        ),
        // nor where the variable in common is bound on one side alone
        (
            "SELECT ?n { ?x <name> ?n OPTIONAL { ?x <says> ?w } MINUS { ?y <says> ?w } }",
            "?n\n\"Bo\"\n",
        ),
        (
            "SELECT ?n { ?x <name> ?n MINUS {} }",
            "?n\n\"Ann\"\n\"Bo\"\n",
        ),
    ];
    for (text, want) in rows.iter() {
        let found = answer_to(rt.alloc(), text)?;
        assert_eq!(rt; found.as_str(), *want, "at {text}");
    }
    Ok(())
}

#[test]
fn values_are_given_and_computed(rt: HostRuntime) -> Result<(), Fail> {
    let rows = [
        (
            "SELECT ?n { VALUES ?n { \"Bo\" \"Cy\" } ?e <name> ?n }",
            "?n\n\"Bo\"\n",
        ),
        // UNDEF leaves its variable unbound, so that it may be bound by what stands beside
        (
            "SELECT ?n ?x { VALUES (?n ?x) { (UNDEF 1) } ?e <name> ?n }",
            "?n\t?x\n\"Ann\"\t\"1\"^^<http://www.w3.org/2001/XMLSchema#integer>\n\"Bo\"\t\"1\"^^<http://www.w3.org/2001/XMLSchema#integer>\n",
        ),
        ("SELECT ?n { VALUES ?n {} ?e <name> ?n }", "?n\n"),
        (
            "SELECT ?n ?l { ?x <name> ?n BIND(STRLEN(?n) AS ?l) }",
            "?n\t?l\n\"Ann\"\t\"3\"^^<http://www.w3.org/2001/XMLSchema#integer>\n\"Bo\"\t\"2\"^^<http://www.w3.org/2001/XMLSchema#integer>\n",
        ),
        // where the expression is an error, the variable is unbound
        ("SELECT * { BIND(?z AS ?y) }", "?y\n\n"),
    ];
    for (text, want) in rows.iter() {
        let found = answer_to(rt.alloc(), text)?;
        assert_eq!(rt; found.as_str(), *want, "at {text}");
    }
    Ok(())
}
