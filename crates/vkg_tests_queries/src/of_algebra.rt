// What of the algebra its text does not show; the rows of whole queries are those of `vkg_tests_translation`.
use crate::of_plain::query_of;
use std::alloc::Global;
use std::test::Fail;
use vkg_algebra::{Algebra, laws, translate, visible};

fn algebra_of(alloc: Global, text: &str) -> Result<Algebra, Fail> {
    let query = query_of(alloc, text)?;
    Ok(translate(alloc, &query)?)
}

// SELECT numbers the variables.
#[test]
fn variables_stand_by_their_first_place(rt: HostRuntime) -> Result<(), Fail> {
    let text = "SELECT ?a ?b ?c ?d ?e { ?c <q> ?b GRAPH ?d { ?a <q> ?e } }";
    let algebra = algebra_of(rt.alloc(), text)?;
    let found = visible(rt.alloc(), &algebra)?;
    assert!(rt; found.as_slice() == [2, 1, 3, 0, 4].as_slice());
    Ok(())
}

#[test]
fn laws_compute_nothing() {
    laws::maps();
    laws::left_joins();
    laws::minuses();
    laws::basic_graph_patterns();
    laws::solution_lines();
}
