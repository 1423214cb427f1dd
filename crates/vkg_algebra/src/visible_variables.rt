// The variables of an algebra (SPARQL 1.1, 18.2.1).
ghost use Rattle.std.specs.Prelude.{◌≡◌, [], ◌∷◌, IfOk, OnOk, flat_map};
ghost use Rattle.vkg_algebra.specs.Algebra.{Bgp};
ghost use Rattle.vkg_algebra.specs.Seen.{algebra_seen};
ghost use Rattle.vkg_algebra.specs.Visible.{AddsEach, appearing, each_once, name_variables, node_variables, pattern_variables, visible as visible_of};

use crate::algebra::{Algebra, Var};
use std::alloc::Global;
use vkg_base::{Items, Memory};
use vkg_sparql::{GraphName, Node, TriplePattern};

/// The variables that an algebra may bind, each once, in the order in which they first appear.
pub fn visible(alloc: Global, algebra: &Algebra) -> Result<Items<Var>, Memory>
    ensures value { IfOk result (λ vs. vs ≡ visible_of (algebra_seen algebra.now)) }
    ensures by_appearance { IfOk result (λ vs. vs ≡ each_once (appearing (algebra_seen algebra.now))) }
{
    let mut found = Items::new(alloc);
    add_all(&mut found, algebra)?;
    Ok(found)
}

/// The variables of triple patterns, each once, in the order in which they first appear: those of a basic graph pattern.
pub fn variables_of_patterns(
    alloc: Global,
    patterns: &[TriplePattern],
) -> Result<Items<Var>, Memory>
    ensures { IfOk result (λ vs. vs ≡ visible_of (Bgp patterns.now)) }
{
    let mut variables = Items::new(alloc);
    add_patterns(&mut variables, patterns)?;
    Ok(variables)
}

fn add_all(found: &mut Items<Var>, algebra: &Algebra) -> Result<(), Memory>
    ensures { OnOk result (AddsEach (appearing (algebra_seen algebra.now)) found.old found.new) }
{
    match algebra {
        Algebra::Bgp(patterns) => add_patterns(found, patterns.as_slice()),
        Algebra::Join(a, b) => {
            add_all(found, a)?;
            add_all(found, b)
        }
        Algebra::LeftJoin(a, b, _) => {
            add_all(found, a)?;
            add_all(found, b)
        }
        Algebra::Union(a, b) => {
            add_all(found, a)?;
            add_all(found, b)
        }
        Algebra::Filter(_, a) => add_all(found, a),
        Algebra::Graph(name, a) => {
            add_name(found, name)?;
            add_all(found, a)
        }
        Algebra::Minus(a, _) => add_all(found, a),
        Algebra::Table(variables, _) => add_variables(found, variables.as_slice()),
        Algebra::Extend(a, variable, _) => {
            add_all(found, a)?;
            add(found, *variable)
        }
    }
}

fn add_patterns(found: &mut Items<Var>, patterns: &[TriplePattern]) -> Result<(), Memory>
    ensures { OnOk result (AddsEach (flat_map pattern_variables patterns.now) found.old found.new) }
{
    for pattern in patterns {
        add_pattern(found, pattern)?;
    }
    Ok(())
}

fn add_variables(found: &mut Items<Var>, variables: &[Var]) -> Result<(), Memory>
    ensures { OnOk result (AddsEach variables.now found.old found.new) }
{
    for variable in variables {
        add(found, *variable)?;
    }
    Ok(())
}

fn add_pattern(found: &mut Items<Var>, pattern: &TriplePattern) -> Result<(), Memory>
    ensures { OnOk result (AddsEach (pattern_variables pattern.now) found.old found.new) }
{
    add_node(found, &pattern.subject)?;
    add_node(found, &pattern.predicate)?;
    add_node(found, &pattern.object)
}

fn add_node(found: &mut Items<Var>, node: &Node) -> Result<(), Memory>
    ensures { OnOk result (AddsEach (node_variables node.now) found.old found.new) }
{
    match node {
        Node::Variable(number) => add(found, *number),
        Node::Label(_) => Ok(()),
        Node::Fixed(_) => Ok(()),
    }
}

fn add_name(found: &mut Items<Var>, name: &GraphName) -> Result<(), Memory>
    ensures { OnOk result (AddsEach (name_variables name.now) found.old found.new) }
{
    match name {
        GraphName::Each(number) => add(found, *number),
        GraphName::Named(_) => Ok(()),
    }
}

/// Adds a number that is not there.
pub(crate) fn add(found: &mut Items<Var>, number: usize) -> Result<(), Memory>
    ensures { OnOk result (AddsEach (number ∷ []) found.old found.new) }
{
    if found.as_slice().contains(&number) {
        return Ok(());
    }
    found.push(number)?;
    Ok(())
}
