// The quad rules of a mapping.
ghost use Rattle.std.specs.Prelude.{◌≡◌, ◌++◌, [], ◌∷◌, map, flat_map, IfOk, OnOk};
ghost use Rattle.vkg_maps.specs.QuadRules.{object_rule, parent_of, join_on, targets, predicate_object_rules, class_map as class_map_of, map_rules, quad_rules};

use std::alloc::Global;
use vkg_base::{Box, Items, Memory, Text};
use vkg_maps::{Join, Mapping, ObjectMap, PredicateObjectMap, QuadRule, TermMap, TriplesMap};
use vkg_terms::Term;
use vkg_terms::vocabulary::RDF_TYPE;

/// The quad rules of a mapping, in its order.
pub fn rules(alloc: Global, mapping: &Mapping) -> Result<Items<QuadRule>, Memory>
    ensures { IfOk result (λ rs. rs ≡ quad_rules mapping.now) }
{
    let mut out = Items::new(alloc);
    let maps = mapping.maps.as_slice();
    for m in maps {
        push_map(alloc, &mut out, maps, m)?;
    }
    Ok(out)
}

fn push_map(
    alloc: Global,
    out: &mut Items<QuadRule>,
    maps: &[TriplesMap],
    m: &TriplesMap,
) -> Result<(), Memory>
    ensures { OnOk result (out.new ≡ out.old ++ map_rules maps.now m.now) }
{
    let classes = class_map(alloc, m)?;
    push_predicate_object(alloc, out, maps, m, &classes)?;
    push_predicate_objects(alloc, out, maps, m, m.predicate_objects.as_slice())?;
    Ok(())
}

fn push_predicate_objects(
    alloc: Global,
    out: &mut Items<QuadRule>,
    maps: &[TriplesMap],
    m: &TriplesMap,
    pos: &[PredicateObjectMap],
) -> Result<(), Memory>
    ensures { OnOk result (out.new ≡ out.old ++ flat_map (predicate_object_rules maps.now m.now) pos.now) }
{
    for po in pos {
        push_predicate_object(alloc, out, maps, m, po)?;
    }
    Ok(())
}

fn push_predicate_object(
    alloc: Global,
    out: &mut Items<QuadRule>,
    maps: &[TriplesMap],
    m: &TriplesMap,
    po: &PredicateObjectMap,
) -> Result<(), Memory>
    ensures { OnOk result (out.new ≡ out.old ++ predicate_object_rules maps.now m.now po.now) }
{
    for p in po.predicates.as_slice() {
        push_objects(
            alloc,
            out,
            maps,
            m,
            p,
            po.objects.as_slice(),
            po.graphs.as_slice(),
        )?;
    }
    Ok(())
}

fn push_objects(
    alloc: Global,
    out: &mut Items<QuadRule>,
    maps: &[TriplesMap],
    m: &TriplesMap,
    p: &TermMap,
    objects: &[ObjectMap],
    graphs: &[TermMap],
) -> Result<(), Memory>
    ensures { OnOk result (out.new ≡ out.old ++ flat_map (λ o. map (object_rule maps.now m.now p.now o) (targets (m.now.graphs ++ graphs.now))) objects.now) }
{
    for o in objects {
        push_targets(alloc, out, maps, m, p, o, graphs)?;
    }
    Ok(())
}

fn push_targets(
    alloc: Global,
    out: &mut Items<QuadRule>,
    maps: &[TriplesMap],
    m: &TriplesMap,
    p: &TermMap,
    o: &ObjectMap,
    graphs: &[TermMap],
) -> Result<(), Memory>
    ensures { OnOk result (out.new ≡ out.old ++ map (object_rule maps.now m.now p.now o.now) (targets (m.now.graphs ++ graphs.now))) }
{
    let own = m.graphs.as_slice();
    if own.is_empty() && graphs.is_empty() {
        out.push(rule(alloc, maps, m, p, o, None)?)?;
        return Ok(());
    }
    push_each_graph(alloc, out, maps, m, p, o, own)?;
    push_each_graph(alloc, out, maps, m, p, o, graphs)?;
    Ok(())
}

/// Appends the rule of each graph map.
fn push_each_graph(
    alloc: Global,
    out: &mut Items<QuadRule>,
    maps: &[TriplesMap],
    m: &TriplesMap,
    p: &TermMap,
    o: &ObjectMap,
    graphs: &[TermMap],
) -> Result<(), Memory>
    ensures { OnOk result (out.new ≡ out.old ++ map (λ g. object_rule maps.now m.now p.now o.now (Some g)) graphs.now) }
{
    for g in graphs {
        let g = g.copy(alloc)?;
        out.push(rule(alloc, maps, m, p, o, Some(g))?)?;
    }
    Ok(())
}

fn class_map(alloc: Global, m: &TriplesMap) -> Result<PredicateObjectMap, Memory>
    ensures { IfOk result (λ po. po ≡ class_map_of m.now) }
{
    let mut objects = Items::new(alloc);
    for class in m.classes.as_slice() {
        objects.push(ObjectMap::Term(TermMap::Constant(Term::Iri(class.copy()?))))?;
    }
    let mut predicates = Items::new(alloc);
    let rdf_type = Text::new(alloc, RDF_TYPE)?;
    predicates.push(TermMap::Constant(Term::Iri(rdf_type)))?;
    let graphs = Items::new(alloc);
    Ok(PredicateObjectMap {
        predicates,
        objects,
        graphs,
    })
}

fn rule(
    alloc: Global,
    maps: &[TriplesMap],
    m: &TriplesMap,
    p: &TermMap,
    o: &ObjectMap,
    graph: Option<TermMap>,
) -> Result<QuadRule, Memory>
    ensures { IfOk result (λ r. r ≡ object_rule maps.now m.now p.now o.now graph) }
{
    match o {
        ObjectMap::Term(t) => made(alloc, m, p, None, t, graph),
        ObjectMap::Parent(k, conditions) => {
            let parent = parent(maps, m, *k);
            let join = join(alloc, parent.table, conditions.as_slice())?;
            made(alloc, m, p, join, &parent.subject, graph)
        }
    }
}

fn made(
    alloc: Global,
    m: &TriplesMap,
    p: &TermMap,
    join: Option<Join>,
    o: &TermMap,
    graph: Option<TermMap>,
) -> Result<QuadRule, Memory>
    ensures { IfOk result (λ r. r ≡ record { table = m.now.table; join = join; subject = m.now.subject; predicate = p.now; object = o.now; graph = graph }) }
{
    // boxed until all are there: where a later one fails, the drop of a box is a call, and that of a term map is written out
    let graph = Box::new(alloc, graph)?;
    let subject = Box::new(alloc, m.subject.copy(alloc)?)?;
    let predicate = Box::new(alloc, p.copy(alloc)?)?;
    let object = o.copy(alloc)?;
    Ok(QuadRule {
        table: m.table,
        join,
        subject: subject.into_inner(),
        predicate: predicate.into_inner(),
        object,
        graph: graph.into_inner(),
    })
}

fn parent<'a>(maps: &'a [TriplesMap], m: &'a TriplesMap, k: usize) -> &'a TriplesMap
    ensures { result.now ≡ parent_of maps.now m.now k }
{
    match maps.get(k) {
        Some(parent) => parent,
        None => m,
    }
}

fn join(alloc: Global, table: usize, conditions: &[(usize, usize)]) -> Result<Option<Join>, Memory>
    ensures { IfOk result (λ j. j ≡ join_on table conditions.now) }
{
    if conditions.is_empty() {
        return Ok(None);
    }
    let conditions = Items::from_vec(Vec::from_slice(alloc, conditions)?);
    Ok(Some(Join { table, conditions }))
}
