// How many quad rules may come behind those of a triples map.
ghost use Rattle.std.specs.Prelude.{◌≡◌, ◌≤◌, ◌*◌, ◌-◌, ◌+◌, ◌++◌, length};
ghost use Rattle.std.specs.Option.{SomeIff};
ghost use Rattle.vkg_maps.specs.QuadRules.{targets};
ghost use Rattle.vkg_r2rml.specs.RuleCount.{rules_of_pair, rules_of_pairs, rules_of_map};

use vkg_maps::{PredicateObjectMap, TermMap, TriplesMap};

/// The most quad rules of a mapping.
pub const RULE_LIMIT: usize = 4096;

/// What is left of the limit after a triples map, if that is not too much.
pub fn after_map(left: usize, m: &TriplesMap) -> Option<usize>
    ensures { SomeIff result (rules_of_map m.now ≤ left) (left - rules_of_map m.now) }
{
    let graphs = m.graphs.as_slice();
    let left = after(left, 1, m.classes.len(), count_targets(graphs, &[]))?;
    after_pairs(left, graphs, m.predicate_objects.as_slice())
}

fn after_pairs(left: usize, graphs: &[TermMap], pairs: &[PredicateObjectMap]) -> Option<usize>
    ensures { SomeIff result (rules_of_pairs graphs.now pairs.now ≤ left) (left - rules_of_pairs graphs.now pairs.now) }
{
    let mut left = left;
    for po in pairs {
        left = after_pair(left, graphs, po)?;
    }
    Some(left)
}

fn after_pair(left: usize, graphs: &[TermMap], po: &PredicateObjectMap) -> Option<usize>
    ensures { SomeIff result (rules_of_pair graphs.now po.now ≤ left) (left - rules_of_pair graphs.now po.now) }
{
    let targets = count_targets(graphs, po.graphs.as_slice());
    after(left, po.predicates.len(), po.objects.len(), targets)
}

/// The graph maps of both lists, or the default graph.
fn count_targets(graphs: &[TermMap], more: &[TermMap]) -> usize
    ensures { result ≡ length (targets (graphs.now ++ more.now)) }
{
    (graphs.len() + more.len()).max(1)
}

fn after(left: usize, predicates: usize, objects: usize, targets: usize) -> Option<usize>
    requires { 1 ≤ targets }
    ensures { SomeIff result (predicates * objects * targets ≤ left) (left - predicates * objects * targets) }
{
    let rules = predicates.checked_mul(objects)?.checked_mul(targets)?;
    left.checked_sub(rules)
}
