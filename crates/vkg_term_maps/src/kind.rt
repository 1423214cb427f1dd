ghost use Rattle.std.specs.Prelude.{◌≡◌, if◌then◌else◌, IfOk, option_map};
ghost use Rattle.vkg_term_maps.specs.TermMaps.{constant as constant_of, kind_at, kind_of as kind_of_values, lacks_tag as lacks_tag_in, text_of as text_of_term};

use crate::graph::Graph;
use crate::place::Role;
use crate::values::Values;
use crate::vocabulary::{RDF_LANG_STRING, RR_COLUMN, RR_CONSTANT, RR_TEMPLATE};
use std::alloc::Global;
use vkg_base::{Memory, Text};
use vkg_terms::{Annotation, Term};

/// Where the terms of a term map come from (R2RML, 7).
#[derive(Drop)]
pub(crate) enum Kind {
    /// Constant-valued (R2RML, 7.1).
    Constant(Term),
    /// Column-valued (R2RML, 7.2): the text that names the column.
    Column(Text),
    /// Template-valued (R2RML, 7.3): the template's text.
    Template(Text),
}

/// The kind of the term map at a node, if it has exactly one and of the right sort.
pub(crate) fn read_kind(
    alloc: Global,
    graph: &Graph<'_>,
    role: Role,
    node: &Term,
) -> Result<Option<Kind>, Memory>
    ensures { IfOk result (λ kind. kind ≡ kind_at graph.now role node.now) }
{
    let constants = Values::of(alloc, graph, node, RR_CONSTANT)?;
    let columns = Values::of(alloc, graph, node, RR_COLUMN)?;
    let templates = Values::of(alloc, graph, node, RR_TEMPLATE)?;
    Ok(kind_of(role, constants, columns, templates))
}

fn kind_of(role: Role, constants: Values, columns: Values, templates: Values) -> Option<Kind>
    ensures { result ≡ kind_of_values role constants columns templates }
{
    match constants {
        Values::One(term) => match (columns, templates) {
            (Values::Absent, Values::Absent) => constant(role, term),
            _ => None,
        },
        Values::Absent => column_or_template(columns, templates),
        Values::Several => None,
    }
}

fn column_or_template(columns: Values, templates: Values) -> Option<Kind>
    ensures { result ≡ kind_of_values Role.Object Values.Absent columns templates }
{
    match (columns, templates) {
        (Values::One(term), Values::Absent) => column(term),
        (Values::Absent, Values::One(term)) => template(term),
        _ => None,
    }
}

/// A constant-valued term map (R2RML, 7.1): of an IRI, in an object map also of a literal of RDF.
pub(crate) fn constant(role: Role, term: Term) -> Option<Kind>
    ensures { result ≡ constant_of role term }
{
    match (role, term) {
        (_, Term::Iri(iri)) => Some(Kind::Constant(Term::Iri(iri))),
        (Role::Object, Term::Lit(text, annotation)) => literal_constant(text, annotation),
        _ => None,
    }
}

/// A literal, unless it is of rdf:langString and has no tag (RDF 1.1 Concepts, 3.3).
fn literal_constant(text: Text, annotation: Annotation) -> Option<Kind>
    ensures { result ≡ (if lacks_tag_in annotation then None else Some (Kind.Constant (Term.Lit text annotation))) }
{
    if lacks_tag(&annotation) {
        return None;
    }
    Some(Kind::Constant(Term::Lit(text, annotation)))
}

fn lacks_tag(annotation: &Annotation) -> bool
    ensures { result ≡ lacks_tag_in annotation.now }
{
    match annotation {
        Annotation::Typed(datatype) => datatype.iri().as_str() == RDF_LANG_STRING,
        _ => false,
    }
}

fn column(term: Term) -> Option<Kind>
    ensures { result ≡ option_map Kind.Column (text_of_term term) }
{
    match plain_text(term) {
        None => None,
        Some(text) => Some(Kind::Column(text)),
    }
}

fn template(term: Term) -> Option<Kind>
    ensures { result ≡ option_map Kind.Template (text_of_term term) }
{
    match plain_text(term) {
        None => None,
        Some(text) => Some(Kind::Template(text)),
    }
}

fn plain_text(term: Term) -> Option<Text>
    ensures { result ≡ text_of_term term }
{
    match term {
        Term::Lit(text, Annotation::Plain) => Some(text),
        _ => None,
    }
}
