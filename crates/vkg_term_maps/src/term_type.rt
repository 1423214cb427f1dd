ghost use Rattle.std.specs.Prelude.{◌≡◌, IfOk};
ghost use Rattle.vkg_term_maps.specs.TermMaps.{Gives, annotation_of as annotation_of_values, default_sort as default_of, if_allowed as allowed, is_annotated, literal_of as literal_of_annotation, no_properties, properties, sort_named as sort_of_name, sort_of as sort_of_values, type_of as type_of_sort, unless_annotated as type_unless_annotated};

use crate::annotation::annotation_of;
use crate::error::{TermMapError, TermMapFault};
use crate::graph::Graph;
use crate::place::Role;
use crate::values::Values;
use crate::vocabulary::{
    RR_BLANK_NODE, RR_DATATYPE, RR_IRI, RR_LANGUAGE, RR_LITERAL, RR_TERM_TYPE,
};
use std::alloc::Global;
use vkg_base::Memory;
use vkg_maps::TermType;
use vkg_terms::{Annotation, Term};

/// A term type (R2RML, 7.4).
#[derive(Clone, Copy)]
pub(crate) enum Sort {
    Iri,
    Blank,
    Literal,
}

/// What a term map has beside its value: rr:termType, rr:language and rr:datatype (R2RML, 7.4 to 7.6).
#[derive(Drop)]
pub(crate) struct Properties {
    pub types: Values,
    pub languages: Values,
    pub datatypes: Values,
}

impl Properties {
    pub(crate) fn read(alloc: Global, graph: &Graph<'_>, node: &Term) -> Result<Properties, Memory>
        ensures { IfOk result (λ p. p ≡ properties graph.now node.now) }
    {
        Ok(Properties {
            types: Values::of(alloc, graph, node, RR_TERM_TYPE)?,
            languages: Values::of(alloc, graph, node, RR_LANGUAGE)?,
            datatypes: Values::of(alloc, graph, node, RR_DATATYPE)?,
        })
    }

    pub(crate) fn none() -> Properties
        ensures { result ≡ no_properties }
    {
        Properties {
            types: Values::Absent,
            languages: Values::Absent,
            datatypes: Values::Absent,
        }
    }

    /// Whether there is a language or a datatype.
    pub(crate) fn is_annotated(&self) -> bool
        ensures { result ≡ is_annotated self.now }
    {
        !(self.languages.is_absent() && self.datatypes.is_absent())
    }
}

/// The sort of terms that a term map asks for, its default where it asks for none; none where it asks for more than one,
/// or for one that is not allowed in its role (R2RML, 7.4).
pub(crate) fn sort_of(role: Role, literal: bool, types: &Values) -> Option<Sort>
    ensures { result ≡ sort_of_values role literal types.now }
{
    match types {
        Values::Absent => Some(default_sort(role, literal)),
        Values::One(term) => if_allowed(role, sort_named(term)),
        Values::Several => None,
    }
}

fn default_sort(role: Role, literal: bool) -> Sort
    ensures { result ≡ default_of role literal }
{
    match role {
        Role::Object => { if literal { Sort::Literal } else { Sort::Iri } }
        _ => Sort::Iri,
    }
}

fn if_allowed(role: Role, sort: Option<Sort>) -> Option<Sort>
    ensures { result ≡ allowed role sort }
{
    match (role, sort) {
        (Role::Object, _) => sort,
        (_, Some(Sort::Iri)) => sort,
        (Role::Subject, Some(Sort::Blank)) => sort,
        _ => None,
    }
}

fn sort_named(term: &Term) -> Option<Sort>
    ensures { result ≡ sort_of_name term.now }
{
    match term {
        Term::Iri(iri) => sort_of_iri(iri.as_str()),
        _ => None,
    }
}

fn sort_of_iri(iri: &str) -> Option<Sort>
    ensures { result ≡ sort_of_name (Term.Iri iri.now) }
{
    if iri == RR_IRI {
        Some(Sort::Iri)
    } else if iri == RR_BLANK_NODE {
        Some(Sort::Blank)
    } else if iri == RR_LITERAL {
        Some(Sort::Literal)
    } else {
        None
    }
}

/// The term type with its language tag or datatype, `default` where there is neither (R2RML, 7.4 to 7.6).
pub(crate) fn type_of(
    alloc: Global,
    default: Annotation,
    properties: &Properties,
    sort: Option<Sort>,
) -> Result<TermType, TermMapError>
    ensures { Gives (type_of_sort default properties.now sort) result }
{
    match sort {
        None => Err(TermMapError::Fault(TermMapFault::TermType)),
        Some(Sort::Iri) => unless_annotated(properties, TermType::Iri),
        Some(Sort::Blank) => unless_annotated(properties, TermType::Blank),
        Some(Sort::Literal) => literal_of(alloc, default, properties),
    }
}

fn unless_annotated(properties: &Properties, term_type: TermType) -> Result<TermType, TermMapError>
    ensures { Gives (type_unless_annotated properties.now term_type) result }
{
    if properties.is_annotated() {
        Err(TermMapError::Fault(TermMapFault::Annotation))
    } else {
        Ok(term_type)
    }
}

fn literal_of(
    alloc: Global,
    default: Annotation,
    properties: &Properties,
) -> Result<TermType, TermMapError>
    ensures { Gives (literal_of_annotation (annotation_of_values default properties.now.languages properties.now.datatypes)) result }
{
    match annotation_of(alloc, default, &properties.languages, &properties.datatypes)? {
        None => Err(TermMapError::Fault(TermMapFault::Annotation)),
        Some(annotation) => Ok(TermType::Literal(annotation)),
    }
}
