//! The names of the R2RML vocabulary (R2RML, 4.1 and appendix B) that term maps are written with.

pub const RR_SUBJECT: &str = "http://www.w3.org/ns/r2rml#subject";

pub const RR_SUBJECT_MAP: &str = "http://www.w3.org/ns/r2rml#subjectMap";

pub const RR_PREDICATE: &str = "http://www.w3.org/ns/r2rml#predicate";

pub const RR_PREDICATE_MAP: &str = "http://www.w3.org/ns/r2rml#predicateMap";

pub const RR_OBJECT: &str = "http://www.w3.org/ns/r2rml#object";

pub const RR_OBJECT_MAP: &str = "http://www.w3.org/ns/r2rml#objectMap";

pub const RR_GRAPH: &str = "http://www.w3.org/ns/r2rml#graph";

pub const RR_GRAPH_MAP: &str = "http://www.w3.org/ns/r2rml#graphMap";

pub const RR_CONSTANT: &str = "http://www.w3.org/ns/r2rml#constant";

pub const RR_COLUMN: &str = "http://www.w3.org/ns/r2rml#column";

pub const RR_TEMPLATE: &str = "http://www.w3.org/ns/r2rml#template";

pub const RR_TERM_TYPE: &str = "http://www.w3.org/ns/r2rml#termType";

pub const RR_LANGUAGE: &str = "http://www.w3.org/ns/r2rml#language";

pub const RR_DATATYPE: &str = "http://www.w3.org/ns/r2rml#datatype";

pub const RR_IRI: &str = "http://www.w3.org/ns/r2rml#IRI";

pub const RR_BLANK_NODE: &str = "http://www.w3.org/ns/r2rml#BlankNode";

pub const RR_LITERAL: &str = "http://www.w3.org/ns/r2rml#Literal";

pub const RDF_LANG_STRING: &str = "http://www.w3.org/1999/02/22-rdf-syntax-ns#langString";
