use vkg_terms::Term;

/// What a term map is for (R2RML, 6.1, 6.3 and 9).
#[derive(Clone, Copy, Debug, Drop, PartialEq, Eq)]
pub enum Role {
    Subject,
    Predicate,
    Object,
    Graph,
}

/// Where a term map stands.
#[derive(Drop)]
pub enum Place {
    /// A value of rr:subject, rr:predicate, rr:object or rr:graph: a constant (R2RML, 7.1, constant shortcut properties).
    Constant(Term),
    /// A value of rr:subjectMap, rr:predicateMap, rr:objectMap or rr:graphMap: the node of the term map.
    Node(Term),
}
