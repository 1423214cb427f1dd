use crate::term_map::TermMap;
use vkg_base::Items;

/// One way in which a mapping makes quads: of each row of a table, or of each pair of rows that agree.
#[derive(Drop)]
pub struct QuadRule {
    /// The table whose rows give subject, predicate and graph.
    pub table: usize,
    pub join: Option<Join>,
    pub subject: TermMap,
    pub predicate: TermMap,
    /// Made of the parent's row where there is a join.
    pub object: TermMap,
    /// None is the default graph.
    pub graph: Option<TermMap>,
}

/// The parent's table, and the child's and the parent's columns that have to be equal (R2RML, 8).
#[derive(Drop)]
pub struct Join {
    pub table: usize,
    pub conditions: Items<(usize, usize)>,
}
