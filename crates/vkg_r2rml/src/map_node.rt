use crate::checked::Checked;
use vkg_terms::Term;

/// A triples map of the graph (R2RML, 6): its node, and the place of its table, or the check of it that fails.
#[derive(Drop)]
pub struct MapNode {
    pub node: Term,
    pub table: Checked<usize>,
}
