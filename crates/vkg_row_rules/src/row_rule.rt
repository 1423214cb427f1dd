use vkg_expr::TermExpr;
use vkg_maps::Join;

/// A quad rule over rows: of each row of a table, or of each row with a row of the parent's table behind it.
#[derive(Drop)]
pub struct RowRule {
    /// The table whose rows give subject, predicate and graph.
    pub table: usize,
    pub join: Option<Join>,
    pub subject: TermExpr,
    pub predicate: TermExpr,
    /// Where there is a join, over the parent's columns, which stand behind the child's.
    pub object: TermExpr,
    /// None is the default graph.
    pub graph: Option<TermExpr>,
}
