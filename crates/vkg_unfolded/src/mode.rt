use vkg_base::Text;

/// In which graph patterns are matched: the default graph, the graph of a name, or every named graph, where a plan has the
/// graph's name as its last column.
#[derive(Drop)]
pub enum Mode {
    Default,
    InGraph(Text),
    Each,
}
