use crate::condition::Condition;
use crate::pattern::{GraphName, TriplePattern};
use vkg_base::{Items, Text};
use vkg_terms::Term;

/// What stands in a group between its braces (SPARQL 1.1, 5.2), in the order of the text.
#[derive(Drop)]
pub enum Part {
    /// A block of triples (5.1).
    Triples(Items<TriplePattern>),
    /// FILTER (5.2.2).
    Filter(Condition),
    /// OPTIONAL (6.1).
    Optional(Items<Part>),
    /// GRAPH (13.3).
    Graph(GraphName, Items<Part>),
    /// A group, and those that UNION joins to it (7).
    Groups(Items<Part>, Items<Items<Part>>),
    /// MINUS (8.2).
    Minus(Items<Part>),
    /// VALUES (10.2): variables, and rows of values for them. UNDEF is none.
    Values(Items<usize>, Items<Items<Option<Term>>>),
    /// BIND (10.1): an expression, and the variable that has its value.
    Bind(Condition, usize),
}

/// What stands behind SELECT (SPARQL 1.1, 16.1): `*`, or variables by their numbers.
#[derive(Drop)]
pub enum Selected {
    All,
    Listed(Items<usize>),
}

/// A key of ORDER BY (SPARQL 1.1, 15.1): an expression, and whether the greater value comes first.
#[derive(Drop)]
pub struct Key {
    pub condition: Condition,
    pub descends: bool,
}

/// OFFSET and LIMIT (15.4 and 15.5). No OFFSET is one of 0.
#[derive(Clone, Copy)]
pub struct Slice {
    pub offset: u32,
    pub limit: Option<u32>,
}

/// What is made of the solutions of a query (SPARQL 1.1, 16): a table, a yes or no, or a graph.
#[derive(Drop)]
pub enum Form {
    /// SELECT (16.1).
    Select,
    /// ASK (16.3).
    Ask,
    /// CONSTRUCT (16.2), with the triples of its template.
    Construct(Items<TriplePattern>),
}

/// A query. Variables and blank node labels are numbers: their places in `names`.
#[derive(Drop)]
pub struct Query {
    /// The name of each variable, without `?`, and of each label, without `_:`; that of `[]` is empty. A label of a template is
    /// another one than that of the pattern, and its name is kept with `_:`.
    pub names: Items<Text>,
    pub form: Form,
    /// Whether DISTINCT is asked (15.3). REDUCED keeps all solutions.
    pub distinct: bool,
    /// The variables of a solution: of ASK there are none, of CONSTRUCT all.
    pub selected: Selected,
    /// The parts of the outermost group.
    pub group: Items<Part>,
    /// What the answer is ordered by, the first key first.
    pub keys: Items<Key>,
    pub slice: Slice,
}
