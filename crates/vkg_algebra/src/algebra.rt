use vkg_base::{Box, Items};
use vkg_sparql::{Condition, GraphName, TriplePattern};
use vkg_terms::Term;

/// A variable, by its number in the query: its name stands at that place of the query's names.
pub type Var = usize;

/// The algebra of SPARQL (SPARQL 1.1, 18.2). Variables and blank node labels stand by their numbers in the query.
#[derive(Drop)]
pub enum Algebra {
    /// A basic graph pattern (18.1.6); the empty one is Z.
    Bgp(Items<TriplePattern>),
    Join(Box<Algebra>, Box<Algebra>),
    /// The last is the condition, which is true where there is none.
    LeftJoin(Box<Algebra>, Box<Algebra>, Option<Box<Condition>>),
    Union(Box<Algebra>, Box<Algebra>),
    Filter(Box<Condition>, Box<Algebra>),
    /// GRAPH with a variable or an IRI.
    Graph(GraphName, Box<Algebra>),
    Minus(Box<Algebra>, Box<Algebra>),
    /// Variables, and rows of values for them (10.2): the solutions of VALUES.
    Table(Items<Var>, Items<Items<Option<Term>>>),
    /// A variable gets the value of an expression.
    Extend(Box<Algebra>, Var, Box<Condition>),
}
