//! Laws of the definitions, in the words of the standard. These functions compute nothing; what they ensure is the law.
ghost use Rattle.std.specs.Prelude.{◌≡◌, ℕ, Bool, false, List, length, map, take, Contains, Option};
ghost use Rattle.vkg_terms.specs.declared.term.Term.{Term};
ghost use Rattle.vkg_sparql.specs.declared.pattern.TriplePattern.{TriplePattern};
ghost use Rattle.vkg_sparql.specs.Query.{Query};
ghost use Rattle.vkg_order.specs.Listed.{listed};
ghost use Rattle.vkg_algebra.specs.Answer.{modifiers_of, ordered, selected_variables, solution_entry, solution_line};
ghost use Rattle.vkg_algebra.specs.Construct.{graph_lines, graph_triples};
ghost use Rattle.vkg_algebra.specs.Evaluation.{Dataset};
ghost use Rattle.vkg_algebra.specs.Laws.{AreBelow, BindsWritable, HasCardinality, HasInstances, IsGraph, IsLeftJoin, IsMinus, KeepsMaps};
ghost use Rattle.vkg_algebra.specs.Solutions.{Solution};

/// Compatible solution mappings and their merge (SPARQL 1.1, 18.3).
pub fn maps()
    ensures { (l r : Solution) → KeepsMaps l r }
{}

/// The members of a LeftJoin, and how often each of them is there (SPARQL 1.1, 18.5).
pub fn left_joins()
    ensures members { (holds : Solution → Bool) (ls rs : List Solution) → IsLeftJoin holds ls rs }
    ensures bag { (holds : Solution → Bool) (ls rs : List Solution) (m : Solution) → HasCardinality holds ls rs m }
{}

/// The members of a Minus (SPARQL 1.1, 18.5).
pub fn minuses()
    ensures { (ls rs : List Solution) → IsMinus ls rs }
{}

/// The solutions of a basic graph pattern before its labels are dropped (SPARQL 1.1, 18.3.1): every map under which each
/// pattern is a triple of the graph, and over a set of quads each of them once.
pub fn basic_graph_patterns()
    ensures { (n : ℕ) (ps : List TriplePattern) (d : Dataset) (g : Option Term) → AreBelow n ps → HasInstances n ps d g }
{}

/// One line is one solution (SPARQL 1.1 Query Results CSV and TSV Formats, 4): where the terms that are bound are writable, no
/// two solutions of as many variables have one line, and no line holds a line feed (10).
pub fn solution_lines()
    ensures one_to_one { (s t : Solution) → length s ≡ length t → BindsWritable s → BindsWritable t → solution_line s ≡ solution_line t → s ≡ t }
    ensures one_line { (s : Solution) → BindsWritable s → Contains (solution_line s) 10 → ⊥ }
{}

/// The graph of a CONSTRUCT (SPARQL 1.1, 16.2; RDF 1.1 N-Triples, 2): its lines ascend and none is there twice, they are those of
/// the triples that the template makes of the solutions, and each of these is one of RDF.
pub fn graphs()
    ensures { (template : List TriplePattern) (vs : List ℕ) (ss : List Solution) → IsGraph (graph_triples template vs ss) (graph_lines template vs ss) }
{}

/// The solutions of a CONSTRUCT in their order have the lines that SELECT writes of them: they are those of `SELECT *` with the same
/// order and slice (SPARQL 1.1, 16.2 and 18.2.5).
pub fn ordered_solutions()
    ensures { (query : Query) (ss : List Solution) → query.distinct ≡ false → map (λ s. solution_line (take (length (selected_variables query)) s)) (ordered query ss) ≡ listed (modifiers_of query) (map (solution_entry (length (selected_variables query))) ss) }
{}
