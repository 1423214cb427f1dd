//! Laws of the definitions. These functions compute nothing; what they ensure is the law.
ghost use Rattle.std.specs.Prelude.{ℕ, List};
ghost use Rattle.vkg_plan.specs.Kinds.{Tables};
ghost use Rattle.vkg_sparql.specs.Lawful.{IsLawfulQuery};
ghost use Rattle.vkg_sparql.specs.Query.{Query};
ghost use Rattle.vkg_algebra.specs.Algebra.{Algebra};
ghost use Rattle.vkg_algebra.specs.Lawful.{IsLawfulAlgebra};
ghost use Rattle.vkg_row_rules.specs.declared.row_rule.RowRule.{RowRule};
ghost use Rattle.vkg_unfolded.specs.FineRows.{Meets};
ghost use Rattle.vkg_unfolded.specs.StandsFor.{StandsFor};
ghost use Rattle.vkg_unfolded.specs.Unfolded.{start_plan, unfolded};
ghost use Rattle.vkg_unfolded.specs.declared.mode.Mode.{Mode};
ghost use Rattle.vkg_answers.specs.Answering.{GivesAnswer, GivesSolutions};

/// The unfolded plan of a lawful algebra, in each mode: over every database whose rows are fine it has the solutions of the algebra over
/// the dataset of the rules, in each graph (SPARQL 1.1, 18.6).
pub fn unfolded_plans()
    ensures { (schema : Tables) (rules : List RowRule) (n : ℕ) (a : Algebra) (mode : Mode) → IsLawfulAlgebra n a → StandsFor (Meets schema rules) schema rules n mode (unfolded schema rules a mode) a }
{}

/// The plan of a lawful query: its rows are the query's solutions (SPARQL 1.1, 18.2.5).
pub fn start_plans()
    ensures { (schema : Tables) (rules : List RowRule) (query : Query) → IsLawfulQuery query → GivesSolutions (Meets schema rules) schema rules (start_plan schema rules query) query }
{}

/// The plan's rows in any order, as lines: they are the query's answer (SPARQL 1.1, 16; SPARQL 1.1 Query Results CSV and TSV Formats, 4).
pub fn start_answers()
    ensures { (schema : Tables) (rules : List RowRule) (query : Query) → IsLawfulQuery query → GivesAnswer (Meets schema rules) schema rules (start_plan schema rules query) query }
{}
