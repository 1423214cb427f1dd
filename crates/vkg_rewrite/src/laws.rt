//! A law of the definitions. The function computes nothing; what it ensures is the law.
ghost use Rattle.vkg_schema.specs.Meets.{IsWellFormed};
ghost use Rattle.vkg_maps.specs.declared.mapping.Mapping.{Mapping};
ghost use Rattle.vkg_maps.specs.Within.{IsWithin};
ghost use Rattle.vkg_sparql.specs.Query.{Query};
ghost use Rattle.vkg_plan.specs.Kinds.{Tables};
ghost use Rattle.vkg_row_rules.specs.RowRules.{row_rules};
ghost use Rattle.vkg_unfolded.specs.Unfolded.{start_plan};
ghost use Rattle.vkg_normal.specs.NormalForm.{IsNormal, IsNormalFormOf};
ghost use Rattle.vkg_rewrite.specs.Rewritten.{rewritten};

/// The plan of a query over a mapping of a schema, which `rewrite` gives and `sql` prints, is where the rewrite rules lead from
/// its start plan, each change at the first subplan that one changes; and none changes a subplan of it.
pub fn rewritten_is_an_end()
    ensures end { (schema : Tables) (mapping : Mapping) (query : Query) → IsWellFormed schema → IsWithin schema mapping → IsNormalFormOf schema (start_plan schema (row_rules schema mapping) query) (rewritten schema mapping query) }
    ensures settled { (schema : Tables) (mapping : Mapping) (query : Query) → IsWellFormed schema → IsWithin schema mapping → IsNormal schema (rewritten schema mapping query) }
{}
