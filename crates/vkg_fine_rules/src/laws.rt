//! Laws of the definitions. These functions compute nothing; what they ensure is the law.
ghost use Rattle.vkg_schema.specs.Rows.{Database};
ghost use Rattle.vkg_maps.specs.declared.mapping.Mapping.{Mapping};
ghost use Rattle.vkg_plan.specs.Kinds.{Tables};
ghost use Rattle.vkg_fine_rules.specs.Laws.{HasFineRows, HasFittingRules};

/// What the theorem on unfolded plans asks of a database.
pub fn fine_rows()
    ensures { (schema : Tables) (mapping : Mapping) (db : Database) → HasFineRows schema mapping db }
{}

/// What well-typed plans ask of rules.
pub fn fitting_rules()
    ensures { (schema : Tables) (mapping : Mapping) → HasFittingRules schema mapping }
{}
