//! Laws of the definitions, in the words of the standard. These functions compute nothing; what they ensure is the law.
ghost use Rattle.vkg_schema.specs.Rows.{Database};
ghost use Rattle.vkg_maps.specs.declared.mapping.Mapping.{Mapping};
ghost use Rattle.vkg_plan.specs.Kinds.{Tables};
ghost use Rattle.vkg_row_rules.specs.Laws.{GivesDataset};

/// The output dataset of a mapping by its rules over rows (R2RML, 11.1).
pub fn datasets()
    ensures { (schema : Tables) (mapping : Mapping) (db : Database) → GivesDataset schema mapping db }
{}
