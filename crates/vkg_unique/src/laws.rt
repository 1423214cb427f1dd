//! Laws of the definitions. These functions compute nothing; what they ensure is the law.
ghost use Rattle.std.specs.Prelude.{IsTrue};
ghost use Rattle.std.specs.List.{IsDistinct};
ghost use Rattle.vkg_schema.specs.Meets.{IsWellFormed, MeetsSchema};
ghost use Rattle.vkg_schema.specs.Rows.{Database};
ghost use Rattle.vkg_plan.specs.Kinds.{Tables};
ghost use Rattle.vkg_plan.specs.Plan.{Plan};
ghost use Rattle.vkg_plan.specs.Rows.{one_row, rows_of};
ghost use Rattle.vkg_rules.specs.Steps.{IsTyped};
ghost use Rattle.vkg_unique.specs.Unique.{is_unique};

/// Over each database that meets the schema no two rows of a unique plan are equal.
pub fn unique_rows()
    ensures { (schema : Tables) → IsWellFormed schema → (p : Plan) → IsTyped schema p → IsTrue (is_unique schema p) → (db : Database) → MeetsSchema schema db → IsDistinct one_row (rows_of schema p db) }
{}
