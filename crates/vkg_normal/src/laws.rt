//! Laws of the definitions. These functions compute nothing; what they ensure is the law.
ghost use Rattle.vkg_schema.specs.Meets.{IsWellFormed};
ghost use Rattle.vkg_plan.specs.Kinds.{Tables};
ghost use Rattle.vkg_plan.specs.Plan.{Plan};
ghost use Rattle.vkg_rules.specs.Steps.{IsTyped};
ghost use Rattle.vkg_normal.specs.Laws.{HasNormalForm};

/// Each well-typed plan has one end under the rules, its normal form, with the same columns and the same bags of rows.
pub fn normal_forms()
    ensures { (schema : Tables) → IsWellFormed schema → (p : Plan) → IsTyped schema p → HasNormalForm schema p }
{}
