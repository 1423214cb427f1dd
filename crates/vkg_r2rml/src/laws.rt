//! Laws of the definitions, in the words of the standard. These functions compute nothing; what they ensure is the law.
ghost use Rattle.std.specs.Prelude.{ℕ, List};
ghost use Rattle.vkg_turtle.specs.declared.triple.Triple.{Triple};
ghost use Rattle.vkg_schema.specs.declared.table.Table.{Table};
ghost use Rattle.vkg_maps.specs.declared.mapping.Mapping.{Mapping};
ghost use Rattle.vkg_r2rml.specs.Within.{ReadIsWithin};

/// What a mapping that is read names is in the schema (R2RML, 5.1, 7.2, 7.3 and 8).
pub fn mappings()
    ensures { (triples : List Triple) (schema : List Table) (base : List ℕ) (mapping : Mapping) → ReadIsWithin triples schema base mapping }
{}
