//! Laws of the definitions. These functions compute nothing; what they ensure is the law.
ghost use Rattle.std.specs.Prelude.{ℕ, List};
ghost use Rattle.vkg_schema.specs.declared.table.Table.{Table};
ghost use Rattle.vkg_maps.specs.declared.mapping.Mapping.{Mapping};
ghost use Rattle.vkg_direct.specs.Within.{DirectIsWithin, DirectIsWritable};

/// What the direct mapping names is in the schema.
pub fn mappings()
    ensures { (schema : List Table) (base : List ℕ) (mapping : Mapping) → DirectIsWithin schema base mapping }
{}

/// What the direct mapping makes can be written in N-Quads.
pub fn terms()
    ensures { (schema : List Table) (base : List ℕ) (mapping : Mapping) → DirectIsWritable schema base mapping }
{}
