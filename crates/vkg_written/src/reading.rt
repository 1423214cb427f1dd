//! Laws of the mappings that are read. These functions compute nothing; what they ensure is the law.
ghost use Rattle.std.specs.Prelude.{ℕ, List};
ghost use Rattle.vkg_turtle.specs.declared.triple.Triple.{Triple};
ghost use Rattle.vkg_schema.specs.declared.table.Table.{Table};
ghost use Rattle.vkg_maps.specs.declared.mapping.Mapping.{Mapping};
ghost use Rattle.vkg_tables.specs.Seen.{Seen};
ghost use Rattle.vkg_written.specs.Mappings.{DocumentIsWritable, HasLines, MappingIsWritable, ReadIsWritable};

/// What a mapping makes that is read of a graph whose objects can be written can be written (RDF 1.1 N-Quads, 4).
pub fn graphs()
    ensures { (triples : List Triple) (schema : List Table) (base : List ℕ) (mapping : Mapping) → ReadIsWritable triples schema base mapping }
{}

/// The objects of a document can be written.
pub fn documents()
    ensures { (bytes base : List ℕ) (triples : List Triple) → DocumentIsWritable bytes base triples }
{}

/// What a mapping makes that is read of a document can be written.
pub fn mappings()
    ensures { (bytes against : List ℕ) (triples : List Triple) (schema : List Table) (base : List ℕ) (mapping : Mapping)
        → MappingIsWritable bytes against triples schema base mapping }
{}

/// The dump of a mapping that is read of a document has a line for each quad, and no two quads share one.
pub fn lines()
    ensures { (bytes against : List ℕ) (triples : List Triple) (base : List ℕ) (mapping : Mapping) (db : Seen)
        → HasLines bytes against triples base mapping db }
{}
