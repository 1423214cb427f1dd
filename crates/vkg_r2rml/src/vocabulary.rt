// The names that triples maps are written with (R2RML, 5, 6 and 8).

pub const RR_TRIPLES_MAP: &str = "http://www.w3.org/ns/r2rml#TriplesMap";

pub const RR_LOGICAL_TABLE: &str = "http://www.w3.org/ns/r2rml#logicalTable";

pub const RR_TABLE_NAME: &str = "http://www.w3.org/ns/r2rml#tableName";

pub const RR_SQL_QUERY: &str = "http://www.w3.org/ns/r2rml#sqlQuery";

pub const RR_CLASS: &str = "http://www.w3.org/ns/r2rml#class";

pub const RR_PREDICATE_OBJECT_MAP: &str = "http://www.w3.org/ns/r2rml#predicateObjectMap";

pub const RR_PARENT_TRIPLES_MAP: &str = "http://www.w3.org/ns/r2rml#parentTriplesMap";

pub const RR_JOIN_CONDITION: &str = "http://www.w3.org/ns/r2rml#joinCondition";

pub const RR_CHILD: &str = "http://www.w3.org/ns/r2rml#child";

pub const RR_PARENT: &str = "http://www.w3.org/ns/r2rml#parent";
