// The company of two tables: its texts, its dump, and a query over it with a mapping.

/// The words of its dump by the direct mapping, which loads three files.
pub const DUMP: &str = "vkg dump --schema s --data d --base http://e/";

/// The words of its query by a mapping with a referencing object map, which loads five files.
pub const QUERY: &str = "vkg query --schema s --data d --base http://e/ --mapping m --query q";

pub const SCHEMA: &str =
    "CREATE TABLE dept (id INTEGER PRIMARY KEY, title VARCHAR(20)); CREATE TABLE emp (id INTEGER PRIMARY KEY, name VARCHAR(20), dept INTEGER REFERENCES dept);";

pub const DEPT: &str = "id,title\n1,Ore\n2,\\N\n";

pub const EMP: &str = "id,name,dept\n7,Ann,1\n8,Bo,\\N\n9,Ann,1\n";

pub const MAPPING: &str =
    "@prefix rr: <http://www.w3.org/ns/r2rml#> . <#e> rr:logicalTable [ rr:tableName \"emp\" ] ; rr:subjectMap [ rr:template \"http://e/emp/{id}\" ] ; rr:predicateObjectMap [ rr:predicate <http://e/in> ; rr:objectMap [ rr:parentTriplesMap <#d> ; rr:joinCondition [ rr:child \"dept\" ; rr:parent \"id\" ] ] ] . <#d> rr:logicalTable [ rr:tableName \"dept\" ] ; rr:subjectMap [ rr:template \"http://e/d/{id}\" ] .";

pub const OPTIONAL: &str =
    "SELECT ?n ?d { ?e <http://e/emp#name> ?n OPTIONAL { ?e <http://e/emp#ref-dept> ?d } }";

pub const FILES: [(&str, &str); 5] = [
    ("s", SCHEMA),
    ("d/dept.csv", DEPT),
    ("d/emp.csv", EMP),
    ("m", MAPPING),
    ("q", OPTIONAL),
];

/// What the dump writes, one write a line.
pub const DUMPED: &str =
    "<http://e/dept/id=1> <http://e/dept#id> \"1\"^^<http://www.w3.org/2001/XMLSchema#integer> .\n\
    <http://e/dept/id=1> <http://e/dept#title> \"Ore\" .\n\
    <http://e/dept/id=1> <http://www.w3.org/1999/02/22-rdf-syntax-ns#type> <http://e/dept> .\n\
    <http://e/dept/id=2> <http://e/dept#id> \"2\"^^<http://www.w3.org/2001/XMLSchema#integer> .\n\
    <http://e/dept/id=2> <http://www.w3.org/1999/02/22-rdf-syntax-ns#type> <http://e/dept> .\n\
    <http://e/emp/id=7> <http://e/emp#dept> \"1\"^^<http://www.w3.org/2001/XMLSchema#integer> .\n\
    <http://e/emp/id=7> <http://e/emp#id> \"7\"^^<http://www.w3.org/2001/XMLSchema#integer> .\n\
    <http://e/emp/id=7> <http://e/emp#name> \"Ann\" .\n\
    <http://e/emp/id=7> <http://e/emp#ref-dept> <http://e/dept/id=1> .\n\
    <http://e/emp/id=7> <http://www.w3.org/1999/02/22-rdf-syntax-ns#type> <http://e/emp> .\n\
    <http://e/emp/id=8> <http://e/emp#id> \"8\"^^<http://www.w3.org/2001/XMLSchema#integer> .\n\
    <http://e/emp/id=8> <http://e/emp#name> \"Bo\" .\n\
    <http://e/emp/id=8> <http://www.w3.org/1999/02/22-rdf-syntax-ns#type> <http://e/emp> .\n\
    <http://e/emp/id=9> <http://e/emp#dept> \"1\"^^<http://www.w3.org/2001/XMLSchema#integer> .\n\
    <http://e/emp/id=9> <http://e/emp#id> \"9\"^^<http://www.w3.org/2001/XMLSchema#integer> .\n\
    <http://e/emp/id=9> <http://e/emp#name> \"Ann\" .\n\
    <http://e/emp/id=9> <http://e/emp#ref-dept> <http://e/dept/id=1> .\n\
    <http://e/emp/id=9> <http://www.w3.org/1999/02/22-rdf-syntax-ns#type> <http://e/emp> .\n";

/// What the query writes: no rule of the mapping has the properties that it asks for.
pub const ANSWERED: &str = "?n\t?d\n";
