//! The symbols of the grammar of Turtle: printed from tools/turtle.grammar by tools/grammar_table.py.

/// `doc = { AT_PREFIX PNAME_NS@prefix_name IRIREF@prefix_iri "." | AT_BASE IRIREF@base_iri "." | PREFIX PNAME_NS@prefix_name IRIREF@prefix_iri | BASE IRIREF@base_iri | triples "." }`
pub const DOC: usize = 0;

/// `AT_PREFIX`
pub const TOKEN_AT_PREFIX: usize = 1;

/// `PNAME_NS@prefix_name`
pub const TOKEN_PNAME_NS_PREFIX_NAME: usize = 2;

/// `IRIREF@prefix_iri`
pub const TOKEN_IRIREF_PREFIX_IRI: usize = 3;

/// `"."`
pub const TOKEN_DOT: usize = 4;

/// `IRIREF@prefix_iri "."`
pub const DOC_1: usize = 5;

/// `PNAME_NS@prefix_name IRIREF@prefix_iri "."`
pub const DOC_2: usize = 6;

/// `AT_PREFIX PNAME_NS@prefix_name IRIREF@prefix_iri "."`
pub const DOC_3: usize = 7;

/// `AT_BASE`
pub const TOKEN_AT_BASE: usize = 8;

/// `IRIREF@base_iri`
pub const TOKEN_IRIREF_BASE_IRI: usize = 9;

/// `IRIREF@base_iri "."`
pub const DOC_4: usize = 10;

/// `AT_BASE IRIREF@base_iri "."`
pub const DOC_5: usize = 11;

/// `PREFIX`
pub const TOKEN_PREFIX: usize = 12;

/// `PNAME_NS@prefix_name IRIREF@prefix_iri`
pub const DOC_6: usize = 13;

/// `PREFIX PNAME_NS@prefix_name IRIREF@prefix_iri`
pub const DOC_7: usize = 14;

/// `BASE`
pub const TOKEN_BASE: usize = 15;

/// `BASE IRIREF@base_iri`
pub const DOC_8: usize = 16;

/// `triples = subject plist | "["@open_subject ( "]" plist | plist "]" [ plist ] )`
pub const TRIPLES: usize = 17;

/// `subject = iri@subject | BLANK@subject`
pub const SUBJECT: usize = 18;

/// `iri = IRIREF@subject | PNAME_LN@subject | PNAME_NS@subject`
pub const IRI_SUBJECT: usize = 19;

/// `IRIREF@subject`
pub const TOKEN_IRIREF_SUBJECT: usize = 20;

/// `PNAME_LN@subject`
pub const TOKEN_PNAME_LN_SUBJECT: usize = 21;

/// `PNAME_NS@subject`
pub const TOKEN_PNAME_NS_SUBJECT: usize = 22;

/// `PNAME_LN@subject | PNAME_NS@subject`
pub const IRI_SUBJECT_FROM_2: usize = 23;

/// `BLANK@subject`
pub const TOKEN_BLANK_SUBJECT: usize = 24;

/// `plist = verb olist { ";" [ verb olist ] }`
pub const PLIST: usize = 25;

/// `verb = iri@verb | a@verb`
pub const VERB: usize = 26;

/// `iri = IRIREF@verb | PNAME_LN@verb | PNAME_NS@verb`
pub const IRI_VERB: usize = 27;

/// `IRIREF@verb`
pub const TOKEN_IRIREF_VERB: usize = 28;

/// `PNAME_LN@verb`
pub const TOKEN_PNAME_LN_VERB: usize = 29;

/// `PNAME_NS@verb`
pub const TOKEN_PNAME_NS_VERB: usize = 30;

/// `PNAME_LN@verb | PNAME_NS@verb`
pub const IRI_VERB_FROM_2: usize = 31;

/// `a@verb`
pub const TOKEN_IS_A_VERB: usize = 32;

/// `olist = object { "," object }`
pub const OLIST: usize = 33;

/// `object = iri@object | BLANK@object | literal | "["@open_object [ plist ] "]"@close_object`
pub const OBJECT: usize = 34;

/// `iri = IRIREF@object | PNAME_LN@object | PNAME_NS@object`
pub const IRI_OBJECT: usize = 35;

/// `IRIREF@object`
pub const TOKEN_IRIREF_OBJECT: usize = 36;

/// `PNAME_LN@object`
pub const TOKEN_PNAME_LN_OBJECT: usize = 37;

/// `PNAME_NS@object`
pub const TOKEN_PNAME_NS_OBJECT: usize = 38;

/// `PNAME_LN@object | PNAME_NS@object`
pub const IRI_OBJECT_FROM_2: usize = 39;

/// `BLANK@object`
pub const TOKEN_BLANK_OBJECT: usize = 40;

/// `literal = STRING@object [ LANGTAG@language | "^^" iri@datatype ] | INTEGER@object | DECIMAL@object | DOUBLE@object | true@object | false@object`
pub const LITERAL: usize = 41;

/// `STRING@object`
pub const TOKEN_STRING_OBJECT: usize = 42;

/// `LANGTAG@language`
pub const TOKEN_LANGTAG_LANGUAGE: usize = 43;

/// `"^^"`
pub const TOKEN_CARETS: usize = 44;

/// `iri = IRIREF@datatype | PNAME_LN@datatype | PNAME_NS@datatype`
pub const IRI_DATATYPE: usize = 45;

/// `IRIREF@datatype`
pub const TOKEN_IRIREF_DATATYPE: usize = 46;

/// `PNAME_LN@datatype`
pub const TOKEN_PNAME_LN_DATATYPE: usize = 47;

/// `PNAME_NS@datatype`
pub const TOKEN_PNAME_NS_DATATYPE: usize = 48;

/// `PNAME_LN@datatype | PNAME_NS@datatype`
pub const IRI_DATATYPE_FROM_2: usize = 49;

/// `"^^" iri@datatype`
pub const LITERAL_1: usize = 50;

/// `LANGTAG@language | "^^" iri@datatype`
pub const LITERAL_2: usize = 51;

/// `[ LANGTAG@language | "^^" iri@datatype ]`
pub const LITERAL_3: usize = 52;

/// `STRING@object [ LANGTAG@language | "^^" iri@datatype ]`
pub const LITERAL_4: usize = 53;

/// `INTEGER@object`
pub const TOKEN_INTEGER_OBJECT: usize = 54;

/// `DECIMAL@object`
pub const TOKEN_DECIMAL_OBJECT: usize = 55;

/// `DOUBLE@object`
pub const TOKEN_DOUBLE_OBJECT: usize = 56;

/// `true@object`
pub const TOKEN_TRUE_OBJECT: usize = 57;

/// `false@object`
pub const TOKEN_FALSE_OBJECT: usize = 58;

/// `true@object | false@object`
pub const LITERAL_FROM_5: usize = 59;

/// `DOUBLE@object | true@object | false@object`
pub const LITERAL_FROM_4: usize = 60;

/// `DECIMAL@object | DOUBLE@object | true@object | false@object`
pub const LITERAL_FROM_3: usize = 61;

/// `INTEGER@object | DECIMAL@object | DOUBLE@object | true@object | false@object`
pub const LITERAL_FROM_2: usize = 62;

/// `"["@open_object`
pub const TOKEN_OPEN_BRACKET_OPEN_OBJECT: usize = 63;

/// `[ plist ]`
pub const OBJECT_1: usize = 64;

/// `"]"@close_object`
pub const TOKEN_CLOSE_BRACKET_CLOSE_OBJECT: usize = 65;

/// `[ plist ] "]"@close_object`
pub const OBJECT_2: usize = 66;

/// `"["@open_object [ plist ] "]"@close_object`
pub const OBJECT_3: usize = 67;

/// `literal | "["@open_object [ plist ] "]"@close_object`
pub const OBJECT_FROM_3: usize = 68;

/// `BLANK@object | literal | "["@open_object [ plist ] "]"@close_object`
pub const OBJECT_FROM_2: usize = 69;

/// `","`
pub const TOKEN_COMMA: usize = 70;

/// `"," object`
pub const OLIST_1: usize = 71;

/// `{ "," object }`
pub const OLIST_2: usize = 72;

/// `";"`
pub const TOKEN_SEMICOLON: usize = 73;

/// `verb olist`
pub const PLIST_1: usize = 74;

/// `[ verb olist ]`
pub const PLIST_2: usize = 75;

/// `";" [ verb olist ]`
pub const PLIST_3: usize = 76;

/// `{ ";" [ verb olist ] }`
pub const PLIST_4: usize = 77;

/// `olist { ";" [ verb olist ] }`
pub const PLIST_5: usize = 78;

/// `subject plist`
pub const TRIPLES_1: usize = 79;

/// `"["@open_subject`
pub const TOKEN_OPEN_BRACKET_OPEN_SUBJECT: usize = 80;

/// `"]"`
pub const TOKEN_CLOSE_BRACKET: usize = 81;

/// `"]" plist`
pub const TRIPLES_2: usize = 82;

/// `"]" [ plist ]`
pub const TRIPLES_3: usize = 83;

/// `plist "]" [ plist ]`
pub const TRIPLES_4: usize = 84;

/// `"]" plist | plist "]" [ plist ]`
pub const TRIPLES_5: usize = 85;

/// `"["@open_subject ( "]" plist | plist "]" [ plist ] )`
pub const TRIPLES_6: usize = 86;

/// `triples "."`
pub const DOC_9: usize = 87;

/// `BASE IRIREF@base_iri | triples "."`
pub const DOC_10: usize = 88;

/// `PREFIX PNAME_NS@prefix_name IRIREF@prefix_iri | BASE IRIREF@base_iri | triples "."`
pub const DOC_11: usize = 89;

/// `AT_BASE IRIREF@base_iri "." | PREFIX PNAME_NS@prefix_name IRIREF@prefix_iri | BASE IRIREF@base_iri | triples "."`
pub const DOC_12: usize = 90;

/// `AT_PREFIX PNAME_NS@prefix_name IRIREF@prefix_iri "." | AT_BASE IRIREF@base_iri "." | PREFIX PNAME_NS@prefix_name IRIREF@prefix_iri | BASE IRIREF@base_iri | triples "."`
pub const DOC_13: usize = 91;

/// How many symbols there are.
pub const SYMBOL_COUNT: usize = 92;
