//! The symbols of the grammar of queries: printed from tools/sparql.grammar by tools/grammar_table.py.

/// `query = { BASE IRIREF | PREFIX PNAME_NS IRIREF } form`
pub const QUERY: usize = 0;

/// `BASE`
pub const TOKEN_BASE: usize = 1;

/// `IRIREF`
pub const TOKEN_IRIREF: usize = 2;

/// `BASE IRIREF`
pub const QUERY_1: usize = 3;

/// `PREFIX`
pub const TOKEN_PREFIX: usize = 4;

/// `PNAME_NS`
pub const TOKEN_PNAME_NS: usize = 5;

/// `PNAME_NS IRIREF`
pub const QUERY_2: usize = 6;

/// `PREFIX PNAME_NS IRIREF`
pub const QUERY_3: usize = 7;

/// `BASE IRIREF | PREFIX PNAME_NS IRIREF`
pub const QUERY_4: usize = 8;

/// `{ BASE IRIREF | PREFIX PNAME_NS IRIREF }`
pub const QUERY_5: usize = 9;

/// `form = SELECT [ DISTINCT | REDUCED ] selection solutions | ASK [ WHERE ] group | CONSTRUCT "{" [ block ] "}" solutions`
pub const FORM: usize = 10;

/// `SELECT`
pub const TOKEN_SELECT: usize = 11;

/// `DISTINCT`
pub const TOKEN_DISTINCT: usize = 12;

/// `REDUCED`
pub const TOKEN_REDUCED: usize = 13;

/// `DISTINCT | REDUCED`
pub const FORM_1: usize = 14;

/// `[ DISTINCT | REDUCED ]`
pub const FORM_2: usize = 15;

/// `selection = VAR { VAR } | "*"`
pub const SELECTION: usize = 16;

/// `VAR`
pub const TOKEN_VAR: usize = 17;

/// `{ VAR }`
pub const SELECTION_1: usize = 18;

/// `VAR { VAR }`
pub const SELECTION_2: usize = 19;

/// `"*"`
pub const TOKEN_STAR: usize = 20;

/// `solutions = [ WHERE ] group [ order ] [ slice ]`
pub const SOLUTIONS: usize = 21;

/// `WHERE`
pub const TOKEN_WHERE: usize = 22;

/// `[ WHERE ]`
pub const SOLUTIONS_1: usize = 23;

/// `group = "{" [ block ] { part [ "." ] [ block ] } "}"`
pub const GROUP: usize = 24;

/// `"{"`
pub const TOKEN_OPEN_BRACE: usize = 25;

/// `block = same [ "." [ block ] ]`
pub const BLOCK: usize = 26;

/// `same = item plist | "[" ( "]" plist | plist "]" [ plist ] )`
pub const SAME: usize = 27;

/// `item = VAR | iri | BLANK | literal`
pub const ITEM: usize = 28;

/// `iri = IRIREF | PNAME_LN | PNAME_NS`
pub const IRI: usize = 29;

/// `PNAME_LN`
pub const TOKEN_PNAME_LN: usize = 30;

/// `PNAME_LN | PNAME_NS`
pub const IRI_FROM_2: usize = 31;

/// `BLANK`
pub const TOKEN_BLANK: usize = 32;

/// `literal = STRING [ LANGTAG | "^^" iri ] | INTEGER | DECIMAL | true | false`
pub const LITERAL: usize = 33;

/// `STRING`
pub const TOKEN_STRING: usize = 34;

/// `LANGTAG`
pub const TOKEN_LANGTAG: usize = 35;

/// `"^^"`
pub const TOKEN_CARETS: usize = 36;

/// `"^^" iri`
pub const LITERAL_1: usize = 37;

/// `LANGTAG | "^^" iri`
pub const LITERAL_2: usize = 38;

/// `[ LANGTAG | "^^" iri ]`
pub const LITERAL_3: usize = 39;

/// `STRING [ LANGTAG | "^^" iri ]`
pub const LITERAL_4: usize = 40;

/// `INTEGER`
pub const TOKEN_INTEGER: usize = 41;

/// `DECIMAL`
pub const TOKEN_DECIMAL: usize = 42;

/// `true`
pub const TOKEN_TRUE: usize = 43;

/// `false`
pub const TOKEN_FALSE: usize = 44;

/// `true | false`
pub const LITERAL_FROM_4: usize = 45;

/// `DECIMAL | true | false`
pub const LITERAL_FROM_3: usize = 46;

/// `INTEGER | DECIMAL | true | false`
pub const LITERAL_FROM_2: usize = 47;

/// `BLANK | literal`
pub const ITEM_FROM_3: usize = 48;

/// `iri | BLANK | literal`
pub const ITEM_FROM_2: usize = 49;

/// `plist = verb olist { ";" [ verb olist ] }`
pub const PLIST: usize = 50;

/// `verb = VAR | iri | a`
pub const VERB: usize = 51;

/// `a`
pub const TOKEN_IS_A: usize = 52;

/// `iri | a`
pub const VERB_FROM_2: usize = 53;

/// `olist = object { "," object }`
pub const OLIST: usize = 54;

/// `object = item | "[" [ plist ] "]"`
pub const OBJECT: usize = 55;

/// `"["`
pub const TOKEN_OPEN_BRACKET: usize = 56;

/// `[ plist ]`
pub const OBJECT_1: usize = 57;

/// `"]"`
pub const TOKEN_CLOSE_BRACKET: usize = 58;

/// `[ plist ] "]"`
pub const OBJECT_2: usize = 59;

/// `"[" [ plist ] "]"`
pub const OBJECT_3: usize = 60;

/// `","`
pub const TOKEN_COMMA: usize = 61;

/// `"," object`
pub const OLIST_1: usize = 62;

/// `{ "," object }`
pub const OLIST_2: usize = 63;

/// `";"`
pub const TOKEN_SEMICOLON: usize = 64;

/// `verb olist`
pub const PLIST_1: usize = 65;

/// `[ verb olist ]`
pub const PLIST_2: usize = 66;

/// `";" [ verb olist ]`
pub const PLIST_3: usize = 67;

/// `{ ";" [ verb olist ] }`
pub const PLIST_4: usize = 68;

/// `olist { ";" [ verb olist ] }`
pub const PLIST_5: usize = 69;

/// `item plist`
pub const SAME_1: usize = 70;

/// `"]" plist`
pub const SAME_2: usize = 71;

/// `"]" [ plist ]`
pub const SAME_3: usize = 72;

/// `plist "]" [ plist ]`
pub const SAME_4: usize = 73;

/// `"]" plist | plist "]" [ plist ]`
pub const SAME_5: usize = 74;

/// `"[" ( "]" plist | plist "]" [ plist ] )`
pub const SAME_6: usize = 75;

/// `"."`
pub const TOKEN_DOT: usize = 76;

/// `[ block ]`
pub const BLOCK_1: usize = 77;

/// `"." [ block ]`
pub const BLOCK_2: usize = 78;

/// `[ "." [ block ] ]`
pub const BLOCK_3: usize = 79;

/// `[ block ]`
pub const GROUP_1: usize = 80;

/// `part = OPTIONAL group | GRAPH name group | FILTER filter | group { UNION group } | MINUS group | BIND "(" or AS VAR ")" | VALUES table`
pub const PART: usize = 81;

/// `OPTIONAL`
pub const TOKEN_OPTIONAL: usize = 82;

/// `OPTIONAL group`
pub const PART_1: usize = 83;

/// `GRAPH`
pub const TOKEN_GRAPH: usize = 84;

/// `name = VAR | iri`
pub const NAME: usize = 85;

/// `name group`
pub const PART_2: usize = 86;

/// `GRAPH name group`
pub const PART_3: usize = 87;

/// `FILTER`
pub const TOKEN_FILTER: usize = 88;

/// `filter = bracketed | call`
pub const FILTER: usize = 89;

/// `bracketed = "(" or ")"`
pub const BRACKETED: usize = 90;

/// `"("`
pub const TOKEN_OPEN: usize = 91;

/// `or = and { "||" and }`
pub const OR: usize = 92;

/// `and = rel { "&&" rel }`
pub const AND: usize = 93;

/// `rel = unary [ sign unary ]`
pub const REL: usize = 94;

/// `unary = [ "!" ] primary`
pub const UNARY: usize = 95;

/// `"!"`
pub const TOKEN_NOT: usize = 96;

/// `[ "!" ]`
pub const UNARY_1: usize = 97;

/// `primary = bracketed | call | VAR | iri | literal`
pub const PRIMARY: usize = 98;

/// `call = BOUND "(" VAR ")" | two "(" or "," or ")" | test bracketed`
pub const CALL: usize = 99;

/// `BOUND`
pub const TOKEN_BOUND: usize = 100;

/// `")"`
pub const TOKEN_CLOSE: usize = 101;

/// `VAR ")"`
pub const CALL_1: usize = 102;

/// `"(" VAR ")"`
pub const CALL_2: usize = 103;

/// `BOUND "(" VAR ")"`
pub const CALL_3: usize = 104;

/// `two = SAMETERM | STRSTARTS | STRENDS | CONTAINS`
pub const TWO: usize = 105;

/// `SAMETERM`
pub const TOKEN_SAMETERM: usize = 106;

/// `STRSTARTS`
pub const TOKEN_STRSTARTS: usize = 107;

/// `STRENDS`
pub const TOKEN_STRENDS: usize = 108;

/// `CONTAINS`
pub const TOKEN_CONTAINS: usize = 109;

/// `STRENDS | CONTAINS`
pub const TWO_FROM_3: usize = 110;

/// `STRSTARTS | STRENDS | CONTAINS`
pub const TWO_FROM_2: usize = 111;

/// `or ")"`
pub const CALL_4: usize = 112;

/// `"," or ")"`
pub const CALL_5: usize = 113;

/// `or "," or ")"`
pub const CALL_6: usize = 114;

/// `"(" or "," or ")"`
pub const CALL_7: usize = 115;

/// `two "(" or "," or ")"`
pub const CALL_8: usize = 116;

/// `test = ISIRI | ISURI | ISBLANK | ISLITERAL | ISNUMERIC | STR | LANG | DATATYPE | STRLEN`
pub const TEST: usize = 117;

/// `ISIRI`
pub const TOKEN_ISIRI: usize = 118;

/// `ISURI`
pub const TOKEN_ISURI: usize = 119;

/// `ISBLANK`
pub const TOKEN_ISBLANK: usize = 120;

/// `ISLITERAL`
pub const TOKEN_ISLITERAL: usize = 121;

/// `ISNUMERIC`
pub const TOKEN_ISNUMERIC: usize = 122;

/// `STR`
pub const TOKEN_STR: usize = 123;

/// `LANG`
pub const TOKEN_LANG: usize = 124;

/// `DATATYPE`
pub const TOKEN_DATATYPE: usize = 125;

/// `STRLEN`
pub const TOKEN_STRLEN: usize = 126;

/// `DATATYPE | STRLEN`
pub const TEST_FROM_8: usize = 127;

/// `LANG | DATATYPE | STRLEN`
pub const TEST_FROM_7: usize = 128;

/// `STR | LANG | DATATYPE | STRLEN`
pub const TEST_FROM_6: usize = 129;

/// `ISNUMERIC | STR | LANG | DATATYPE | STRLEN`
pub const TEST_FROM_5: usize = 130;

/// `ISLITERAL | ISNUMERIC | STR | LANG | DATATYPE | STRLEN`
pub const TEST_FROM_4: usize = 131;

/// `ISBLANK | ISLITERAL | ISNUMERIC | STR | LANG | DATATYPE | STRLEN`
pub const TEST_FROM_3: usize = 132;

/// `ISURI | ISBLANK | ISLITERAL | ISNUMERIC | STR | LANG | DATATYPE | STRLEN`
pub const TEST_FROM_2: usize = 133;

/// `test bracketed`
pub const CALL_9: usize = 134;

/// `two "(" or "," or ")" | test bracketed`
pub const CALL_FROM_2: usize = 135;

/// `iri | literal`
pub const PRIMARY_FROM_4: usize = 136;

/// `VAR | iri | literal`
pub const PRIMARY_FROM_3: usize = 137;

/// `call | VAR | iri | literal`
pub const PRIMARY_FROM_2: usize = 138;

/// `sign = "=" | "!=" | "<" | ">" | "<=" | ">="`
pub const SIGN: usize = 139;

/// `"="`
pub const TOKEN_EQUAL: usize = 140;

/// `"!="`
pub const TOKEN_NOT_EQUAL: usize = 141;

/// `"<"`
pub const TOKEN_LESS: usize = 142;

/// `">"`
pub const TOKEN_GREATER: usize = 143;

/// `"<="`
pub const TOKEN_LESS_EQUAL: usize = 144;

/// `">="`
pub const TOKEN_GREATER_EQUAL: usize = 145;

/// `"<=" | ">="`
pub const SIGN_FROM_5: usize = 146;

/// `">" | "<=" | ">="`
pub const SIGN_FROM_4: usize = 147;

/// `"<" | ">" | "<=" | ">="`
pub const SIGN_FROM_3: usize = 148;

/// `"!=" | "<" | ">" | "<=" | ">="`
pub const SIGN_FROM_2: usize = 149;

/// `sign unary`
pub const REL_1: usize = 150;

/// `[ sign unary ]`
pub const REL_2: usize = 151;

/// `"&&"`
pub const TOKEN_AND: usize = 152;

/// `"&&" rel`
pub const AND_1: usize = 153;

/// `{ "&&" rel }`
pub const AND_2: usize = 154;

/// `"||"`
pub const TOKEN_OR: usize = 155;

/// `"||" and`
pub const OR_1: usize = 156;

/// `{ "||" and }`
pub const OR_2: usize = 157;

/// `or ")"`
pub const BRACKETED_1: usize = 158;

/// `FILTER filter`
pub const PART_4: usize = 159;

/// `UNION`
pub const TOKEN_UNION: usize = 160;

/// `UNION group`
pub const PART_5: usize = 161;

/// `{ UNION group }`
pub const PART_6: usize = 162;

/// `group { UNION group }`
pub const PART_7: usize = 163;

/// `MINUS`
pub const TOKEN_MINUS: usize = 164;

/// `MINUS group`
pub const PART_8: usize = 165;

/// `BIND`
pub const TOKEN_BIND: usize = 166;

/// `AS`
pub const TOKEN_AS: usize = 167;

/// `AS VAR ")"`
pub const PART_9: usize = 168;

/// `or AS VAR ")"`
pub const PART_10: usize = 169;

/// `"(" or AS VAR ")"`
pub const PART_11: usize = 170;

/// `BIND "(" or AS VAR ")"`
pub const PART_12: usize = 171;

/// `VALUES`
pub const TOKEN_VALUES: usize = 172;

/// `table = VAR "{" { value } "}" | "(" { VAR } ")" "{" { row } "}"`
pub const TABLE: usize = 173;

/// `value = iri | literal | UNDEF`
pub const VALUE: usize = 174;

/// `UNDEF`
pub const TOKEN_UNDEF: usize = 175;

/// `literal | UNDEF`
pub const VALUE_FROM_2: usize = 176;

/// `{ value }`
pub const TABLE_1: usize = 177;

/// `"}"`
pub const TOKEN_CLOSE_BRACE: usize = 178;

/// `{ value } "}"`
pub const TABLE_2: usize = 179;

/// `"{" { value } "}"`
pub const TABLE_3: usize = 180;

/// `VAR "{" { value } "}"`
pub const TABLE_4: usize = 181;

/// `row = "(" { value } ")"`
pub const ROW: usize = 182;

/// `{ value } ")"`
pub const ROW_1: usize = 183;

/// `{ row }`
pub const TABLE_5: usize = 184;

/// `{ row } "}"`
pub const TABLE_6: usize = 185;

/// `"{" { row } "}"`
pub const TABLE_7: usize = 186;

/// `")" "{" { row } "}"`
pub const TABLE_8: usize = 187;

/// `{ VAR } ")" "{" { row } "}"`
pub const TABLE_9: usize = 188;

/// `"(" { VAR } ")" "{" { row } "}"`
pub const TABLE_10: usize = 189;

/// `VALUES table`
pub const PART_13: usize = 190;

/// `BIND "(" or AS VAR ")" | VALUES table`
pub const PART_FROM_6: usize = 191;

/// `MINUS group | BIND "(" or AS VAR ")" | VALUES table`
pub const PART_FROM_5: usize = 192;

/// `group { UNION group } | MINUS group | BIND "(" or AS VAR ")" | VALUES table`
pub const PART_FROM_4: usize = 193;

/// `FILTER filter | group { UNION group } | MINUS group | BIND "(" or AS VAR ")" | VALUES table`
pub const PART_FROM_3: usize = 194;

/// `GRAPH name group | FILTER filter | group { UNION group } | MINUS group | BIND "(" or AS VAR ")" | VALUES table`
pub const PART_FROM_2: usize = 195;

/// `[ "." ]`
pub const GROUP_2: usize = 196;

/// `[ "." ] [ block ]`
pub const GROUP_3: usize = 197;

/// `part [ "." ] [ block ]`
pub const GROUP_4: usize = 198;

/// `{ part [ "." ] [ block ] }`
pub const GROUP_5: usize = 199;

/// `{ part [ "." ] [ block ] } "}"`
pub const GROUP_6: usize = 200;

/// `[ block ] { part [ "." ] [ block ] } "}"`
pub const GROUP_7: usize = 201;

/// `order = ORDER BY key { key }`
pub const ORDER: usize = 202;

/// `ORDER`
pub const TOKEN_ORDER: usize = 203;

/// `BY`
pub const TOKEN_BY: usize = 204;

/// `key = VAR | call | bracketed | direction bracketed`
pub const KEY: usize = 205;

/// `direction = ASC | DESC`
pub const DIRECTION: usize = 206;

/// `ASC`
pub const TOKEN_ASC: usize = 207;

/// `DESC`
pub const TOKEN_DESC: usize = 208;

/// `direction bracketed`
pub const KEY_1: usize = 209;

/// `bracketed | direction bracketed`
pub const KEY_FROM_3: usize = 210;

/// `call | bracketed | direction bracketed`
pub const KEY_FROM_2: usize = 211;

/// `{ key }`
pub const ORDER_1: usize = 212;

/// `key { key }`
pub const ORDER_2: usize = 213;

/// `BY key { key }`
pub const ORDER_3: usize = 214;

/// `[ order ]`
pub const SOLUTIONS_2: usize = 215;

/// `slice = LIMIT INTEGER [ OFFSET INTEGER ] | OFFSET INTEGER [ LIMIT INTEGER ]`
pub const SLICE: usize = 216;

/// `LIMIT`
pub const TOKEN_LIMIT: usize = 217;

/// `OFFSET`
pub const TOKEN_OFFSET: usize = 218;

/// `OFFSET INTEGER`
pub const SLICE_1: usize = 219;

/// `[ OFFSET INTEGER ]`
pub const SLICE_2: usize = 220;

/// `INTEGER [ OFFSET INTEGER ]`
pub const SLICE_3: usize = 221;

/// `LIMIT INTEGER [ OFFSET INTEGER ]`
pub const SLICE_4: usize = 222;

/// `LIMIT INTEGER`
pub const SLICE_5: usize = 223;

/// `[ LIMIT INTEGER ]`
pub const SLICE_6: usize = 224;

/// `INTEGER [ LIMIT INTEGER ]`
pub const SLICE_7: usize = 225;

/// `OFFSET INTEGER [ LIMIT INTEGER ]`
pub const SLICE_8: usize = 226;

/// `[ slice ]`
pub const SOLUTIONS_3: usize = 227;

/// `[ order ] [ slice ]`
pub const SOLUTIONS_4: usize = 228;

/// `group [ order ] [ slice ]`
pub const SOLUTIONS_5: usize = 229;

/// `selection solutions`
pub const FORM_3: usize = 230;

/// `[ DISTINCT | REDUCED ] selection solutions`
pub const FORM_4: usize = 231;

/// `SELECT [ DISTINCT | REDUCED ] selection solutions`
pub const FORM_5: usize = 232;

/// `ASK`
pub const TOKEN_ASK: usize = 233;

/// `[ WHERE ] group`
pub const FORM_6: usize = 234;

/// `ASK [ WHERE ] group`
pub const FORM_7: usize = 235;

/// `CONSTRUCT`
pub const TOKEN_CONSTRUCT: usize = 236;

/// `"}" solutions`
pub const FORM_8: usize = 237;

/// `[ block ] "}" solutions`
pub const FORM_9: usize = 238;

/// `"{" [ block ] "}" solutions`
pub const FORM_10: usize = 239;

/// `CONSTRUCT "{" [ block ] "}" solutions`
pub const FORM_11: usize = 240;

/// `ASK [ WHERE ] group | CONSTRUCT "{" [ block ] "}" solutions`
pub const FORM_FROM_2: usize = 241;

/// How many symbols there are.
pub const SYMBOL_COUNT: usize = 242;
