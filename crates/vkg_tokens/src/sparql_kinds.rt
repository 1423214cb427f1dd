//! The kinds of the tokens of SPARQL: printed from tools/sparql.grammar by tools/grammar_table.py.

/// `{`
pub const OPEN_BRACE: usize = 0;

/// `}`
pub const CLOSE_BRACE: usize = 1;

/// `(`
pub const OPEN: usize = 2;

/// `)`
pub const CLOSE: usize = 3;

/// `[`
pub const OPEN_BRACKET: usize = 4;

/// `]`
pub const CLOSE_BRACKET: usize = 5;

/// `.`
pub const DOT: usize = 6;

/// `;`
pub const SEMICOLON: usize = 7;

/// `,`
pub const COMMA: usize = 8;

/// `=`
pub const EQUAL: usize = 9;

/// `!=`
pub const NOT_EQUAL: usize = 10;

/// `<`
pub const LESS: usize = 11;

/// `>`
pub const GREATER: usize = 12;

/// `<=`
pub const LESS_EQUAL: usize = 13;

/// `>=`
pub const GREATER_EQUAL: usize = 14;

/// `!`
pub const NOT: usize = 15;

/// `&&`
pub const AND: usize = 16;

/// `||`
pub const OR: usize = 17;

/// `*`
pub const STAR: usize = 18;

/// `/`
pub const SLASH: usize = 19;

/// `|`
pub const BAR: usize = 20;

/// `^`
pub const CARET: usize = 21;

/// `^^`
pub const CARETS: usize = 22;

/// `+`
pub const PLUS_SIGN: usize = 23;

/// `-`
pub const MINUS_SIGN: usize = 24;

/// `?`
pub const QUESTION: usize = 25;

/// `IRIREF`
pub const IRIREF: usize = 26;

/// `PNAME_NS`
pub const PNAME_NS: usize = 27;

/// `PNAME_LN`
pub const PNAME_LN: usize = 28;

/// `BLANK`
pub const BLANK: usize = 29;

/// `VAR`
pub const VAR: usize = 30;

/// `STRING`
pub const STRING: usize = 31;

/// `LANGTAG`
pub const LANGTAG: usize = 32;

/// `INTEGER`
pub const INTEGER: usize = 33;

/// `DECIMAL`
pub const DECIMAL: usize = 34;

/// `DOUBLE`
pub const DOUBLE: usize = 35;

/// `a`
pub const IS_A: usize = 36;

/// `true`
pub const TRUE: usize = 37;

/// `false`
pub const FALSE: usize = 38;

/// `BASE`
pub const BASE: usize = 39;

/// `PREFIX`
pub const PREFIX: usize = 40;

/// `SELECT`
pub const SELECT: usize = 41;

/// `DISTINCT`
pub const DISTINCT: usize = 42;

/// `REDUCED`
pub const REDUCED: usize = 43;

/// `WHERE`
pub const WHERE: usize = 44;

/// `OPTIONAL`
pub const OPTIONAL: usize = 45;

/// `GRAPH`
pub const GRAPH: usize = 46;

/// `FILTER`
pub const FILTER: usize = 47;

/// `UNION`
pub const UNION: usize = 48;

/// `BOUND`
pub const BOUND: usize = 49;

/// `SAMETERM`
pub const SAMETERM: usize = 50;

/// `ISIRI`
pub const ISIRI: usize = 51;

/// `ISURI`
pub const ISURI: usize = 52;

/// `ISBLANK`
pub const ISBLANK: usize = 53;

/// `ISLITERAL`
pub const ISLITERAL: usize = 54;

/// `ISNUMERIC`
pub const ISNUMERIC: usize = 55;

/// `STR`
pub const STR: usize = 56;

/// `LANG`
pub const LANG: usize = 57;

/// `DATATYPE`
pub const DATATYPE: usize = 58;

/// `OUTSIDE`
pub const OUTSIDE: usize = 59;

/// `WORD`
pub const WORD: usize = 60;

/// `STRLEN`
pub const STRLEN: usize = 61;

/// `STRSTARTS`
pub const STRSTARTS: usize = 62;

/// `STRENDS`
pub const STRENDS: usize = 63;

/// `CONTAINS`
pub const CONTAINS: usize = 64;

/// `MINUS`
pub const MINUS: usize = 65;

/// `BIND`
pub const BIND: usize = 66;

/// `AS`
pub const AS: usize = 67;

/// `VALUES`
pub const VALUES: usize = 68;

/// `UNDEF`
pub const UNDEF: usize = 69;

/// `ORDER`
pub const ORDER: usize = 70;

/// `BY`
pub const BY: usize = 71;

/// `LIMIT`
pub const LIMIT: usize = 72;

/// `OFFSET`
pub const OFFSET: usize = 73;

/// `ASC`
pub const ASC: usize = 74;

/// `DESC`
pub const DESC: usize = 75;

/// `ASK`
pub const ASK: usize = 76;

/// `CONSTRUCT`
pub const CONSTRUCT: usize = 77;

/// How many kinds there are.
pub const KIND_COUNT: usize = 78;
