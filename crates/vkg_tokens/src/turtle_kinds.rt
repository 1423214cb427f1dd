//! The kinds of the tokens of Turtle: printed from tools/turtle.grammar by tools/grammar_table.py.

/// `AT_PREFIX`
pub const AT_PREFIX: usize = 0;

/// `AT_BASE`
pub const AT_BASE: usize = 1;

/// `PREFIX`
pub const PREFIX: usize = 2;

/// `BASE`
pub const BASE: usize = 3;

/// `.`
pub const DOT: usize = 4;

/// `[`
pub const OPEN_BRACKET: usize = 5;

/// `]`
pub const CLOSE_BRACKET: usize = 6;

/// `;`
pub const SEMICOLON: usize = 7;

/// `,`
pub const COMMA: usize = 8;

/// `a`
pub const IS_A: usize = 9;

/// `^^`
pub const CARETS: usize = 10;

/// `true`
pub const TRUE: usize = 11;

/// `false`
pub const FALSE: usize = 12;

/// `(`
pub const OPEN: usize = 13;

/// `)`
pub const CLOSE: usize = 14;

/// `IRIREF`
pub const IRIREF: usize = 15;

/// `PNAME_NS`
pub const PNAME_NS: usize = 16;

/// `PNAME_LN`
pub const PNAME_LN: usize = 17;

/// `BLANK`
pub const BLANK: usize = 18;

/// `STRING`
pub const STRING: usize = 19;

/// `LANGTAG`
pub const LANGTAG: usize = 20;

/// `INTEGER`
pub const INTEGER: usize = 21;

/// `DECIMAL`
pub const DECIMAL: usize = 22;

/// `DOUBLE`
pub const DOUBLE: usize = 23;

/// `WORD`
pub const WORD: usize = 24;

/// How many kinds there are.
pub const KIND_COUNT: usize = 25;
