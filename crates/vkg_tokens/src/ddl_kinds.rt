//! The kinds of the tokens of the data definition language of SQL: printed from tools/ddl.grammar by tools/grammar_table.py.

/// `CREATE`
pub const CREATE: usize = 0;

/// `TABLE`
pub const TABLE: usize = 1;

/// `(`
pub const OPEN: usize = 2;

/// `,`
pub const COMMA: usize = 3;

/// `)`
pub const CLOSE: usize = 4;

/// `;`
pub const SEMICOLON: usize = 5;

/// `WORD`
pub const WORD: usize = 6;

/// `INT`
pub const INT: usize = 7;

/// `CONSTRAINT`
pub const CONSTRAINT: usize = 8;

/// `NOT`
pub const NOT: usize = 9;

/// `NULL`
pub const NULL: usize = 10;

/// `PRIMARY`
pub const PRIMARY: usize = 11;

/// `KEY`
pub const KEY: usize = 12;

/// `UNIQUE`
pub const UNIQUE: usize = 13;

/// `REFERENCES`
pub const REFERENCES: usize = 14;

/// `FOREIGN`
pub const FOREIGN: usize = 15;

/// `DELIMITED`
pub const DELIMITED: usize = 16;

/// How many kinds there are.
pub const KIND_COUNT: usize = 17;
