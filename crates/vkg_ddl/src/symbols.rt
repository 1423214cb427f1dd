//! The symbols of the grammar of the data definition language: printed from tools/ddl.grammar by tools/grammar_table.py.

/// `schema = { CREATE TABLE name@table "(" element { "," element } ")" ";" }`
pub const SCHEMA: usize = 0;

/// `CREATE`
pub const TOKEN_CREATE: usize = 1;

/// `TABLE`
pub const TOKEN_TABLE: usize = 2;

/// `name = WORD@table | DELIMITED@table`
pub const NAME_TABLE: usize = 3;

/// `WORD@table`
pub const TOKEN_WORD_TABLE: usize = 4;

/// `DELIMITED@table`
pub const TOKEN_DELIMITED_TABLE: usize = 5;

/// `"("`
pub const TOKEN_OPEN: usize = 6;

/// `element = name@column WORD@kind [ "(" INT@number [ "," INT@number ] ")" ] { colrule } | [ CONSTRAINT name ] tabrule`
pub const ELEMENT: usize = 7;

/// `name = WORD@column | DELIMITED@column`
pub const NAME_COLUMN: usize = 8;

/// `WORD@column`
pub const TOKEN_WORD_COLUMN: usize = 9;

/// `DELIMITED@column`
pub const TOKEN_DELIMITED_COLUMN: usize = 10;

/// `WORD@kind`
pub const TOKEN_WORD_KIND: usize = 11;

/// `INT@number`
pub const TOKEN_INT_NUMBER: usize = 12;

/// `","`
pub const TOKEN_COMMA: usize = 13;

/// `"," INT@number`
pub const ELEMENT_1: usize = 14;

/// `[ "," INT@number ]`
pub const ELEMENT_2: usize = 15;

/// `")"`
pub const TOKEN_CLOSE: usize = 16;

/// `[ "," INT@number ] ")"`
pub const ELEMENT_3: usize = 17;

/// `INT@number [ "," INT@number ] ")"`
pub const ELEMENT_4: usize = 18;

/// `"(" INT@number [ "," INT@number ] ")"`
pub const ELEMENT_5: usize = 19;

/// `[ "(" INT@number [ "," INT@number ] ")" ]`
pub const ELEMENT_6: usize = 20;

/// `colrule = NOT@not_null NULL | PRIMARY@column_primary KEY | UNIQUE@column_unique | REFERENCES@column_references name@target [ "(" name@target_column ")" ]`
pub const COLRULE: usize = 21;

/// `NOT@not_null`
pub const TOKEN_NOT_NOT_NULL: usize = 22;

/// `NULL`
pub const TOKEN_NULL: usize = 23;

/// `NOT@not_null NULL`
pub const COLRULE_1: usize = 24;

/// `PRIMARY@column_primary`
pub const TOKEN_PRIMARY_COLUMN_PRIMARY: usize = 25;

/// `KEY`
pub const TOKEN_KEY: usize = 26;

/// `PRIMARY@column_primary KEY`
pub const COLRULE_2: usize = 27;

/// `UNIQUE@column_unique`
pub const TOKEN_UNIQUE_COLUMN_UNIQUE: usize = 28;

/// `REFERENCES@column_references`
pub const TOKEN_REFERENCES_COLUMN_REFERENCES: usize = 29;

/// `name = WORD@target | DELIMITED@target`
pub const NAME_TARGET: usize = 30;

/// `WORD@target`
pub const TOKEN_WORD_TARGET: usize = 31;

/// `DELIMITED@target`
pub const TOKEN_DELIMITED_TARGET: usize = 32;

/// `name = WORD@target_column | DELIMITED@target_column`
pub const NAME_TARGET_COLUMN: usize = 33;

/// `WORD@target_column`
pub const TOKEN_WORD_TARGET_COLUMN: usize = 34;

/// `DELIMITED@target_column`
pub const TOKEN_DELIMITED_TARGET_COLUMN: usize = 35;

/// `name@target_column ")"`
pub const COLRULE_3: usize = 36;

/// `"(" name@target_column ")"`
pub const COLRULE_4: usize = 37;

/// `[ "(" name@target_column ")" ]`
pub const COLRULE_5: usize = 38;

/// `name@target [ "(" name@target_column ")" ]`
pub const COLRULE_6: usize = 39;

/// `REFERENCES@column_references name@target [ "(" name@target_column ")" ]`
pub const COLRULE_7: usize = 40;

/// `UNIQUE@column_unique | REFERENCES@column_references name@target [ "(" name@target_column ")" ]`
pub const COLRULE_FROM_3: usize = 41;

/// `PRIMARY@column_primary KEY | UNIQUE@column_unique | REFERENCES@column_references name@target [ "(" name@target_column ")" ]`
pub const COLRULE_FROM_2: usize = 42;

/// `{ colrule }`
pub const ELEMENT_7: usize = 43;

/// `[ "(" INT@number [ "," INT@number ] ")" ] { colrule }`
pub const ELEMENT_8: usize = 44;

/// `WORD@kind [ "(" INT@number [ "," INT@number ] ")" ] { colrule }`
pub const ELEMENT_9: usize = 45;

/// `name@column WORD@kind [ "(" INT@number [ "," INT@number ] ")" ] { colrule }`
pub const ELEMENT_10: usize = 46;

/// `CONSTRAINT`
pub const TOKEN_CONSTRAINT: usize = 47;

/// `name = WORD | DELIMITED`
pub const NAME: usize = 48;

/// `WORD`
pub const TOKEN_WORD: usize = 49;

/// `DELIMITED`
pub const TOKEN_DELIMITED: usize = 50;

/// `CONSTRAINT name`
pub const ELEMENT_11: usize = 51;

/// `[ CONSTRAINT name ]`
pub const ELEMENT_12: usize = 52;

/// `tabrule = PRIMARY@primary KEY key | UNIQUE@unique key | FOREIGN@foreign KEY names@child_column REFERENCES@references name@target [ names@target_column ]`
pub const TABRULE: usize = 53;

/// `PRIMARY@primary`
pub const TOKEN_PRIMARY_PRIMARY: usize = 54;

/// `key = "(" name@key_first { "," name@key_column } ")"`
pub const KEY: usize = 55;

/// `name = WORD@key_first | DELIMITED@key_first`
pub const NAME_KEY_FIRST: usize = 56;

/// `WORD@key_first`
pub const TOKEN_WORD_KEY_FIRST: usize = 57;

/// `DELIMITED@key_first`
pub const TOKEN_DELIMITED_KEY_FIRST: usize = 58;

/// `name = WORD@key_column | DELIMITED@key_column`
pub const NAME_KEY_COLUMN: usize = 59;

/// `WORD@key_column`
pub const TOKEN_WORD_KEY_COLUMN: usize = 60;

/// `DELIMITED@key_column`
pub const TOKEN_DELIMITED_KEY_COLUMN: usize = 61;

/// `"," name@key_column`
pub const KEY_1: usize = 62;

/// `{ "," name@key_column }`
pub const KEY_2: usize = 63;

/// `{ "," name@key_column } ")"`
pub const KEY_3: usize = 64;

/// `name@key_first { "," name@key_column } ")"`
pub const KEY_4: usize = 65;

/// `KEY key`
pub const TABRULE_1: usize = 66;

/// `PRIMARY@primary KEY key`
pub const TABRULE_2: usize = 67;

/// `UNIQUE@unique`
pub const TOKEN_UNIQUE_UNIQUE: usize = 68;

/// `UNIQUE@unique key`
pub const TABRULE_3: usize = 69;

/// `FOREIGN@foreign`
pub const TOKEN_FOREIGN_FOREIGN: usize = 70;

/// `names = "(" name@child_column { "," name@child_column } ")"`
pub const NAMES_CHILD_COLUMN: usize = 71;

/// `name = WORD@child_column | DELIMITED@child_column`
pub const NAME_CHILD_COLUMN: usize = 72;

/// `WORD@child_column`
pub const TOKEN_WORD_CHILD_COLUMN: usize = 73;

/// `DELIMITED@child_column`
pub const TOKEN_DELIMITED_CHILD_COLUMN: usize = 74;

/// `"," name@child_column`
pub const NAMES_1: usize = 75;

/// `{ "," name@child_column }`
pub const NAMES_2: usize = 76;

/// `{ "," name@child_column } ")"`
pub const NAMES_3: usize = 77;

/// `name@child_column { "," name@child_column } ")"`
pub const NAMES_4: usize = 78;

/// `REFERENCES@references`
pub const TOKEN_REFERENCES_REFERENCES: usize = 79;

/// `names = "(" name@target_column { "," name@target_column } ")"`
pub const NAMES_TARGET_COLUMN: usize = 80;

/// `"," name@target_column`
pub const NAMES_5: usize = 81;

/// `{ "," name@target_column }`
pub const NAMES_6: usize = 82;

/// `{ "," name@target_column } ")"`
pub const NAMES_7: usize = 83;

/// `name@target_column { "," name@target_column } ")"`
pub const NAMES_8: usize = 84;

/// `[ names@target_column ]`
pub const TABRULE_4: usize = 85;

/// `name@target [ names@target_column ]`
pub const TABRULE_5: usize = 86;

/// `REFERENCES@references name@target [ names@target_column ]`
pub const TABRULE_6: usize = 87;

/// `names@child_column REFERENCES@references name@target [ names@target_column ]`
pub const TABRULE_7: usize = 88;

/// `KEY names@child_column REFERENCES@references name@target [ names@target_column ]`
pub const TABRULE_8: usize = 89;

/// `FOREIGN@foreign KEY names@child_column REFERENCES@references name@target [ names@target_column ]`
pub const TABRULE_9: usize = 90;

/// `UNIQUE@unique key | FOREIGN@foreign KEY names@child_column REFERENCES@references name@target [ names@target_column ]`
pub const TABRULE_FROM_2: usize = 91;

/// `[ CONSTRAINT name ] tabrule`
pub const ELEMENT_13: usize = 92;

/// `"," element`
pub const SCHEMA_1: usize = 93;

/// `{ "," element }`
pub const SCHEMA_2: usize = 94;

/// `";"`
pub const TOKEN_SEMICOLON: usize = 95;

/// `")" ";"`
pub const SCHEMA_3: usize = 96;

/// `{ "," element } ")" ";"`
pub const SCHEMA_4: usize = 97;

/// `element { "," element } ")" ";"`
pub const SCHEMA_5: usize = 98;

/// `"(" element { "," element } ")" ";"`
pub const SCHEMA_6: usize = 99;

/// `name@table "(" element { "," element } ")" ";"`
pub const SCHEMA_7: usize = 100;

/// `TABLE name@table "(" element { "," element } ")" ";"`
pub const SCHEMA_8: usize = 101;

/// `CREATE TABLE name@table "(" element { "," element } ")" ";"`
pub const SCHEMA_9: usize = 102;

/// How many symbols there are.
pub const SYMBOL_COUNT: usize = 103;
