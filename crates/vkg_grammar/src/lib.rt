//! Grammars, the test that one is LL(1), and the parser and the trees of those that are.
//!
//! A grammar is a list of rules in the forms of the notation of XML 1.0, section 6: one symbol after another, `|`, `?` and `*`.
//! Rule 0 makes the texts. `check_ll1` is exact. Of tokens, `parse` names the first bracket that passes the grammar's limit of
//! depth, or else the first token up to which no text begins so, or says that a text ended too soon; it notes how each symbol of
//! the one derivation is made. `parse_tree` gives the one tree, as numbered nodes. Neither goes deeper into the stack where a
//! text nests deeper. It stands on vkg_base for `Memory`, on vkg_tokens for `Token`, on vkg_lists and on thiserror.
#![tactic(auto)]

mod building;
mod check;
mod depth;
mod follow;
mod forest;
mod grammar;
mod laws;
mod machine;
mod note;
mod parsing;
mod productive;
mod rule;
mod table;
mod tree;

pub use check::check_ll1;
pub use forest::{Forest, Node};
pub use grammar::Grammar;
pub use laws::{certificates_hold, texts_have_trees, tokens_have_one_outcome, trees_follow_rules};
pub use note::{Act, Note, role_in};
pub use parsing::{ParseFault, parse, start_of};
pub use rule::Rule;
pub use tree::{Parsed, parse_tree};
