ghost use Rattle.std.specs.Prelude.{◌≡◌, ◌<◌, ◌++◌, OnOk};
ghost use Rattle.vkg_grammar.specs.Forest.{tree, node_count};
ghost use Rattle.vkg_sparql.specs.Triples.{plist_value, plist_more, verb_value, olist_value, olist_more, object_value, inner_value, bracket_value, same_value, block_value, block_triples};

use crate::meaning::{TripleTokens, first_token};
use vkg_base::{Items, Memory};
use vkg_grammar::{Forest, Node};

// plist = verb olist { ";" [ verb olist ] }
#[cycle(plist)]
fn read_plist(
    forest: &Forest,
    at: usize,
    subject: usize,
    out: &mut Items<TripleTokens>,
) -> Result<(), Memory>
    requires { at < node_count forest.now }
    ensures { OnOk result (out.new ≡ out.old ++ plist_value subject (tree forest.now at)) }
{
    let Node::Pair(verb, rest) = forest.node(at) else {
        return Ok(());
    };
    let Node::Pair(objects, more) = forest.node(rest) else {
        return Ok(());
    };
    let predicate = first_token(forest, verb);
    read_olist(forest, objects, subject, predicate, out)?;
    read_more(forest, more, subject, out)
}

// { ";" [ verb olist ] }
#[cycle(plist)]
fn read_more(
    forest: &Forest,
    at: usize,
    subject: usize,
    out: &mut Items<TripleTokens>,
) -> Result<(), Memory>
    requires { at < node_count forest.now }
    ensures { OnOk result (out.new ≡ out.old ++ plist_more subject (tree forest.now at)) }
{
    let mut rest = at;
    while let Node::Pair(step, more) = forest.node(rest) {
        let Node::Pair(_, verb) = forest.node(step) else {
            return Ok(());
        };
        read_verb(forest, verb, subject, out)?;
        rest = more;
    }
    Ok(())
}

// [ verb olist ]
#[cycle(plist)]
fn read_verb(
    forest: &Forest,
    at: usize,
    subject: usize,
    out: &mut Items<TripleTokens>,
) -> Result<(), Memory>
    requires { at < node_count forest.now }
    ensures { OnOk result (out.new ≡ out.old ++ verb_value subject (tree forest.now at)) }
{
    let Node::First(step) = forest.node(at) else {
        return Ok(());
    };
    let Node::Pair(verb, objects) = forest.node(step) else {
        return Ok(());
    };
    let predicate = first_token(forest, verb);
    read_olist(forest, objects, subject, predicate, out)
}

// olist = object { "," object }
#[cycle(plist)]
fn read_olist(
    forest: &Forest,
    at: usize,
    subject: usize,
    predicate: usize,
    out: &mut Items<TripleTokens>,
) -> Result<(), Memory>
    requires { at < node_count forest.now }
    ensures { OnOk result (out.new ≡ out.old ++ olist_value subject predicate (tree forest.now at)) }
{
    let Node::Pair(object, more) = forest.node(at) else {
        return Ok(());
    };
    read_object(forest, object, subject, predicate, out)?;
    let mut rest = more;
    while let Node::Pair(step, more) = forest.node(rest) {
        let Node::Pair(_, object) = forest.node(step) else {
            return Ok(());
        };
        read_object(forest, object, subject, predicate, out)?;
        rest = more;
    }
    Ok(())
}

// object = item | "[" [ plist ] "]"
#[cycle(plist)]
fn read_object(
    forest: &Forest,
    at: usize,
    subject: usize,
    predicate: usize,
    out: &mut Items<TripleTokens>,
) -> Result<(), Memory>
    requires { at < node_count forest.now }
    ensures { OnOk result (out.new ≡ out.old ++ object_value subject predicate (tree forest.now at)) }
{
    match forest.node(at) {
        Node::First(item) => {
            let object = first_token(forest, item);
            out.push(TripleTokens {
                subject,
                predicate,
                object,
            })
        }
        Node::Second(step) => {
            let Node::Pair(left, rest) = forest.node(step) else {
                return Ok(());
            };
            let Node::Pair(inner, _) = forest.node(rest) else {
                return Ok(());
            };
            let object = first_token(forest, left);
            out.push(TripleTokens {
                subject,
                predicate,
                object,
            })?;
            read_inner(forest, inner, object, out)
        }
        _ => Ok(()),
    }
}

// [ plist ]
#[cycle(plist)]
fn read_inner(
    forest: &Forest,
    at: usize,
    subject: usize,
    out: &mut Items<TripleTokens>,
) -> Result<(), Memory>
    requires { at < node_count forest.now }
    ensures { OnOk result (out.new ≡ out.old ++ inner_value subject (tree forest.now at)) }
{
    match forest.node(at) {
        Node::First(list) => read_plist(forest, list, subject, out),
        _ => Ok(()),
    }
}

// "]" plist | plist "]" [ plist ]
fn read_bracket(
    forest: &Forest,
    at: usize,
    subject: usize,
    out: &mut Items<TripleTokens>,
) -> Result<(), Memory>
    requires { at < node_count forest.now }
    ensures { OnOk result (out.new ≡ out.old ++ bracket_value subject (tree forest.now at)) }
{
    match forest.node(at) {
        Node::First(step) => {
            let Node::Pair(_, list) = forest.node(step) else {
                return Ok(());
            };
            read_plist(forest, list, subject, out)
        }
        Node::Second(step) => {
            let Node::Pair(list, rest) = forest.node(step) else {
                return Ok(());
            };
            let Node::Pair(_, more) = forest.node(rest) else {
                return Ok(());
            };
            read_plist(forest, list, subject, out)?;
            read_inner(forest, more, subject, out)
        }
        _ => Ok(()),
    }
}

// same = item plist | "[" ( "]" plist | plist "]" [ plist ] )
fn read_same(forest: &Forest, at: usize, out: &mut Items<TripleTokens>) -> Result<(), Memory>
    requires { at < node_count forest.now }
    ensures { OnOk result (out.new ≡ out.old ++ same_value (tree forest.now at)) }
{
    match forest.node(at) {
        Node::First(step) => {
            let Node::Pair(item, list) = forest.node(step) else {
                return Ok(());
            };
            let subject = first_token(forest, item);
            read_plist(forest, list, subject, out)
        }
        Node::Second(step) => {
            let Node::Pair(left, rest) = forest.node(step) else {
                return Ok(());
            };
            let subject = first_token(forest, left);
            read_bracket(forest, rest, subject, out)
        }
        _ => Ok(()),
    }
}

// block = same [ "." [ block ] ]
fn read_block(forest: &Forest, at: usize, out: &mut Items<TripleTokens>) -> Result<(), Memory>
    requires { at < node_count forest.now }
    ensures { OnOk result (out.new ≡ out.old ++ block_value (tree forest.now at)) }
{
    let mut rest = at;
    while let Node::Pair(same, end) = forest.node(rest) {
        read_same(forest, same, out)?;
        let Node::First(end) = forest.node(end) else {
            return Ok(());
        };
        let Node::Pair(_, end) = forest.node(end) else {
            return Ok(());
        };
        let Node::First(more) = forest.node(end) else {
            return Ok(());
        };
        rest = more;
    }
    Ok(())
}

/// The triple patterns of [ block ].
pub fn read_triples(forest: &Forest, at: usize, out: &mut Items<TripleTokens>) -> Result<(), Memory>
    requires { at < node_count forest.now }
    ensures { OnOk result (out.new ≡ out.old ++ block_triples (tree forest.now at)) }
{
    match forest.node(at) {
        Node::First(block) => read_block(forest, block, out),
        _ => Ok(()),
    }
}
