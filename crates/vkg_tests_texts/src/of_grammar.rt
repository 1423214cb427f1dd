ghost use Rattle.std.specs.Prelude.{◌≡◌};
ghost use Rattle.vkg_grammar.specs.Grammar.{IsLL1};
ghost use Rattle.vkg_grammar.specs.Kinds.{AreBelow};

use std::test::Fail;
use vkg_grammar::*;
use vkg_tokens::Token;

// s = [ WORD ] WORD
const AMBIGUOUS: [Rule; 3] = [Rule::Then(1, 2), Rule::Optional(2), Rule::Token(0)];

// s = "(" { s } ")"
const BRACKETS: [Rule; 5] = [
    Rule::Then(2, 1),
    Rule::Then(3, 4),
    Rule::Token(0),
    Rule::Repeated(0),
    Rule::Token(1),
];

const OPEN: Token = Token {
    kind: 0,
    start: 0,
    end: 1,
};

const CLOSE: Token = Token {
    kind: 1,
    start: 0,
    end: 1,
};

fn ambiguous() -> Grammar<'static> {
    Grammar::new(&AMBIGUOUS, 1)
}

// At most two brackets are open at once.
fn brackets() -> Grammar<'static>
    ensures ll1 { IsLL1 result.rules }
    ensures kinds { result.kinds ≡ 2 }
{
    Grammar::with_limit(&BRACKETS, 2, &[0], &[1], 2)
}

fn note(symbol: usize, act: Act) -> Note {
    Note { symbol, act }
}

#[test]
fn two_ways_that_begin_alike_are_not_ll1(rt: HostRuntime) -> Result<(), Fail> {
    assert!(rt; !check_ll1(rt.alloc(), &ambiguous())?);
    assert!(rt; check_ll1(rt.alloc(), &brackets())?);
    Ok(())
}

#[test]
fn a_text_has_a_note_for_each_symbol(rt: HostRuntime) -> Result<(), Fail> {
    let notes = parse(rt.alloc(), &brackets(), &[OPEN, OPEN, CLOSE, CLOSE])?;
    let outer = [
        note(0, Act::Pair),
        note(2, Act::Leaf),
        note(1, Act::Pair),
        note(3, Act::Pair),
        note(0, Act::Pair),
        note(2, Act::Leaf),
        note(1, Act::Pair),
        note(3, Act::Nothing),
        note(4, Act::Leaf),
        note(3, Act::Nothing),
        note(4, Act::Leaf),
    ];
    assert!(rt; notes.as_slice() == outer.as_slice());
    Ok(())
}

fn fault(rt: &HostRuntime, tokens: &[Token]) -> Option<ParseFault>
    requires { AreBelow 2 tokens.now }
{
    parse(rt.alloc(), &brackets(), tokens).err()
}

#[test]
fn each_fault_has_its_place(rt: HostRuntime) -> Result<(), Fail> {
    assert!(rt; fault(&rt, &[OPEN, CLOSE]) == None);
    assert!(rt; fault(&rt, &[CLOSE]) == Some(ParseFault::Dead { index: 0 }));
    assert!(rt; fault(&rt, &[OPEN, CLOSE, CLOSE]) == Some(ParseFault::Dead { index: 2 }));
    assert!(rt; fault(&rt, &[OPEN, OPEN]) == Some(ParseFault::Ended));
    assert!(rt; fault(&rt, &[]) == Some(ParseFault::Ended));
    // depth is looked at before the machine, which would stop at the first token
    assert!(rt;
        fault(&rt, &[CLOSE, CLOSE, OPEN, OPEN, OPEN, OPEN])
            == Some(ParseFault::TooDeep { index: 4 })
    );
    Ok(())
}

#[test]
fn a_text_has_one_tree(rt: HostRuntime) -> Result<(), Fail> {
    let parsed = parse_tree(rt.alloc(), &brackets(), &[OPEN, CLOSE])?;
    assert!(rt; parsed.root == 4);
    assert!(rt; parsed.forest.node(parsed.root) == Node::Pair(3, 2));
    assert!(rt; parsed.forest.len() == 5);
    assert!(rt; parsed.forest.node(0) == Node::Leaf(1));
    assert!(rt; parsed.forest.node(1) == Node::Nothing);
    assert!(rt; parsed.forest.node(2) == Node::Pair(1, 0));
    assert!(rt; parsed.forest.node(3) == Node::Leaf(0));
    Ok(())
}
