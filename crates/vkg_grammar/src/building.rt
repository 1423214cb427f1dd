ghost use Rattle.std.specs.Prelude.{◌≡◌, ◌∷◌, length, OnOk, IfOk};
ghost use Rattle.vkg_grammar.specs.Decoding.{acts_of, stepped, decoded, token_before as token_before_lem, AreNodesOf, tops_of};
ghost use Rattle.vkg_grammar.specs.Forest.{trees, node_count};
ghost use Rattle.vkg_grammar.specs.Trees.{grown, HasPartsBelow};

use crate::forest::{Forest, Node};
use crate::note::{Act, Note};
use std::alloc::{AllocError, Global};

// One more tree on the stack.
fn add(forest: &mut Forest, stack: &mut Vec<usize>, node: Node) -> Result<(), AllocError>
    requires node { HasPartsBelow (node_count forest.old) node }
    requires stack { AreNodesOf (node_count forest.old) stack.old.items }
    ensures tops { OnOk result (tops_of forest.new.nodes.items stack.new.items
        ≡ grown (trees forest.old) node ∷ tops_of forest.old.nodes.items stack.old.items) }
    ensures below { OnOk result (AreNodesOf (node_count forest.new) stack.new.items) }
{
    let at = forest.len();
    forest.push(node)?;
    stack.push(at)?;
    Ok(())
}

// The trees after one more act, from the right.
fn apply(
    forest: &mut Forest,
    stack: &mut Vec<usize>,
    act: Act,
    token: usize,
) -> Result<(), AllocError>
    requires { AreNodesOf (node_count forest.old) stack.old.items }
    ensures tops { OnOk result (tops_of forest.new.nodes.items stack.new.items
        ≡ stepped act token (tops_of forest.old.nodes.items stack.old.items)) }
    ensures below { OnOk result (AreNodesOf (node_count forest.new) stack.new.items) }
{
    match act {
        Act::Leaf => add(forest, stack, Node::Leaf(token)),
        Act::Nothing => add(forest, stack, Node::Nothing),
        Act::First => match stack.pop() {
            Some(a) => add(forest, stack, Node::First(a)),
            None => Ok(()),
        },
        Act::Second => match stack.pop() {
            Some(a) => add(forest, stack, Node::Second(a)),
            None => Ok(()),
        },
        Act::Pair => match stack.pop() {
            Some(a) => match stack.pop() {
                Some(b) => add(forest, stack, Node::Pair(a, b)),
                None => {
                    stack.push(a)?;
                    Ok(())
                }
            },
            None => Ok(()),
        },
    }
}

// The number of the last token before what is made by the act and those behind it, whose first token has this number.
fn token_before(act: Act, token: usize) -> usize
    ensures { result ≡ token_before_lem act token }
{
    match act {
        Act::Leaf => token.saturating_sub(1),
        _ => token,
    }
}

// A forest, and the numbers of the trees on its stack.
#[derive(Drop)]
pub(crate) struct Built {
    pub forest: Forest,
    pub stack: Vec<usize>,
}

// The trees of these notes, whose last token has the number before `tokens`.
pub(crate) fn build(alloc: Global, notes: &[Note], tokens: usize) -> Result<Built, AllocError>
    ensures tops { IfOk result (λ b. tops_of b.forest.nodes.items b.stack.items
        ≡ (decoded tokens (acts_of notes.now)).trees) }
    ensures below { IfOk result (λ b. AreNodesOf (node_count b.forest) b.stack.items) }
{
    let mut forest = Forest::new(alloc);
    let mut stack = Vec::new(alloc);
    let mut token = tokens;
    let mut at = notes.len();
    while at > 0 {
        at -= 1;
        let act = notes[at].act;
        token = token_before(act, token);
        apply(&mut forest, &mut stack, act, token)?;
    }
    Ok(Built { forest, stack })
}
