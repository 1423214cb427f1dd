ghost use Rattle.vkg_grammar.specs.Trees.{IsForest};

use std::alloc::{AllocError, Global};

/// How a tree is made of trees with lower numbers.
#[derive(Clone, Copy, Debug, PartialEq, Eq)]
pub enum Node {
    /// A token, by its number.
    Leaf(usize),
    /// Nothing: an option that is absent, the end of a repetition, or an empty rule.
    Nothing,
    /// One tree after another; in a repetition an item and those behind it.
    Pair(usize, usize),
    /// The first of two ways, or an option that is present.
    First(usize),
    /// The second of two ways.
    Second(usize),
}

/// Trees as numbered nodes, each made of those before it. So a tree needs no recursive type, and is dropped without a stack.
#[derive(Drop)]
pub struct Forest {
    nodes: Vec<Node>,
    ghost before: { IsForest nodes.items },
}

impl Forest {
    ghost use Rattle.std.specs.Prelude.{◌≡◌, ◌<◌, ◌++◌, ◌∷◌, [], OnOk, OnErr};
    ghost use Rattle.vkg_grammar.specs.Forest.{trees, tree, node_count};
    ghost use Rattle.vkg_grammar.specs.Trees.{present, grown, HasPartsBelow};

    /// A forest without a tree.
    #[tactic(auto, unfolding(crate::specs::Trees::trees_of))]
    pub fn new(alloc: Global) -> Forest
        ensures trees { trees result ≡ [] }
        ensures count { node_count result ≡ 0 }
    {
        Forest {
            nodes: Vec::new(alloc),
        }
    }

    /// How the tree with this number is made.
    pub fn node(&self, at: usize) -> Node
        requires { at < node_count self.now }
        ensures made { tree self.now at ≡ grown (trees self.now) result }
        ensures below { HasPartsBelow at result }
    {
        self.nodes[at]
    }

    /// How many nodes there are.
    pub fn len(&self) -> usize
        ensures { result ≡ node_count self.now }
    {
        self.nodes.len()
    }

    /// Whether the tree of an option is that of one that is present.
    pub fn is_present(&self, at: usize) -> bool
        requires { at < node_count self.now }
        ensures { result ≡ present (tree self.now at) }
    {
        matches!(self.node(at), Node::First(_))
    }

    /// Adds a tree, whose number is that of the nodes before it. An error adds none.
    pub(crate) fn push(&mut self, node: Node) -> Result<(), AllocError>
        requires { HasPartsBelow (node_count self.old) node }
        ensures ok { OnOk result (self.new.nodes.items ≡ self.old.nodes.items ++ node ∷ []) }
        ensures trees { OnOk result (trees self.new ≡ trees self.old ++ grown (trees self.old) node ∷ []) }
        ensures err { OnErr result (self.new.nodes.items ≡ self.old.nodes.items) }
    {
        self.nodes.push(node)?;
        Ok(())
    }
}
