ghost use Rattle.std.specs.Prelude.{◌≡◌, IfOk, OnOk};
ghost use Rattle.vkg_sparql.specs.Nodes.{next_stretch, is_node, is_node_in, node_step, no_nodes, nodes_over};

use crate::lexeme::Lexeme;
use crate::literals::is_term;
use std::alloc::Global;
use vkg_base::{Items, Memory};
use vkg_tokens::sparql_kinds as kinds;

/// Where a token stands, as far as it decides what is a node.
#[derive(Clone, Copy)]
pub enum Stretch {
    Group,
    /// The template of CONSTRUCT, from that word on.
    Template,
    /// The variables of VALUES.
    Variables,
    /// The values of VALUES.
    Rows,
    /// Behind a `^^` among the values.
    Suffix,
}

/// The nodes of the tokens read so far, by their places, and where the next token stands.
#[derive(Drop)]
pub struct Nodes {
    pub stretch: Stretch,
    pub places: Items<usize>,
}

fn next_stretch(stretch: Stretch, kind: usize) -> Stretch
    ensures { result ≡ next_stretch stretch kind }
{
    match stretch {
        Stretch::Group => if kind == kinds::VALUES {
            Stretch::Variables
        } else if kind == kinds::CONSTRUCT {
            Stretch::Template
        } else {
            Stretch::Group
        },
        Stretch::Template => if kind == kinds::CLOSE_BRACE {
            Stretch::Group
        } else {
            Stretch::Template
        },
        Stretch::Variables => if kind == kinds::OPEN_BRACE {
            Stretch::Rows
        } else {
            Stretch::Variables
        },
        Stretch::Rows => if kind == kinds::CLOSE_BRACE {
            Stretch::Group
        } else if kind == kinds::CARETS {
            Stretch::Suffix
        } else {
            Stretch::Rows
        },
        Stretch::Suffix => Stretch::Rows,
    }
}

fn is_node(kind: usize) -> bool
    ensures { result ≡ is_node kind }
{
    kind == kinds::OPEN_BRACE
        || (kinds::EQUAL <= kind && kind <= kinds::OR)
        || (kinds::OPTIONAL <= kind && kind <= kinds::DATATYPE)
        || (kinds::STRLEN <= kind && kind <= kinds::BIND)
        || kind == kinds::VALUES
}

fn is_node_in(stretch: Stretch, kind: usize) -> bool
    ensures { result ≡ is_node_in stretch kind }
{
    match stretch {
        Stretch::Group => is_node(kind),
        Stretch::Rows => kind == kinds::OPEN || kind == kinds::UNDEF || is_term(kind),
        Stretch::Template | Stretch::Variables | Stretch::Suffix => false,
    }
}

impl Nodes {
    fn step(&mut self, lexeme: &Lexeme) -> Result<(), Memory>
        ensures { OnOk result (self.new ≡ node_step self.old lexeme.now) }
    {
        if is_node_in(self.stretch, lexeme.kind) {
            self.places.push(lexeme.at)?;
        }
        self.stretch = next_stretch(self.stretch, lexeme.kind);
        Ok(())
    }
}

/// The place of the 1,025th node.
pub fn nodes_over(alloc: Global, lexemes: &[Lexeme]) -> Result<Option<usize>, Memory>
    ensures { IfOk result (λ at. at ≡ nodes_over lexemes.now) }
{
    let mut nodes = Nodes {
        stretch: Stretch::Group,
        places: Items::new(alloc),
    };
    for lexeme in lexemes {
        nodes.step(lexeme)?;
    }
    Ok(nodes.places.get(1024).copied())
}
