ghost use Rattle.std.specs.Prelude.{◌≡◌, IfOk};

use std::alloc::Global;
use vkg_base::{Box, Items, Memory};
use vkg_terms::Term;
use vkg_values::{Compare, Take, Test};

/// An expression of a filter (SPARQL 1.1, 17). Variables stand by their numbers in the query.
///
/// `And` and `Or` hold the first member of a chain, and those behind it: a chain is one node however long it is, and
/// stands for its members joined from the left.
#[derive(Drop)]
pub enum Condition {
    Variable(usize),
    Constant(Term),
    /// BOUND of a variable (17.4.1.1).
    Bound(usize),
    Test(Test, Box<Condition>),
    Take(Take, Box<Condition>),
    Compare(Compare, Box<Condition>, Box<Condition>),
    SameTerm(Box<Condition>, Box<Condition>),
    Not(Box<Condition>),
    And(Box<Condition>, Items<Condition>),
    Or(Box<Condition>, Items<Condition>),
}

impl Condition {
    /// The same expression.
    #[cycle(copy_condition)]
    pub fn copy(&self, alloc: Global) -> Result<Condition, Memory>
        ensures { IfOk result (λ copied. copied ≡ self.now) }
    {
        match self {
            Condition::Variable(number) => Ok(Condition::Variable(*number)),
            Condition::Constant(term) => Ok(Condition::Constant(term.copy()?)),
            Condition::Bound(number) => Ok(Condition::Bound(*number)),
            Condition::Test(test, a) => Ok(Condition::Test(*test, copy_inner(alloc, a)?)),
            Condition::Take(take, a) => Ok(Condition::Take(*take, copy_inner(alloc, a)?)),
            Condition::Compare(compare, a, b) => {
                let a = copy_inner(alloc, a)?;
                Ok(Condition::Compare(*compare, a, copy_inner(alloc, b)?))
            }
            Condition::SameTerm(a, b) => {
                let a = copy_inner(alloc, a)?;
                Ok(Condition::SameTerm(a, copy_inner(alloc, b)?))
            }
            Condition::Not(a) => Ok(Condition::Not(copy_inner(alloc, a)?)),
            Condition::And(a, more) => {
                let a = copy_inner(alloc, a)?;
                Ok(Condition::And(a, copy_conditions(alloc, more.as_slice())?))
            }
            Condition::Or(a, more) => {
                let a = copy_inner(alloc, a)?;
                Ok(Condition::Or(a, copy_conditions(alloc, more.as_slice())?))
            }
        }
    }
}

#[cycle(copy_condition)]
fn copy_inner(alloc: Global, condition: &Condition) -> Result<Box<Condition>, Memory>
    ensures { IfOk result (λ copied. copied ≡ condition.now) }
{
    Box::new(alloc, condition.copy(alloc)?)
}

/// The same expressions.
#[cycle(copy_condition)]
pub fn copy_conditions(alloc: Global, conditions: &[Condition]) -> Result<Items<Condition>, Memory>
    ensures { IfOk result (λ copied. copied ≡ conditions.now) }
{
    let mut copied = Items::new(alloc);
    for condition in conditions {
        copied.push(condition.copy(alloc)?)?;
    }
    Ok(copied)
}
