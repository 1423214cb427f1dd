ghost use Rattle.std.specs.Prelude.{◌≡◌};
ghost use Rattle.vkg_tokens.specs.Tags.{variable_step};

use crate::characters::{is_label_start, is_variable_part};

/// What was read of a variable, or of the sign `?`.
#[derive(Clone, Copy)]
pub enum Variable {
    Question,
    Dollar,
    Named,
}

pub fn step(state: Variable, c: char) -> Option<Variable>
    ensures { result ≡ variable_step state c }
{
    let goes_on = match state {
        Variable::Question | Variable::Dollar => is_label_start(c),
        Variable::Named => is_variable_part(c),
    };
    if goes_on { Some(Variable::Named) } else { None }
}
