// Texts with tabs between them.
ghost use Rattle.std.specs.Prelude.{◌≡◌, ◌∷◌, ◌++◌, IfOk, OnOk, flat_map, string_bytes};
ghost use Rattle.vkg_algebra.specs.Answer.{tabbed as tabbed_of};

use std::alloc::Global;
use vkg_base::{Memory, Text};

/// The texts, with a tab between each two.
pub fn tabbed(alloc: Global, texts: &[Text]) -> Result<String, Memory>
    ensures { IfOk result (λ s. string_bytes s ≡ tabbed_of texts.now) }
{
    let mut out = String::new(alloc);
    match texts.split_first() {
        None => Ok(out),
        Some((first, rest)) => {
            out.push_str(first.as_str())?;
            push_each_behind(&mut out, rest)?;
            Ok(out)
        }
    }
}

fn push_each_behind(out: &mut String, texts: &[Text]) -> Result<(), Memory>
    ensures { OnOk result (string_bytes out.new ≡ string_bytes out.old ++ flat_map (λ t. 9 ∷ t) texts.now) }
{
    for text in texts {
        out.push_str("\t")?;
        out.push_str(text.as_str())?;
    }
    Ok(())
}
