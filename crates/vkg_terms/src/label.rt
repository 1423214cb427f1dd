ghost use Rattle.std.specs.Prelude.{◌≡◌, IfOk, string_bytes};
ghost use Rattle.vkg_terms.specs.Label.{blank_label as label_of, IsOnlyLabelled};

use std::alloc::Global;
use vkg_base::Memory;

/// The label of the blank node of a text: `b` and the lower-case hex of the text's octets.
pub fn blank_label(alloc: Global, text: &str) -> Result<String, Memory>
    ensures value { IfOk result (λ s. string_bytes s ≡ label_of text.now) }
    ensures one_to_one { IfOk result (λ s. IsOnlyLabelled text.now (string_bytes s)) }
{
    let mut label = String::new(alloc);
    label.push('b')?;
    let digits = hex::encode(alloc, text)?;
    label.push_str(digits.as_str())?;
    Ok(label)
}
