ghost use Rattle.std.specs.Prelude.{◌≡◌};
ghost use Rattle.vkg_tokens.specs.Mark.{without_mark};

use crate::cutting::behind;

/// The bytes of a file without one byte order mark at the front (Unicode, 23.8).
pub fn without_mark(bytes: &[u8]) -> &[u8]
    ensures { result.now ≡ without_mark bytes.now }
{
    if bytes.starts_with(&[239, 187, 191]) {
        behind(bytes, 3)
    } else {
        bytes
    }
}
