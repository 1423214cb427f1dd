ghost use Rattle.std.specs.Prelude.{◌≡◌};
ghost use Rattle.std.specs.Str.{bytes_eq};
ghost use Rattle.vkg_terms.specs.Name.{quoted};
ghost use Rattle.vkg_term_maps.specs.Columns.{IsBehind, column_of as column_of_text, means as text_means};

use vkg_schema::Column;

/// The place of the column that a text names: a delimited name (SQL-92, 5.2) matches exactly, another, by this project's choice, whatever its case.
pub fn column_of(columns: &[Column], text: &str) -> Option<usize>
    ensures { result ≡ column_of_text columns.now text.now }
{
    columns.iter().position(|c| means(text, c.name.as_str()))
}

/// Whether a text of a mapping (R2RML, 5, SQL identifier) means a name of the schema.
pub fn means(text: &str, name: &str) -> bool
    ensures { result ≡ text_means text.now name.now }
{
    match text.as_bytes() {
        [] => false,
        [b'"', rest @ ..] => is_quoted(rest, name.as_bytes()),
        _ => text.eq_ignore_ascii_case(name),
    }
}

/// Whether a text is a name whose quotes are doubled, and one more quote.
fn is_quoted(text: &[u8], name: &[u8]) -> bool
    ensures { result ≡ bytes_eq text.now (quoted name.now) }
{
    let mut rest = text;
    for b in name {
        match behind(rest, *b) {
            None => return false,
            Some(more) => rest = more,
        }
    }
    rest == b"\"".as_slice()
}

/// What follows a byte, which is doubled where it is a quote.
fn behind(text: &[u8], b: u8) -> Option<&[u8]>
    ensures { IsBehind text.now b result }
{
    let (first, rest) = text.split_first()?;
    if *first != b {
        return None;
    }
    if b != b'"' {
        return Some(rest);
    }
    match rest.split_first() {
        Some((b'"', more)) => Some(more),
        _ => None,
    }
}
