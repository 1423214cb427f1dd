ghost use Rattle.std.specs.Prelude.{◌≡◌};
ghost use Rattle.vkg_tokens.specs.Tags.{in_letters, in_part, tag_step};

/// What was read of a language tag.
#[derive(Clone, Copy)]
pub enum Tag {
    At,
    Letters,
    Dash,
    Part,
}

fn in_letters(c: char) -> Option<Tag>
    ensures { result ≡ in_letters c }
{
    if c.is_ascii_alphabetic() {
        Some(Tag::Letters)
    } else if c == '-' {
        Some(Tag::Dash)
    } else {
        None
    }
}

fn in_part(c: char) -> Option<Tag>
    ensures { result ≡ in_part c }
{
    if c.is_ascii_alphanumeric() {
        Some(Tag::Part)
    } else if c == '-' {
        Some(Tag::Dash)
    } else {
        None
    }
}

pub fn step(state: Tag, c: char) -> Option<Tag>
    ensures { result ≡ tag_step state c }
{
    match state {
        Tag::At => if c.is_ascii_alphabetic() {
            Some(Tag::Letters)
        } else {
            None
        },
        Tag::Letters => in_letters(c),
        Tag::Dash => if c.is_ascii_alphanumeric() {
            Some(Tag::Part)
        } else {
            None
        },
        Tag::Part => in_part(c),
    }
}
