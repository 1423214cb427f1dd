// Texts with a text between each two, and quoted texts.
ghost use Rattle.std.specs.Prelude.{◌≡◌, ◌++◌, ◌<◌, IfOk, OnOk, chars, codes, decimal, flat_map, string_bytes, suc};
ghost use Rattle.vkg_sqltext.specs.Text.{call as call_text, column_text as column_name, doubled, in_brackets, quoted as quoted_text, separated};

use itoa::Buffer;
use std::alloc::Global;
use vkg_base::{Memory, Text};

/// Puts the texts, with a text between each two.
pub fn push_separated(out: &mut String, sign: &str, texts: &[Text]) -> Result<(), Memory>
    ensures { OnOk result (string_bytes out.new ≡ string_bytes out.old ++ separated sign.now texts.now) }
{
    match texts {
        [] => Ok(()),
        [first, rest @ ..] => {
            out.push_str(first.as_str())?;
            push_each_behind(out, sign, rest)
        }
    }
}

fn push_each_behind(out: &mut String, sign: &str, texts: &[Text]) -> Result<(), Memory>
    ensures { OnOk result (string_bytes out.new ≡ string_bytes out.old ++ flat_map (λ u. sign.now ++ u) texts.now) }
{
    for text in texts {
        out.push_str(sign)?;
        out.push_str(text.as_str())?;
    }
    Ok(())
}

/// A name and its arguments.
pub fn call(alloc: Global, name: &str, arguments: &[Text]) -> Result<Text, Memory>
    ensures { IfOk result (λ t. t ≡ call_text name.now arguments.now) }
{
    let mut out = String::from_str(alloc, name)?;
    out.push_str("(")?;
    push_separated(&mut out, ", ", arguments)?;
    out.push_str(")")?;
    Ok(Text::from_string(out))
}

/// Puts a text, and its quotes twice.
pub fn push_doubled(out: &mut String, sign: char, text: &str) -> Result<(), Memory>
    requires { sign < 128 }
    ensures { OnOk result (string_bytes out.new ≡ string_bytes out.old ++ flat_map (doubled sign) (chars text.now)) }
{
    for c in text.chars() {
        push_character(out, sign, c)?;
    }
    Ok(())
}

fn push_character(out: &mut String, sign: char, c: char) -> Result<(), Memory>
    requires { sign < 128 }
    ensures { OnOk result (string_bytes out.new ≡ string_bytes out.old ++ doubled sign c) }
{
    out.push(c)?;
    if c == sign {
        out.push(c)?;
    }
    Ok(())
}

pub fn push_quoted(out: &mut String, text: &str) -> Result<(), Memory>
    ensures { OnOk result (string_bytes out.new ≡ string_bytes out.old ++ quoted_text text.now) }
{
    out.push_str("'")?;
    push_doubled(out, '\'', text)?;
    out.push_str("'")?;
    Ok(())
}

/// A character string literal (SQL-92, 5.3).
pub fn quoted(alloc: Global, text: &str) -> Result<Text, Memory>
    ensures { IfOk result (λ t. t ≡ quoted_text text.now) }
{
    let mut out = String::new(alloc);
    push_quoted(&mut out, text)?;
    Ok(Text::from_string(out))
}

pub fn push_number(out: &mut String, number: u128) -> Result<(), Memory>
    ensures { OnOk result (string_bytes out.new ≡ string_bytes out.old ++ decimal number) }
{
    let mut buffer = Buffer::new();
    out.push_str(buffer.format(number))?;
    Ok(())
}

/// Puts the name of a column, which counts from 1 there.
pub fn push_column(out: &mut String, place: usize) -> Result<(), Memory>
    ensures { OnOk result (string_bytes out.new ≡ string_bytes out.old ++ column_name place) }
{
    out.push_str("c")?;
    push_number(out, place as u128 + 1)
}

pub fn push_in_brackets(out: &mut String, text: &str) -> Result<(), Memory>
    ensures { OnOk result (string_bytes out.new ≡ string_bytes out.old ++ in_brackets text.now) }
{
    out.push_str("(")?;
    out.push_str(text)?;
    out.push_str(")")?;
    Ok(())
}
