// The texts of nodes, from the texts of their parts.
ghost use Rattle.std.specs.Prelude.{◌≡◌, ◌∷◌, ◌++◌, [], IfOk, IsOkAnd, OnOk, codes, decimal, map, string_bytes};
ghost use Rattle.vkg_schema.specs.Names.{table_name as name_of_table};
ghost use Rattle.vkg_expr.specs.Seen.{expr_seen};
ghost use Rattle.vkg_sqltext.specs.Text.{call as call_text, column_text, expr_text as text_of_expr, in_brackets, kind_text, outputs as outputs_of, outputs_text as text_of_outputs, separated, sources as sources_of, table_text as text_of_table};

use crate::constants::kind_name;
use crate::expr_texts::expr_text;
use crate::lists::{
    call, push_column, push_doubled, push_in_brackets, push_number, push_separated,
};
use std::alloc::Global;
use vkg_base::{Items, Memory, Text, at};
use vkg_cells::SqlType;
use vkg_expr::Expr;
use vkg_schema::Schema;

pub fn empty_text(alloc: Global, kinds: &[SqlType]) -> Result<Text, Memory>
    ensures { IfOk result (λ t. t ≡ call_text (codes "EMPTY ") (map kind_text kinds.now)) }
{
    call(alloc, "EMPTY ", kind_texts(alloc, kinds)?.as_slice())
}

fn kind_texts(alloc: Global, kinds: &[SqlType]) -> Result<Items<Text>, Memory>
    ensures { IfOk result (λ ts. ts ≡ map kind_text kinds.now) }
{
    let mut texts = Items::new(alloc);
    for kind in kinds {
        texts.push(Text::new(alloc, kind_name(*kind))?)?;
    }
    Ok(texts)
}

pub fn table_text(alloc: Global, schema: &Schema, table: usize) -> Result<Text, Memory>
    ensures { IfOk result (λ t. t ≡ text_of_table schema.now table) }
{
    let mut out = String::from_str(alloc, "TABLE \"")?;
    push_doubled(&mut out, '"', table_name(schema, table))?;
    out.push_str("\"")?;
    Ok(Text::from_string(out))
}

fn table_name(schema: &Schema, table: usize) -> &str
    ensures { result.now ≡ name_of_table schema.now table }
{
    match at(schema.tables(), table) {
        Some(table) => table.name.as_str(),
        None => "",
    }
}

pub fn select_text(alloc: Global, p: Result<Text, Memory>, c: &Expr) -> Result<Text, Memory>
    ensures { IfOk result (λ t. IsOkAnd p (λ s. t ≡ codes "SELECT * FROM " ++ in_brackets s ++ codes " AS t WHERE " ++ text_of_expr (expr_seen c.now))) }
{
    let p = p?;
    let condition = expr_text(alloc, c)?;
    let mut out = String::from_str(alloc, "SELECT * FROM ")?;
    push_in_brackets(&mut out, p.as_str())?;
    out.push_str(" AS t WHERE ")?;
    out.push_str(condition.as_str())?;
    Ok(Text::from_string(out))
}

pub fn project_text(alloc: Global, es: &[Expr], p: Result<Text, Memory>) -> Result<Text, Memory>
    ensures { IfOk result (λ t. IsOkAnd p (λ s. t ≡ codes "SELECT " ++ text_of_outputs (map expr_seen es.now) ++ codes " FROM " ++ in_brackets s ++ codes " AS t")) }
{
    let p = p?;
    let mut out = String::from_str(alloc, "SELECT ")?;
    push_outputs(alloc, &mut out, es)?;
    out.push_str(" FROM ")?;
    push_in_brackets(&mut out, p.as_str())?;
    out.push_str(" AS t")?;
    Ok(Text::from_string(out))
}

fn push_outputs(alloc: Global, out: &mut String, es: &[Expr]) -> Result<(), Memory>
    ensures { OnOk result (string_bytes out.new ≡ string_bytes out.old ++ text_of_outputs (map expr_seen es.now)) }
{
    match es {
        [] => {
            out.push_str("()")?;
            Ok(())
        }
        [_, ..] => push_separated(out, ", ", outputs(alloc, es)?.as_slice()),
    }
}

/// The expressions under the names c1, c2 and so on.
fn outputs(alloc: Global, es: &[Expr]) -> Result<Items<Text>, Memory>
    ensures { IfOk result (λ ts. ts ≡ outputs_of 0 (map expr_seen es.now)) }
{
    let mut texts = Items::new(alloc);
    for i in 0..es.len() {
        texts.push(output(alloc, &es[i], i)?)?;
    }
    Ok(texts)
}

fn output(alloc: Global, e: &Expr, place: usize) -> Result<Text, Memory>
    ensures { IfOk result (λ t. t ≡ text_of_expr (expr_seen e.now) ++ codes " AS " ++ column_text place) }
{
    let mut out = expr_text(alloc, e)?.into_string();
    out.push_str(" AS ")?;
    push_column(&mut out, place)?;
    Ok(Text::from_string(out))
}

/// Texts of plans under the names t1, t2 and so on.
fn sources(alloc: Global, texts: &[Text]) -> Result<Items<Text>, Memory>
    ensures { IfOk result (λ ts. ts ≡ sources_of 1 texts.now) }
{
    let mut named = Items::new(alloc);
    for i in 0..texts.len() {
        named.push(source(alloc, &texts[i], i + 1)?)?;
    }
    Ok(named)
}

fn source(alloc: Global, text: &Text, number: usize) -> Result<Text, Memory>
    ensures { IfOk result (λ t. t ≡ in_brackets text.now ++ codes " AS t" ++ decimal number) }
{
    let mut out = String::new(alloc);
    push_in_brackets(&mut out, text.as_str())?;
    out.push_str(" AS t")?;
    push_number(&mut out, number as u128)?;
    Ok(Text::from_string(out))
}

pub fn join_text(alloc: Global, ps: Result<Items<Text>, Memory>, c: &Expr) -> Result<Text, Memory>
    ensures { IfOk result (λ t. IsOkAnd ps (λ ss. t ≡ codes "SELECT * FROM " ++ separated (codes " CROSS JOIN ") (sources_of 1 ss) ++ codes " WHERE " ++ text_of_expr (expr_seen c.now))) }
{
    joined(alloc, ps?.as_slice(), " CROSS JOIN ", " WHERE ", c)
}

pub fn left_text(
    alloc: Global,
    p: Result<Text, Memory>,
    q: Result<Text, Memory>,
    c: &Expr,
) -> Result<Text, Memory>
    ensures { IfOk result (λ t. IsOkAnd p (λ r. IsOkAnd q (λ s. t ≡ codes "SELECT * FROM " ++ separated (codes " LEFT JOIN ") (sources_of 1 (r ∷ s ∷ [])) ++ codes " ON " ++ text_of_expr (expr_seen c.now)))) }
{
    let mut sides = Items::new(alloc);
    sides.push(p?)?;
    sides.push(q?)?;
    joined(alloc, sides.as_slice(), " LEFT JOIN ", " ON ", c)
}

pub fn anti_text(
    alloc: Global,
    p: Result<Text, Memory>,
    q: Result<Text, Memory>,
    c: &Expr,
) -> Result<Text, Memory>
    ensures { IfOk result (λ t. IsOkAnd p (λ r. IsOkAnd q (λ s. t ≡ codes "SELECT * FROM " ++ separated (codes " ANTI JOIN ") (sources_of 1 (r ∷ s ∷ [])) ++ codes " ON " ++ text_of_expr (expr_seen c.now)))) }
{
    let mut sides = Items::new(alloc);
    sides.push(p?)?;
    sides.push(q?)?;
    joined(alloc, sides.as_slice(), " ANTI JOIN ", " ON ", c)
}

fn joined(alloc: Global, ps: &[Text], sign: &str, word: &str, c: &Expr) -> Result<Text, Memory>
    ensures { IfOk result (λ t. t ≡ codes "SELECT * FROM " ++ separated sign.now (sources_of 1 ps.now) ++ word.now ++ text_of_expr (expr_seen c.now)) }
{
    let condition = expr_text(alloc, c)?;
    let named = sources(alloc, ps)?;
    let mut out = String::from_str(alloc, "SELECT * FROM ")?;
    push_separated(&mut out, sign, named.as_slice())?;
    out.push_str(word)?;
    out.push_str(condition.as_str())?;
    Ok(Text::from_string(out))
}

pub fn union_text(alloc: Global, ps: Result<Items<Text>, Memory>) -> Result<Text, Memory>
    ensures { IfOk result (λ t. IsOkAnd ps (λ ss. t ≡ separated (codes " UNION ALL ") (map in_brackets ss))) }
{
    let mut out = String::new(alloc);
    push_separated(
        &mut out,
        " UNION ALL ",
        bracketed(alloc, ps?.as_slice())?.as_slice(),
    )?;
    Ok(Text::from_string(out))
}

fn bracketed(alloc: Global, texts: &[Text]) -> Result<Items<Text>, Memory>
    ensures { IfOk result (λ ts. ts ≡ map in_brackets texts.now) }
{
    let mut all = Items::new(alloc);
    for text in texts {
        all.push(in_brackets_text(alloc, text)?)?;
    }
    Ok(all)
}

fn in_brackets_text(alloc: Global, text: &Text) -> Result<Text, Memory>
    ensures { IfOk result (λ t. t ≡ in_brackets text.now) }
{
    let mut out = String::new(alloc);
    push_in_brackets(&mut out, text.as_str())?;
    Ok(Text::from_string(out))
}

pub fn distinct_text(alloc: Global, p: Result<Text, Memory>) -> Result<Text, Memory>
    ensures { IfOk result (λ t. IsOkAnd p (λ s. t ≡ codes "SELECT DISTINCT * FROM " ++ in_brackets s ++ codes " AS t")) }
{
    let p = p?;
    let mut out = String::from_str(alloc, "SELECT DISTINCT * FROM ")?;
    push_in_brackets(&mut out, p.as_str())?;
    out.push_str(" AS t")?;
    Ok(Text::from_string(out))
}
