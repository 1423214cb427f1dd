ghost use Rattle.std.specs.Prelude.{◌≡◌};
ghost use Rattle.std.specs.Str.{str_eq_ignore_ascii_case};
ghost use Rattle.vkg_ddl.specs.TypeChecks.{kind_named};

use vkg_cells::SqlType;

fn is_word(text: &str, word: &str) -> bool
    ensures { result ≡ str_eq_ignore_ascii_case text.now word.now }
{
    text.eq_ignore_ascii_case(word)
}

/// The kind of the columns whose type this word names.
#[tactic(auto, unfolding(crate::specs::TypeChecks::kind_named))]
pub fn kind_named(word: &str) -> Option<SqlType>
    ensures { result ≡ kind_named word.now }
{
    if is_word(word, "char")
        || is_word(word, "character")
        || is_word(word, "varchar")
        || is_word(word, "text")
    {
        Some(SqlType::Text)
    } else if is_word(word, "smallint")
        || is_word(word, "integer")
        || is_word(word, "int")
        || is_word(word, "bigint")
    {
        Some(SqlType::Int)
    } else if is_word(word, "numeric") || is_word(word, "decimal") {
        Some(SqlType::Dec)
    } else if is_word(word, "boolean") {
        Some(SqlType::Bool)
    } else if is_word(word, "date") {
        Some(SqlType::Date)
    } else if is_word(word, "timestamp") {
        Some(SqlType::Stamp)
    } else if is_word(word, "binary") || is_word(word, "varbinary") || is_word(word, "blob") {
        Some(SqlType::Bin)
    } else if is_word(word, "time") {
        Some(SqlType::Time)
    } else {
        None
    }
}
