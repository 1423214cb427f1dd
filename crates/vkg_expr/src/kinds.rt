// Tests of kinds.
ghost use Rattle.std.specs.Prelude.{◌≡◌};
ghost use Rattle.vkg_expr.specs.Typing.{fits as is_null_or_of, is_one, kind_number as number_of, same_family as one_family, same_kind as one_kind};

use vkg_cells::{Cell, SqlType, family};

fn kind_number(kind: SqlType) -> u8
    ensures { result ≡ number_of kind }
{
    match kind {
        SqlType::Text => 0,
        SqlType::Int => 1,
        SqlType::Dec => 2,
        SqlType::Bool => 3,
        SqlType::Date => 4,
        SqlType::Stamp => 5,
        SqlType::Bin => 6,
        SqlType::Time => 7,
        SqlType::Term => 8,
    }
}

/// Whether they are one kind.
pub fn same_kind(a: SqlType, b: SqlType) -> bool
    ensures { result ≡ one_kind a b }
{
    kind_number(a) == kind_number(b)
}

/// Whether their cells can be compared: Int and Dec are one family, each other kind is one by itself.
pub fn same_family(a: SqlType, b: SqlType) -> bool
    ensures { result ≡ one_family a b }
{
    family(a) == family(b)
}

/// Whether there is a kind and it is this one.
pub fn is_kind(kind: SqlType, found: Option<SqlType>) -> bool
    ensures { result ≡ is_one kind found }
{
    match found {
        Some(found) => same_kind(kind, found),
        None => false,
    }
}

/// Whether a cell is NULL or of the kind.
pub fn fits(kind: SqlType, cell: &Cell) -> bool
    ensures { result ≡ is_null_or_of kind cell.now }
{
    match (kind, cell) {
        (_, Cell::Null) => true,
        (SqlType::Text, Cell::Text(_)) => true,
        (SqlType::Int, Cell::Int(_)) => true,
        (SqlType::Dec, Cell::Dec(_)) => true,
        (SqlType::Bool, Cell::Bool(_)) => true,
        (SqlType::Date, Cell::Date(_)) => true,
        (SqlType::Stamp, Cell::Stamp(_)) => true,
        (SqlType::Bin, Cell::Bin(_)) => true,
        (SqlType::Time, Cell::Time(_)) => true,
        (SqlType::Term, Cell::Term(_)) => true,
        _ => false,
    }
}
