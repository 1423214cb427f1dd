/// What a token of the DDL means.
#[derive(Clone, Copy)]
pub enum Role {
    /// The symbol is no token.
    Choice,
    Other,
    Table,
    Column,
    Kind,
    Number,
    NotNull,
    ColumnPrimary,
    ColumnUnique,
    ColumnReferences,
    Primary,
    Unique,
    /// The first column of a key.
    KeyFirst,
    KeyColumn,
    Foreign,
    ChildColumn,
    References,
    Target,
    TargetColumn,
}
