use vkg_cells::Cell;

// A cell as a table's file has it.
pub fn field<'c>(cell: &'c Cell) -> &'c str {
    match cell {
        Cell::Text(text) | Cell::Int(text) | Cell::Dec(text) => text.as_str(),
        Cell::Null => "\\N",
        _ => "another kind",
    }
}
