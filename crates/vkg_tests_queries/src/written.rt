use std::alloc::Global;
use std::test::Fail;
use vkg_base::{Lines, MemSink};

/// The bytes of the lines.
pub fn written(alloc: Global, lines: &Lines) -> Result<Vec<u8>, Fail> {
    let mut sink = MemSink::with_room(alloc, 1000, Vec::new(alloc))?;
    let Ok(()) = lines.write_all(&mut sink) else {
        return Ok(Vec::new(alloc));
    };
    Ok(sink.taken().to_vec(alloc)?)
}
