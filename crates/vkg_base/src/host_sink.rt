ghost use Rattle.std.specs.Prelude.{◌≡◌, ◌≤◌, ◌-◌, take, length};
ghost use Rattle.std.specs.Io.KnownBytes.{Appends};

use crate::{Failed, Sink};
use std::io::Write;
use std::marker::Model;

/// A writer of the system, as the standard output. What it took is told as far as the writer tells what it holds.
#[derive(Drop)]
pub struct HostSink<W: Write + Drop> {
    writer: W,
    faults: u64,
}

impl<W: Write + Drop> Model for HostSink<W> {
    ghost use Rattle.vkg_base.specs.Outside.{SinkState};

    ghost Value = { SinkState };

    ghost view = { λ s. record { taken = W.contents s.writer; faults = s.faults } };
}

impl<W: Write + Drop> HostSink<W> {
    /// A sink over this writer, with no fault so far.
    pub fn new(writer: W) -> HostSink<W>
        ensures taken { result.taken ≡ W.contents writer }
        ensures faults { result.faults ≡ 0 }
    {
        HostSink { writer, faults: 0 }
    }
}

impl<W: Write + Drop> Sink for HostSink<W> {
    ghost state = { λ s. s };

    fn write(&mut self, piece: &[u8]) -> Result<(), Failed> {
        let left = write_until(&mut self.writer, piece);
        if left == 0 {
            return Ok(());
        }
        self.faults = self.faults.saturating_add(1);
        Err(Failed)
    }
}

// Writes piece by piece, as many times as there are bytes at most, and says how many bytes are left.
fn write_until<W: Write>(writer: &mut W, piece: &[u8]) -> usize
    ensures left { result ≤ length piece.now }
    ensures bytes { Appends (W.contents writer.old) (W.contents writer.new) (take (length piece.now - result) piece.now) }
{
    let mut done = 0;
    for _ in 0..piece.len() {
        if done == piece.len() {
            break;
        }
        match writer.write(&piece[done..]) {
            Ok(0) | Err(_) => break,
            Ok(count) => done += count,
        }
    }
    piece.len() - done
}
