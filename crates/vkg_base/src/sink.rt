ghost use Rattle.std.specs.Prelude.{OnOk, OnErr};
ghost use Rattle.vkg_base.specs.Outside.{SinkState, Took, Broke};

use thiserror::Error;

/// One write failed: the sink took only a prefix of its piece.
#[derive(Clone, Copy, Debug, Drop, Error, PartialEq, Eq)]
#[error("a write failed")]
pub struct Failed;

/// A sink took only a prefix of all that it was to take.
#[derive(Clone, Copy, Debug, Drop, Error, PartialEq, Eq)]
#[error("not written to the end")]
pub struct WriteFault;

/// A sink of bytes. It counts its faults.
pub trait Sink {
    ghost state: { Self → SinkState };

    /// Takes the whole piece, or a prefix of it at a fault. It takes no memory.
    fn write(&mut self, piece: &[u8]) -> Result<(), Failed>
        ensures ok { OnOk result (Took (state self.old) (state self.new) piece.now) }
        ensures failed { OnErr result (Broke (state self.old) (state self.new) piece.now) };
}
