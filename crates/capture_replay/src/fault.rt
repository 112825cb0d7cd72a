ghost use Rattle.std.specs.Prelude.{◌≡◌};
ghost use Rattle.capture_replay.specs.Capture.{at_first};

use dts_capture::LineCause;
use thiserror::Error;

/// Where a line of a capture is refused, and why.
#[derive(Clone, Copy, Debug, PartialEq, Eq, Error)]
#[error("column {column}: {cause}")]
pub struct CaptureFault {
    /// The column of the first wrong field, from 1, or one past the line's end for a missing field.
    pub column: u32,
    /// What is wrong there.
    pub cause: LineCause,
}

impl CaptureFault {
    /// The fault of a whole line, at its first column.
    pub fn at_first(cause: LineCause) -> CaptureFault
        ensures { result ≡ at_first cause }
    {
        CaptureFault { column: 1, cause }
    }
}
