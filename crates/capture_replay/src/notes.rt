ghost use Rattle.std.specs.Prelude.{◌≡◌};
ghost use Rattle.capture_replay.specs.Notes.{noted_at};

use dts_capture::{Action, Note, NoteKind};

// A note on an event without a peer.
pub(crate) fn note(osc: u64, kind: NoteKind) -> Action
    ensures { result ≡ noted_at osc kind }
{
    Action::Log(Note {
        osc,
        peer: None,
        kind,
    })
}
