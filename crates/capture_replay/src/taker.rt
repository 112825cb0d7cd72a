ghost use Rattle.std.specs.Prelude.{◌≡◌, List, [], ◌∷◌, ◌++◌, flat_map, OnOk};
ghost use Rattle.dts_capture.specs.declared.action.Action.{Action};
ghost use Rattle.dts_capture.specs.Log.{log_text};

use dts_base::NoMemory;
use dts_capture::{Action, append_action};
use std::alloc::Global;

/// What takes the actions that events give, one after the other.
pub trait ActionTaker {
    /// A value took these actions so far, in order.
    ghost took: { Self → List Action → Type 0 };

    /// Takes one more action.
    fn take(&mut self, alloc: Global, action: Action) -> Result<(), NoMemory>
        ensures { OnOk result ((before : List Action) → took self.old before → took self.new (before ++ action ∷ [])) };
}

/// The text of a log: of each action its line.
impl ActionTaker for Vec<u8> {
    ghost took = { λ text actions. text.items ≡ flat_map log_text actions };

    fn take(&mut self, alloc: Global, action: Action) -> Result<(), NoMemory> {
        append_action(alloc, self, &action)
    }
}
