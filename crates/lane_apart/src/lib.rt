//! Each lane of a node is apart: what it gives depends on the roster, on its own positions and on the records that were
//! current at them, and on nothing else that came to the node. No function here does anything: its contract is the law.
#![tactic(auto)]

ghost use Rattle.lane_apart.specs.Laws.{DependsOnNoLess, EventsMakeHistories, LanesAreApart};

/// What a lane gives depends on the roster, on the lane's own positions, and on the record that was current at each of
/// them: two histories in which the lane sees the same give the same in it, whatever else they have.
#[tactic(auto, using(crate::proofs::Apart::lanes_are_apart))]
pub fn lanes_are_apart()
    ensures { LanesAreApart }
{}

/// There are such histories of every roster and of all events, as long as each ask is of a connection that a client made.
#[tactic(auto, using(crate::proofs::Apart::events_make_histories))]
pub fn events_make_histories()
    ensures { EventsMakeHistories }
{}

/// A lane may see the same where another one does not; and another roster, another event of its own or another record alone
/// may change what it gives.
#[tactic(auto, using(crate::proofs::Rows::depends_on_no_less))]
pub fn lanes_depend_on_no_less()
    ensures { DependsOnNoLess }
{}
