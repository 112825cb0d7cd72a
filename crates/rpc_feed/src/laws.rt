//! Laws over the definitions: each is the contract of a call that does nothing.

ghost use Rattle.std.specs.Prelude.{◌≡◌, ◌<◌, ℕ, List, [], ◌++◌, length, Ok};
ghost use Rattle.pdu_fields.specs.declared.header.TheConstants.{MAX_FRAGMENT};
ghost use Rattle.pdu_fields.specs.declared.pdu.Pdu.{Pdu};
ghost use Rattle.pdu_fields.specs.Grammar.{Spells};
ghost use Rattle.rpc_feed.specs.Pieces.{Front, beginning, front, partial, pieces, whole};
ghost use Rattle.rpc_feed.specs.Calls.{Call, all_answers, answers, answers_left, feed_after, joined};

/// It does not matter how a stream is cut: whatever pieces are fed and whenever the next answer is asked for, the answers
/// so far, and then those that the feed can still give, are the PDUs of all octets that were taken and then their refusal.
/// None, want of memory and repeats of a refusal do not count.
pub fn cuts_do_not_matter()
    ensures { (calls : List Call) → answers (Ok []) calls ++ answers_left (feed_after (Ok []) calls) ≡ all_answers (joined calls) }
{}

/// The pieces of a stream are its front and then the pieces behind that. Octets that spell a PDU are at the front with that
/// PDU, whatever follows; a PDU at the front is spelled by the octets up to those behind it; and octets that are no whole
/// fragment are fewer than the greatest fragment has.
pub fn pieces_follow_their_front()
    ensures begin { (b : List ℕ) → pieces b ≡ beginning (front b) b pieces }
    ensures given { (v : Pdu) (first behind : List ℕ) → Spells v first → front (first ++ behind) ≡ whole v behind }
    ensures spelled { (b : List ℕ) (v : Pdu) (behind : List ℕ) → front b ≡ whole v behind → (first : List ℕ) × (b ≡ first ++ behind) × Spells v first }
    ensures rest { (b : List ℕ) → front b ≡ partial → length b < MAX_FRAGMENT }
{}
