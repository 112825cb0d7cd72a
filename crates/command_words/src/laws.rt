//! Laws of the words. The function does nothing: its contract is the laws.
ghost use Rattle.std.specs.Prelude.{◌≡◌, ◌≤◌, ◌^◌, ◌-◌, ◌∷◌, ℕ, List, [], Some, codes, false, length, true, unwrap_or};
ghost use Rattle.std.specs.List.{join_by, list_all};
ghost use Rattle.command_words.specs.declared.syntax.TheConstants.{MOST_EVENTS, MOST_SEED};
ghost use Rattle.command_words.specs.Words.{asks, meaning_of, means, nothing, number_in};
ghost use Rattle.command_words.specs.Plain.{ArePlain, Given, half_by, is_no_option, is_of_clerk, is_of_server, option_words, value_of, workers};

use crate::command_line::{CommandLine, ShowKind};

/// Words in plain form mean their command, whatever their numbers are and in whatever order its options stand: each
/// option at most once, as `--name value`, each number in plain decimal and in its range, and no other word with a hyphen
/// in front. Words that ask for the help or the version do so, and of wrong words there are some examples, which mean
/// nothing.
pub fn words_have_their_meaning()
    ensures replay { meaning_of (codes "replay" ∷ []) ≡ means (CommandLine.Replay false) }
    ensures roster { meaning_of (codes "replay" ∷ codes "--roster" ∷ []) ≡ means (CommandLine.Replay true) }
    ensures clerk { (given : List Given) → ArePlain is_of_clerk given → meaning_of (codes "clerk" ∷ option_words given) ≡ means (CommandLine.Clerk (half_by given)) }
    ensures server { (given : List Given) → ArePlain is_of_server given → meaning_of (codes "server" ∷ option_words given) ≡ means (CommandLine.Server (half_by given) (unwrap_or (value_of workers given) 1)) }
    ensures utc { meaning_of (codes "utc" ∷ []) ≡ means CommandLine.Utc }
    ensures order { meaning_of (codes "order" ∷ []) ≡ means CommandLine.Order }
    ensures pdu { meaning_of (codes "show" ∷ codes "pdu" ∷ []) ≡ means (CommandLine.Show ShowKind.Pdu) }
    ensures ntp { meaning_of (codes "show" ∷ codes "ntp" ∷ []) ≡ means (CommandLine.Show ShowKind.Ntp) }
    ensures timestamp { meaning_of (codes "show" ∷ codes "utc" ∷ []) ≡ means (CommandLine.Show ShowKind.Utc) }
    ensures drill { (seed events : List ℕ) (s e : ℕ) → number_in MOST_SEED seed ≡ Some s → number_in MOST_EVENTS events ≡ Some e → meaning_of (codes "drill" ∷ seed ∷ events ∷ []) ≡ means (CommandLine.Drill s e) }
    ensures control { (address word : List ℕ) (words : List (List ℕ)) → list_all is_no_option (address ∷ word ∷ words) ≡ true → length (word ∷ words) ≤ 2 ^ 64 - 1 →
        meaning_of (codes "control" ∷ address ∷ word ∷ words) ≡ means (CommandLine.Control address (join_by (λ w. w) (codes " ") (word ∷ words))) }
    ensures help { meaning_of (codes "--help" ∷ []) ≡ asks }
    ensures version { meaning_of (codes "--version" ∷ []) ≡ asks }
    ensures none { meaning_of [] ≡ nothing }
    ensures extra { meaning_of (codes "replay" ∷ codes "x" ∷ []) ≡ nothing }
    ensures unknown { meaning_of (codes "help" ∷ []) ≡ nothing }
    ensures twice { meaning_of (codes "replay" ∷ codes "--roster" ∷ codes "--roster" ∷ []) ≡ nothing }
    ensures below { meaning_of (codes "server" ∷ codes "--workers" ∷ codes "0" ∷ []) ≡ nothing }
    ensures above { meaning_of (codes "server" ∷ codes "--workers" ∷ codes "5" ∷ []) ≡ nothing }
    ensures zero { meaning_of (codes "drill" ∷ codes "01" ∷ codes "0" ∷ []) ≡ nothing }
    ensures sign { meaning_of (codes "drill" ∷ codes "+1" ∷ codes "0" ∷ []) ≡ nothing }
{}
