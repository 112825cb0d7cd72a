ghost use Rattle.event_drill.specs.Laws.{AreOneList, OscillatorGoesOn, AreValidCaptures, IsCountedByLines, HasNoOtherLine};

/// A seed makes one list of events, as many as are asked for: fewer of them are the beginning of more. The oscillator
/// of a drill never goes back.
pub fn a_seed_makes_one_list()
    ensures list { AreOneList }
    ensures oscillator { OscillatorGoesOn }
{}

/// What a seed makes is a valid capture: a replay at the usual rates takes it as a whole, and writes the log whose lines
/// the summary counts, one line for each action. That log has no line but those that are counted.
pub fn a_drill_is_a_replay()
    ensures valid { AreValidCaptures }
    ensures lines { IsCountedByLines }
    ensures others { HasNoOtherLine }
{}
