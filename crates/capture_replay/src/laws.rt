ghost use Rattle.std.specs.Prelude.{ℕ, List, Result};
ghost use Rattle.slew_clock.specs.declared.rates.Rates.{Rates};
ghost use Rattle.line_filter.specs.declared.stop.Stop.{Stop};
ghost use Rattle.line_filter.specs.Filters.{Filters, IsValid};
ghost use Rattle.line_filter.specs.Laws.{IsExclusive, IsTotal};
ghost use Rattle.dts_capture.specs.declared.event.Event.{Event};
ghost use Rattle.sync_rules.specs.History.{Start, log_of};
ghost use Rattle.capture_replay.specs.declared.fault.CaptureFault.{CaptureFault};
ghost use Rattle.capture_replay.specs.Capture.{capture, unstarted};
ghost use Rattle.capture_replay.specs.SafeLogs.{WritesSafely};
ghost use Rattle.capture_replay.specs.Written.{IsWritable, written, history_of};

/// The rules of a capture leave one way to end: a line is taken with one text, or refused for one cause, and not both.
pub fn one_log_of_a_capture()
    ensures { IsExclusive capture }
{}

/// Each line of a capture is taken or refused, whatever stands before it, and so is its end.
pub fn every_line_is_taken_or_refused()
    ensures { IsTotal capture }
{}

/// Each start and each list of events with their numbers in the ranges of the grammar, of kinds that are replayed, have
/// a valid capture, which is their printed text, and its log is that of the history that they make.
pub fn every_history_has_a_capture()
    ensures { (rates : Rates) (start : Start) (events : List Event) → IsWritable start events
        → IsValid capture (unstarted rates) (written start events) (log_of (history_of rates start events)) }
{}

/// Whatever a capture says, and wherever its replay ends or stops, what it wrote is the log of a safe history, or the
/// beginning of one.
pub fn every_log_is_safe()
    ensures { (rates : Rates) (octets left : List ℕ) (result : Result (Unit {0}) (Stop CaptureFault)) (text : List ℕ)
        → Filters capture (unstarted rates) octets left result text → WritesSafely rates result text }
{}
