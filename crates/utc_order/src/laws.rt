//! Laws of the order and its marks. These functions do nothing: their contracts are the laws.

ghost use Rattle.std.specs.Prelude.{◌≡◌, ◌↔◌, ◌⊎◌, ℕ, List, [], true, IsPermutation};
ghost use Rattle.utc_value.specs.Stamp.{Stamp};
ghost use Rattle.utc_routines.specs.Comparison.{IsIntervalOrder};
ghost use Rattle.utc_routines.specs.declared.Order4.TheVariants.{LessThan};
ghost use Rattle.utc_order.specs.declared.place.Place.{Place};
ghost use Rattle.utc_order.specs.Lines.{LogLine, Spells};
ghost use Rattle.utc_order.specs.Marks.{is_certainly_earlier};
ghost use Rattle.utc_order.specs.Places.{IsOrder, lines_at};
ghost use Rattle.line_reader.specs.Lines.{lines_of};
ghost use Rattle.utc_order.specs.declared.cause.OrderCause.{OrderCause};
ghost use Rattle.utc_order.specs.Taking.{Takes, Refuses, TakesEach, RefusesAt};
ghost use Rattle.utc_order.specs.Orders.{IsOrdered};
ghost use Rattle.utc_order.specs.Laws.{KeepHosts, KeepTimes};

/// A time is certainly earlier than another exactly where `cmp_interval` says so: each of its members is below each of
/// the other's.
pub fn certainly_earlier_is_below_as_an_interval()
    ensures { (a b : Stamp) → (is_certainly_earlier a b ≡ true) ↔ IsIntervalOrder a b LessThan }
{}

/// Each line stands in the order once.
pub fn each_line_stands_once()
    ensures { (lines : List LogLine) (order : List Place) → IsOrder lines order → IsPermutation lines (lines_at lines order) }
{}

/// The lines of one host stand as they were read.
pub fn lines_of_a_host_keep_their_order()
    ensures { (lines : List LogLine) (order : List Place) → IsOrder lines order → KeepHosts order }
{}

/// No line stands before one that is certainly earlier, whatever lines are taken.
pub fn no_line_stands_before_a_certainly_earlier_one()
    ensures { (octets : List (List ℕ)) (lines : List LogLine) (order : List Place) → TakesEach [] octets lines → IsOrder lines order → KeepTimes (lines_at lines order) }
{}

/// Lines have one order, and an input one text.
pub fn one_order_and_one_text()
    ensures order { (lines : List LogLine) (order other : List Place) → IsOrder lines order → IsOrder lines other → order ≡ other }
    ensures text { (octets text other : List ℕ) → IsOrdered octets text → IsOrdered octets other → text ≡ other }
{}

/// An input with a refused line has no text.
pub fn no_input_is_ordered_and_refused()
    ensures { (octets text : List ℕ) (n : ℕ) (cause : OrderCause) → IsOrdered octets text → RefusesAt (lines_of octets) n cause → ⊥ }
{}

/// Behind any lines, octets are taken as one line or refused for one cause, and not both.
pub fn a_line_or_one_cause()
    ensures either { (before : List LogLine) (octets : List ℕ) → ((line : LogLine) × Takes before octets line) ⊎ ((cause : OrderCause) × Refuses before octets cause) }
    ensures not_both { (before : List LogLine) (octets : List ℕ) (line : LogLine) (cause : OrderCause) → Takes before octets line → Refuses before octets cause → ⊥ }
    ensures one_line { (octets : List ℕ) (line other : LogLine) → Spells octets line → Spells octets other → line ≡ other }
    ensures one_cause { (before : List LogLine) (octets : List ℕ) (cause other : OrderCause) → Refuses before octets cause → Refuses before octets other → cause ≡ other }
{}

/// An input has one first refused line at most, with one cause.
pub fn one_refused_line()
    ensures { (all : List (List ℕ)) (m n : ℕ) (cause other : OrderCause) → RefusesAt all m cause → RefusesAt all n other → (m ≡ n) × (cause ≡ other) }
{}
