ghost use Rattle.std.specs.Prelude.{◌≡◌, ℕ, ◌+◌, ◌-◌, ◌*◌, ◌<◌, ◌≤◌, ℤ, pos, ◌+ℤ◌, ◌-ℤ◌, ◌≤ℤ◌, unsigned_abs, List, Some, None, slice_get};
ghost use Rattle.std.specs.Int.{abs_diff};
ghost use Rattle.slew_clock.specs.declared.rates.Rates.{Rates};
ghost use Rattle.slew_clock.specs.declared.record.Anchor.{Anchor};
ghost use Rattle.slew_clock.specs.declared.record.ClockRecord.{ClockRecord};
ghost use Rattle.slew_clock.specs.Record.{end_of, greatest_slew, IsSound};
ghost use Rattle.slew_clock.specs.Line.{line};
ghost use Rattle.slew_clock.specs.Elapsed.{carried, MayElapse, IsRight};
ghost use Rattle.slew_clock.specs.Reading.{interval_of, inaccuracy_of};
ghost use Rattle.slew_clock.specs.Change.{anchored_record, renewed_record, slew_to_middle};
ghost use Rattle.slew_clock.specs.Clock.{IsNext, IsClockHistory, NoneIsLate};

use crate::{GREATEST_INACCURACY, MILLION};

/// While the oscillator goes on by x units, as much true time may elapse as differs from x by no more than
/// the drift, in parts per million of x, and the resolution; and no time that differs by a unit more. It
/// does nothing: its contract is the law, as with all that follow.
pub fn elapsed_time_has_bounds()
    ensures within { (r : Rates) (x t : ℕ)
        → abs_diff t x * MILLION ≤ x * r.drift_ppm + r.resolution * MILLION → MayElapse r x (pos t) }
    ensures outside { (r : Rates) (x t : ℕ)
        → x * r.drift_ppm + (r.resolution + 1) * MILLION ≤ abs_diff t x * MILLION → MayElapse r x (pos t) → ⊥ }
{}

/// An answer is right exactly where its interval held true time at some moment between its asking and its
/// coming. One that was right holds true time when it is carried on, where what passed since its asking
/// and since its coming may elapse.
pub fn right_answers_stay_right()
    ensures right { (lo hi asked then got : ℤ) → asked ≤ℤ then → then ≤ℤ got → lo ≤ℤ then → then ≤ℤ hi
        → IsRight lo hi asked got }
    ensures met { (lo hi asked got : ℤ) → lo ≤ℤ hi → asked ≤ℤ got → IsRight lo hi asked got
        → (then : ℤ) × (asked ≤ℤ then) × (then ≤ℤ got) × (lo ≤ℤ then) × (then ≤ℤ hi) }
    ensures holds { (r : Rates) (lo hi : ℤ) (asked got now : ℕ) (at_asking at_coming time : ℤ)
        → IsRight lo hi at_asking at_coming
        → MayElapse r (now - asked) (time -ℤ at_asking) → MayElapse r (now - got) (time -ℤ at_coming)
        → ((carried r lo hi asked got now).0 ≤ℤ time) × (time ≤ℤ (carried r lo hi asked got now).1) }
{}

/// A reading's inaccuracy is the least that holds both ends of the interval: where it is specified each
/// point of the interval is within it of the line, and what holds both ends is not less. Where it is
/// unspecified with an interval, what holds both ends is above the greatest one.
pub fn inaccuracies_are_tightest()
    ensures holds { (r : Rates) (rec : ClockRecord) (o i : ℕ) (lo hi time : ℤ)
        → inaccuracy_of r rec o ≡ Some i → interval_of r rec o ≡ Some (lo, hi) → lo ≤ℤ time → time ≤ℤ hi
        → ((line r rec o -ℤ pos i) ≤ℤ time) × (time ≤ℤ (line r rec o +ℤ pos i)) }
    ensures least { (r : Rates) (rec : ClockRecord) (o i j : ℕ) (lo hi : ℤ)
        → inaccuracy_of r rec o ≡ Some i → interval_of r rec o ≡ Some (lo, hi)
        → (line r rec o -ℤ pos j) ≤ℤ lo → hi ≤ℤ (line r rec o +ℤ pos j) → i ≤ j }
    ensures unspecified { (r : Rates) (rec : ClockRecord) (o j : ℕ) (lo hi : ℤ)
        → inaccuracy_of r rec o ≡ None → interval_of r rec o ≡ Some (lo, hi)
        → (line r rec o -ℤ pos j) ≤ℤ lo → hi ≤ℤ (line r rec o +ℤ pos j) → GREATEST_INACCURACY < j }
{}

/// Where the interval of a record's anchor held true time, and what passed since may elapse, a reading of
/// the record has an unspecified inaccuracy or is within it of true time.
pub fn readings_hold_true_time()
    ensures { (r : Rates) (rec : ClockRecord) (o i : ℕ) (a : Anchor) (then time : ℤ)
        → rec.anchor ≡ Some a → a.lo ≤ℤ then → then ≤ℤ a.hi → MayElapse r (o - a.osc) (time -ℤ then)
        → inaccuracy_of r rec o ≡ Some i
        → ((line r rec o -ℤ pos i) ≤ℤ time) × (time ≤ℤ (line r rec o +ℤ pos i)) }
{}

/// The next record of a clock has the next number, is not made before the one that it follows, and has
/// its step number or the next one.
pub fn next_records_count_up()
    ensures number { (r : Rates) (rec next : ClockRecord) → IsNext r rec next → next.number ≡ rec.number + 1 }
    ensures born { (r : Rates) (rec next : ClockRecord) → IsNext r rec next → rec.born ≤ next.born }
    ensures step { (r : Rates) (rec next : ClockRecord) → IsNext r rec next
        → (rec.step ≤ next.step) × (next.step ≤ rec.step + 1) }
{}

/// Another anchor leaves the line as it was, and a renewal before the end leaves it so up to that end. The
/// second part of a renewed record leads to the middle of the interval where it begins, from the value
/// that the new line has there, as far as the greatest slew allows.
pub fn changes_keep_the_line()
    ensures anchored { (r : Rates) (rec : ClockRecord) (osc o : ℕ) (i : ℤ × ℤ)
        → line r (anchored_record rec osc i) o ≡ line r rec o }
    ensures renewed { (r : Rates) (rec next : ClockRecord) (osc o : ℕ) → IsSound r rec → IsSound r next
        → renewed_record r rec osc ≡ Some next → osc < end_of r rec
        → rec.b.from ≤ o → o ≤ end_of r rec → line r next o ≡ line r rec o }
    ensures leads { (r : Rates) (rec next : ClockRecord) (osc : ℕ) → IsSound r rec → IsSound r next
        → renewed_record r rec osc ≡ Some next
        → next.b.x ≡ slew_to_middle r rec next.b.from (line r next next.b.from) }
{}

/// Along a clock history step numbers never fall, and within one step number readings never fall: also
/// where a slow reader still reads an older record after the later one was made.
pub fn readings_never_fall()
    ensures step { (r : Rates) (records : List ClockRecord) (i j : ℕ) (earlier later : ClockRecord)
        → IsClockHistory r records → j ≤ i
        → slice_get records i ≡ Some earlier → slice_get records j ≡ Some later → earlier.step ≤ later.step }
    ensures value { (r : Rates) (records : List ClockRecord) (i j o p : ℕ) (earlier later : ClockRecord)
        → IsClockHistory r records → j ≤ i
        → slice_get records i ≡ Some earlier → slice_get records j ≡ Some later → earlier.step ≡ later.step
        → earlier.born ≤ o → later.born ≤ p → o ≤ p → line r earlier o ≤ℤ line r later p }
{}

/// The bound on the slew between two readings of a clock history, of one step number, of which neither is
/// past the end of its record, where no record after the first one's, up to the second one's, was renewed
/// at an end or past it. What the clock goes on by differs from what the oscillator goes on by, times the
/// lease, by at most the greatest slew times the latter and two leases.
pub fn slew_has_a_bound()
    ensures { (r : Rates) (records : List ClockRecord) (i j o p : ℕ) (earlier later : ClockRecord)
        → IsClockHistory r records → j ≤ i
        → slice_get records i ≡ Some earlier → slice_get records j ≡ Some later → earlier.step ≡ later.step
        → NoneIsLate r records i j
        → earlier.born ≤ o → o ≤ end_of r earlier → later.born ≤ p → p ≤ end_of r later → o ≤ p
        → unsigned_abs ((line r later p -ℤ line r earlier o) -ℤ pos (p - o)) * r.lease ≤ greatest_slew r * (p - o) + 2 * r.lease }
{}
