//! Laws of the routines. Each function does nothing: its contract is the law.

ghost use Rattle.std.specs.Prelude.{◌≡◌, ℤ};
ghost use Rattle.utc_value.specs.Stamp.{Stamp, IsInRange};
ghost use Rattle.utc_routines.specs.declared.Order4.{Order4};
ghost use Rattle.utc_routines.specs.declared.UtcFault.{UtcFault};
ghost use Rattle.utc_routines.specs.Arithmetic.{Adds, RefusesSum, Subtracts, RefusesDifference, TakesAbsolute, RefusesAbsolute, Multiplies, RefusesProduct, ChangesTdf, RefusesTdf};
ghost use Rattle.utc_routines.specs.Comparison.{IsIntervalOrder, IsTimeOrder, RefusesUnlike};
ghost use Rattle.utc_routines.specs.Tightest.{Spans, Bounds, RefusesBound, ArePoints, RefusesPoints};

/// Each routine has one result at most.
pub fn one_result()
    ensures sum { (a b r q : Stamp) → Adds a b r → Adds a b q → r ≡ q }
    ensures difference { (a b r q : Stamp) → Subtracts a b r → Subtracts a b q → r ≡ q }
    ensures absolute { (a r q : Stamp) → TakesAbsolute a r → TakesAbsolute a q → r ≡ q }
    ensures multiple { (a : Stamp) (k : ℤ) (r q : Stamp) → Multiplies a k r → Multiplies a k q → r ≡ q }
    ensures moment { (a : Stamp) (t : ℤ) (r q : Stamp) → ChangesTdf a t r → ChangesTdf a t q → r ≡ q }
    ensures span { (a b r q : Stamp) → Spans a b r → Spans a b q → r ≡ q }
    ensures bound { (a b r q : Stamp) → Bounds a b r → Bounds a b q → r ≡ q }
    ensures points { (a r s t x y z : Stamp) → ArePoints a r s t → ArePoints a x y z → (r ≡ x) × (s ≡ y) × (t ≡ z) }
    ensures interval_order { (a b : Stamp) (o p : Order4) → IsIntervalOrder a b o → IsIntervalOrder a b p → o ≡ p }
    ensures time_order { (a b : Stamp) (o p : Order4) → IsTimeOrder a b o → IsTimeOrder a b p → o ≡ p }
{}

/// No operands with a result are refused.
pub fn no_operands_are_both()
    ensures sum { (a b r : Stamp) (fault : UtcFault) → Adds a b r → IsInRange r → RefusesSum a b fault → ⊥ }
    ensures difference { (a b r : Stamp) (fault : UtcFault) → Subtracts a b r → IsInRange r → RefusesDifference a b fault → ⊥ }
    ensures absolute { (a r : Stamp) (fault : UtcFault) → TakesAbsolute a r → IsInRange r → RefusesAbsolute a fault → ⊥ }
    ensures multiple { (a : Stamp) (k : ℤ) (r : Stamp) (fault : UtcFault) → Multiplies a k r → IsInRange r → RefusesProduct a k fault → ⊥ }
    ensures moment { (a : Stamp) (t : ℤ) (r : Stamp) (fault : UtcFault) → ChangesTdf a t r → IsInRange r → RefusesTdf a t fault → ⊥ }
    ensures bound { (a b r : Stamp) (fault : UtcFault) → Bounds a b r → IsInRange r → RefusesBound a b fault → ⊥ }
    ensures points { (a x y z : Stamp) (fault : UtcFault) → ArePoints a x y z → IsInRange x → IsInRange z → RefusesPoints a fault → ⊥ }
    ensures unlike { (a b : Stamp) (fault : UtcFault) → a.kind ≡ b.kind → RefusesUnlike a b fault → ⊥ }
{}

/// Operands are refused for one fault.
pub fn one_refusal()
    ensures sum { (a b : Stamp) (x y : UtcFault) → RefusesSum a b x → RefusesSum a b y → x ≡ y }
    ensures difference { (a b : Stamp) (x y : UtcFault) → RefusesDifference a b x → RefusesDifference a b y → x ≡ y }
    ensures absolute { (a : Stamp) (x y : UtcFault) → RefusesAbsolute a x → RefusesAbsolute a y → x ≡ y }
    ensures multiple { (a : Stamp) (k : ℤ) (x y : UtcFault) → RefusesProduct a k x → RefusesProduct a k y → x ≡ y }
    ensures moment { (a : Stamp) (t : ℤ) (x y : UtcFault) → RefusesTdf a t x → RefusesTdf a t y → x ≡ y }
    ensures bound { (a b : Stamp) (x y : UtcFault) → RefusesBound a b x → RefusesBound a b y → x ≡ y }
    ensures points { (a : Stamp) (x y : UtcFault) → RefusesPoints a x → RefusesPoints a y → x ≡ y }
    ensures unlike { (a b : Stamp) (x y : UtcFault) → RefusesUnlike a b x → RefusesUnlike a b y → x ≡ y }
{}
