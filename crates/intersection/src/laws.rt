ghost use Rattle.std.specs.Prelude.{◌≡◌, ℕ, ◌*◌, ◌+◌, ◌-◌, ◌/◌, ◌<◌, ℤ, ◌≤ℤ◌, List, [], Some, length, MatchOption};
ghost use Rattle.intersection.specs.Adoption.{Holds, AreApart, count, need, IsAgreed, NoneIsAgreed, IsAdopted};
ghost use Rattle.intersection.specs.Adopted.{adopted};

/// Where fewer than half of the intervals lack true time there is an adopted interval, and it holds true
/// time. It does nothing: its contract is the law, as with all that follow.
pub fn true_time_is_adopted()
    ensures exists { (s : List (ℤ × ℤ)) (time : ℤ) → 2 * (length s - count s time) < length s
        → (i : ℤ × ℤ) × (adopted s ≡ Some i) × IsAdopted s i × Holds i time }
    ensures holds { (s : List (ℤ × ℤ)) (i : ℤ × ℤ) (time : ℤ) → IsAdopted s i
        → 2 * (length s - count s time) < length s → Holds i time }
{}

/// Where fewer than half of the intervals lack true time, an interval that has no point in common with the
/// adopted one lacks it.
pub fn false_intervals_lack_true_time()
    ensures { (s : List (ℤ × ℤ)) (i j : ℤ × ℤ) (time : ℤ) → IsAdopted s i
        → 2 * (length s - count s time) < length s → AreApart j i → Holds j time → ⊥ }
{}

/// Enough is more than half: so many that fewer than half are left, and of n intervals all but (n - 1) / 2,
/// rounded down.
pub fn points_are_agreed_by_more_than_half()
    ensures agreed { (s : List (ℤ × ℤ)) (p : ℤ) → 2 * (length s - count s p) < length s → IsAgreed s p }
    ensures left { (s : List (ℤ × ℤ)) (p : ℤ) → IsAgreed s p → 2 * (length s - count s p) < length s }
    ensures need { (n : ℕ) → 0 < n → need n ≡ n - (n - 1) / 2 }
{}

/// At most one interval is adopted, its ends are in order, none is where no point is agreed on, and of no
/// intervals none is. The function finds it exactly where there is one.
pub fn one_interval_is_adopted()
    ensures one { (s : List (ℤ × ℤ)) (i j : ℤ × ℤ) → IsAdopted s i → IsAdopted s j → i ≡ j }
    ensures ordered { (s : List (ℤ × ℤ)) (i : ℤ × ℤ) → IsAdopted s i → i.0 ≤ℤ i.1 }
    ensures none { (s : List (ℤ × ℤ)) (i : ℤ × ℤ) → IsAdopted s i → NoneIsAgreed s → ⊥ }
    ensures of_none { (i : ℤ × ℤ) → IsAdopted [] i → ⊥ }
    ensures found { (s : List (ℤ × ℤ)) → MatchOption (adopted s) (NoneIsAgreed s) (IsAdopted s) }
{}
