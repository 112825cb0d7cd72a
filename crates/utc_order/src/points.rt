//! Points of time, some of which may be missing.

ghost use Rattle.std.specs.Prelude.{◌≡◌};
ghost use Rattle.utc_order.specs.Marks.{is_below};
ghost use Rattle.utc_order.specs.Places.{greater};

/// The greater of two points, where none is less than every point.
pub(crate) fn greater(first: Option<i128>, second: Option<i128>) -> Option<i128>
    ensures { result ≡ greater first second }
{
    match (first, second) {
        (None, _) => second,
        (Some(_), None) => first,
        (Some(one), Some(other)) => { if one < other { second } else { first } }
    }
}

/// Whether there are both points, and the first is less.
pub(crate) fn is_below(first: Option<i128>, second: Option<i128>) -> bool
    ensures { result ≡ is_below first second }
{
    match (first, second) {
        (Some(one), Some(other)) => one < other,
        _ => false,
    }
}
