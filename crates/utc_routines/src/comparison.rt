//! The two orders of timestamps.

ghost use Rattle.std.specs.Prelude.{◌≡◌, ◌≤ℤ◌, ◌↔◌, Ok, Err, IfOk, IfErr};
ghost use Rattle.utc_routines.specs.Comparison.{IsIntervalOrder, IsTimeOrder, RefusesUnlike};
ghost use Rattle.utc_routines.specs.Formula.{IsEndsOrder};

use crate::parts::{Ends, are_alike, both_ends};
use crate::{Order4, UtcFault};
use utc_value::Utc;

/// How the members of `a` lie to those of `b`: `LessThan` where each is below each of `b`,
/// `GreaterThan` where each is above, `EqualTo` where both have the same one member, and else
/// `Indeterminate`. An unspecified timestamp has every whole time as a member.
///
/// `Kinds` exactly where the kinds differ.
pub fn cmp_interval(a: Utc, b: Utc) -> Result<Order4, UtcFault>
    ensures order { (order : Order4) → (result ≡ Ok order) ↔ ((a.kind ≡ b.kind) × IsIntervalOrder a b order) }
    ensures refused { (fault : UtcFault) → (result ≡ Err fault) ↔ RefusesUnlike a b fault }
{
    members_order(a, b)
}

// How the members lie, kinds first.
#[tactic(auto, using(crate::proofs::ComparisonLemmas::order_of_ends, crate::proofs::ComparisonLemmas::unspecified_order))]
fn members_order(a: Utc, b: Utc) -> Result<Order4, UtcFault>
    ensures operands { IfOk result (λ _. a.kind ≡ b.kind) }
    ensures ok { IfOk result (IsIntervalOrder a b) }
    ensures err { IfErr result (RefusesUnlike a b) }
{
    if !are_alike(a, b) {
        return Err(UtcFault::Kinds);
    }
    let Some(ends) = both_ends(a, b) else {
        return Ok(Order4::Indeterminate);
    };
    Ok(order_of(ends.first, ends.second))
}

/// How the time of `a` lies to that of `b`, whatever the inaccuracies. Never `Indeterminate`.
///
/// `Kinds` exactly where the kinds differ.
pub fn cmp_mid(a: Utc, b: Utc) -> Result<Order4, UtcFault>
    ensures order { (order : Order4) → (result ≡ Ok order) ↔ ((a.kind ≡ b.kind) × IsTimeOrder a b order) }
    ensures refused { (fault : UtcFault) → (result ≡ Err fault) ↔ RefusesUnlike a b fault }
{
    times_order(a, b)
}

// How the times lie, kinds first.
fn times_order(a: Utc, b: Utc) -> Result<Order4, UtcFault>
    ensures operands { IfOk result (λ _. a.kind ≡ b.kind) }
    ensures ok { IfOk result (IsTimeOrder a b) }
    ensures err { IfErr result (RefusesUnlike a b) }
{
    if !are_alike(a, b) {
        return Err(UtcFault::Kinds);
    }
    let (a, b) = (a.time(), b.time());
    if a < b {
        Ok(Order4::LessThan)
    } else if b < a {
        Ok(Order4::GreaterThan)
    } else {
        Ok(Order4::EqualTo)
    }
}

// How one interval lies to another.
fn order_of(a: Ends, b: Ends) -> Order4
    ensures { IsEndsOrder a.low a.high b.low b.high result }
{
    if a.high < b.low {
        Order4::LessThan
    } else if b.high < a.low {
        Order4::GreaterThan
    } else if a.low == a.high && b.low == b.high && a.low == b.low {
        Order4::EqualTo
    } else {
        Order4::Indeterminate
    }
}
