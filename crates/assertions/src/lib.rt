//! Assertions of tests. A failure is told with its place in the test, and with the values on standard error. What is told
//! is made here and not in the test, so that a test is proved much faster than with `assert_eq!`.
#![tactic(auto)]

ghost use Rattle.std.specs.Prelude.{◌≡◌};

use std::fmt::Debug;
use std::io::Eprint;

/// Whether a value is the wanted one. If not, both are told on standard error.
pub fn is_equal<T: PartialEq + Debug + Drop>(rt: &impl Eprint, got: T, wanted: T) -> bool
    ensures answer { result ≡ T.eq got wanted }
{
    if got == wanted {
        return true;
    }
    let _ = eprintln!(rt; "got {got:?}, and not {wanted:?}");
    false
}

/// The same at a row of a table, or in a case, which is told too.
pub fn is_equal_at<R: Debug, T: PartialEq + Debug + Drop>(
    rt: &impl Eprint,
    row: &R,
    got: T,
    wanted: T,
) -> bool
    ensures answer { result ≡ T.eq got wanted }
{
    is_true_at(rt, row, is_equal(rt, got, wanted))
}

/// Whether something holds. If not, the row of the table, or the case, is told on standard error.
pub fn is_true_at<R: Debug>(rt: &impl Eprint, row: &R, holds: bool) -> bool
    ensures answer { result ≡ holds }
{
    if !holds {
        let _ = eprintln!(rt; "at {row:?}");
    }
    holds
}

/// A value is the wanted one.
#[macro_export]
macro_rules! assert_equal {
    ($rt:expr; $got:expr, $wanted:expr $(,)?) => {
        assert!($rt; $crate::is_equal(&$rt, $got, $wanted))
    };
}

/// A value is the wanted one at this row of a table, or in this case.
#[macro_export]
macro_rules! assert_equal_at {
    ($rt:expr; $row:expr, $got:expr, $wanted:expr $(,)?) => {
        assert!($rt; $crate::is_equal_at(&$rt, &$row, $got, $wanted))
    };
}

/// Something holds at this row of a table, or in this case.
#[macro_export]
macro_rules! assert_at {
    ($rt:expr; $row:expr, $holds:expr $(,)?) => {
        assert!($rt; $crate::is_true_at(&$rt, &$row, $holds))
    };
}
