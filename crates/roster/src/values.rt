//! What a value is, and what is wrong with it.

ghost use Rattle.std.specs.Prelude.{◌≡◌, ◌&&◌, pos, int_le};
ghost use Rattle.std.specs.List.{list_all};
ghost use Rattle.toml.specs.View.{view};
ghost use Rattle.roster.specs.Values.{is_name, is_name_octet, role_of, kind_of, fault_of, judged};

use crate::addresses::address;
use crate::keys::Right;
use crate::{MAX_NAME, Role, RosterCause, ServerKind};
use toml::Value;

/// Whether a text is a name.
fn is_name(text: &str) -> bool
    ensures { result ≡ is_name text.now }
{
    1 <= text.len() && text.len() <= MAX_NAME && has_name_octets(text.as_bytes())
}

/// Whether each octet is one of a name.
fn has_name_octets(octets: &[u8]) -> bool
    ensures { result ≡ list_all is_name_octet octets.now }
{
    octets.iter().all(|c| c.is_ascii_lowercase() || c.is_ascii_digit() || *c == b'-')
}

/// The role that a text names.
pub(crate) fn role(text: &str) -> Option<Role>
    ensures { result ≡ role_of text.now }
{
    match text {
        "clerk" => Some(Role::Clerk),
        "server" => Some(Role::Server),
        _ => None,
    }
}

/// The kind of server that a text names.
pub(crate) fn server_kind(text: &str) -> Option<ServerKind>
    ensures { result ≡ kind_of text.now }
{
    match text {
        "local" => Some(ServerKind::Local),
        "global" => Some(ServerKind::Global),
        "ntp" => Some(ServerKind::Ntp),
        _ => None,
    }
}

/// What is wrong with a value, where something is.
pub(crate) fn fault(right: Right, value: &Value) -> Option<RosterCause>
    ensures { result ≡ fault_of right (view value.now) }
{
    match right {
        Right::Name => judge(value.as_str().map(|text| is_name(text))),
        Right::Role => judge(value.as_str().map(|text| role(text).is_some())),
        Right::ServerKind => judge(value.as_str().map(|text| server_kind(text).is_some())),
        Right::Address(greatest) => judge(
            value.as_str().map(|text| address(text, greatest).is_some()),
        ),
        Right::Flag => judge(value.as_bool().map(|_| true)),
        Right::Number(least, greatest) => judge(
            value.as_integer().map(|n| within(n, least, greatest)),
        ),
    }
}

/// A value of another kind, one out of its range, or nothing that is wrong.
fn judge(right: Option<bool>) -> Option<RosterCause>
    ensures { result ≡ judged right (λ b. b) }
{
    match right {
        None => Some(RosterCause::Kind),
        Some(false) => Some(RosterCause::Range),
        Some(true) => None,
    }
}

// Whether an integer is from the one to the other, both included.
fn within(n: i64, least: u64, greatest: u64) -> bool
    ensures { result ≡ (int_le (pos least) n && int_le n (pos greatest)) }
{
    let n = i128::from(n);
    i128::from(least) <= n && n <= i128::from(greatest)
}
