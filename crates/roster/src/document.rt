//! Look-ups in the document that `toml` gives.

ghost use Rattle.std.specs.Prelude.{◌≡◌, option_map, option_copied};
ghost use Rattle.toml.specs.View.{view, table_view};
ghost use Rattle.toml.specs.Data.{get, get_member};
ghost use Rattle.roster.specs.Wrong.{servers_in, text_at, has_text};

use toml::{Table, Value};

/// The key of the node's table.
pub(crate) const NODE: &str = "node";

/// The key of the array of servers.
pub(crate) const SERVER: &str = "server";

/// What a key of a table holds.
pub(crate) fn member<'a>(table: &'a Table, key: &str) -> Option<&'a Value>
    ensures { option_map (λ v. view v.now) result ≡ get_member key.now (table_view table.now) }
{
    table.get(key)
}

/// The string at a key of a value that is a table.
pub(crate) fn text_at<'a>(value: &'a Value, key: &str) -> Option<&'a str>
    ensures { option_copied result ≡ text_at key.now (view value.now) }
{
    let table = value.as_table()?;
    member(table, key)?.as_str()
}

/// Whether a key of a value that is a table holds this string.
pub(crate) fn has_text(value: &Value, key: &str, text: &str) -> bool
    ensures { result ≡ has_text key.now text.now (view value.now) }
{
    match text_at(value, key) {
        Some(found) => text == found,
        None => false,
    }
}
