ghost use Rattle.std.specs.Prelude.{◌≡◌, IfOk};
ghost use Rattle.roster.specs.Wrong.{path_of};
ghost use Rattle.roster.specs.Seen.{seen};

use crate::first_wrong::{Found, Section};
use dts_base::{NoMemory, Text};
use std::alloc::Global;

/// The path of a wrong key.
pub(crate) fn path(alloc: Global, found: &Found) -> Result<Text, NoMemory>
    ensures { IfOk result (λ path. path ≡ path_of (seen found.now)) }
{
    let key = found.key;
    let text = match found.within {
        Section::File => String::new(alloc),
        Section::Top => String::from_str(alloc, key)?,
        Section::Node => format!(in alloc; "node.{key}")?,
        Section::Server(i) => format!(in alloc; "server.{i}.{key}")?,
    };
    Ok(Text::from_vec(text.into_bytes()))
}
