ghost use Rattle.std.specs.Prelude.{◌≡◌};
ghost use Rattle.roster.specs.Values.{address_up_to};

use dts_base::Address;

/// The address that a text spells, where its port is at most this.
pub(crate) fn address(text: &str, greatest_port: u16) -> Option<Address>
    ensures { result ≡ address_up_to greatest_port text.now }
{
    let address = Address::parse(text)?;
    if address.port > greatest_port {
        return None;
    }
    Some(address)
}
