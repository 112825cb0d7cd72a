ghost use Rattle.std.specs.Prelude.{◌≡◌, ◌≢◌, ◌^◌, ◌<◌, ◌∷◌, ◌++◌, ℕ, List, MatchOption, IsTrue, ◌↔◌, decimal};
ghost use Rattle.dts_base.specs.Cutting.{IsMark, IsPlain};

// The greatest number of an octet, and the greatest port.
const MAX_OCTET: u64 = 255;

const MAX_PORT: u64 = 65535;

/// An IPv4 address and a port.
#[derive(Clone, Copy, Debug, PartialEq, Eq)]
pub struct Address {
    /// The four octets, the first one first.
    pub ip: [u8; 4],
    /// The port.
    pub port: u16,
}

impl Address {
    ghost use Rattle.dts_base.specs.Addresses.{Spells};

    /// The address that a text is: four numbers 0 to 255 joined by points, a colon, and a port of 1 to
    /// 65535, all in decimal without leading zeros. Of any other text there is none.
    pub fn parse(text: &str) -> Option<Address>
        ensures spelled { MatchOption result ((a : Address) → Spells text.now a → ⊥) (Spells text.now) }
    {
        let (first, rest) = octet_before(text, '.')?;
        let (second, rest) = octet_before(rest, '.')?;
        let (third, rest) = octet_before(rest, '.')?;
        let (fourth, rest) = octet_before(rest, ':')?;
        let port = port(rest)?;
        Some(Address {
            ip: [first, second, third, fourth],
            port,
        })
    }
}

// The number of 0 to 255 before the first mark, and what follows the mark.
fn octet_before(text: &str, mark: char) -> Option<(u8, &str)>
    requires { IsMark mark }
    ensures { MatchOption result ((n : ℕ) (rest : List ℕ) → n < 256 → text.now ≢ decimal n ++ mark ∷ rest) (λ r. (text.now ≡ decimal r.0 ++ mark ∷ r.1.now) × (r.0 < 256)) }
{
    let (number, rest) = text.split_once(mark)?;
    let number = plain_number(number)?;
    if number > MAX_OCTET {
        return None;
    }
    Some((number as u8, rest))
}

// The port that the whole text is.
fn port(text: &str) -> Option<u16>
    ensures { MatchOption result ((n : ℕ) → 0 < n → n < 65536 → text.now ≢ decimal n) (λ n. (text.now ≡ decimal n) × (0 < n)) }
{
    let number = plain_number(text)?;
    if number == 0 || number > MAX_PORT {
        return None;
    }
    Some(number as u16)
}

// The number of 64 bits that the whole text is, without a sign and without leading zeros.
fn plain_number(text: &str) -> Option<u64>
    ensures { MatchOption result ((n : ℕ) → n < 2 ^ 64 → text.now ≢ decimal n) (λ n. text.now ≡ decimal n) }
{
    if !is_plain(text.as_bytes()) {
        return None;
    }
    text.parse().ok()
}

// The text has neither a plus nor a leading zero.
fn is_plain(text: &[u8]) -> bool
    ensures { IsTrue result ↔ IsPlain text.now }
{
    match text {
        [b'+', ..] | [b'0', _, ..] => false,
        _ => true,
    }
}
