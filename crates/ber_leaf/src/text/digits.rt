//! Decimal digits of ASCII.

ghost use Rattle.std.specs.Prelude.{◌≡◌, ◌≤◌, IsTrue};
ghost use Rattle.std.specs.List.{list_all};
ghost use Rattle.ber_leaf.specs.Leaf.{is_digit, two_digits};

/// Tells whether each octet is a digit.
pub fn are_digits(octets: &[u8]) -> bool
    ensures { result ≡ list_all is_digit octets.now }
{
    octets.iter().all(u8::is_ascii_digit)
}

/// The number that two digits spell.
pub fn pair(tens: u8, units: u8) -> u8
    requires tens { IsTrue (is_digit tens) }
    requires units { IsTrue (is_digit units) }
    ensures value { result ≡ two_digits tens units }
    ensures small { result ≤ 99 }
{
    10 * (tens - b'0') + (units - b'0')
}
