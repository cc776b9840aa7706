// Texts as bytes, for all that is read or written as text: characters, decimal digits.
#![tactic(auto)]

ghost use Rattle.std.specs.Prelude.{◌≡◌, ◌-◌, ◌≤◌, ◌<◌};

// The value of a digit.
pub fn digit_value(c: u8) -> u64
    requires { (48 ≤ c) × (c ≤ 57) }
    ensures { (result ≡ c - 48) × (result < 10) }
{
    u64::from(c - b'0')
}
