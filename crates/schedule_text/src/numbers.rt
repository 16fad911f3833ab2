//! Numbers, read from a field.

ghost use Rattle.std.specs.Prelude.{◌≡◌, ◌≤◌, ◌^◌, ◌∷◌, [], nat_lt, if◌then◌else◌};
ghost use Rattle.schedule_text.specs.Numbers.{number_after, number_of, value_of};

/// The number whose digits are those of `value` and then `digit`, where it is below 2^64.
fn appended(value: u64, digit: u8) -> Option<u64>
    requires { 48 ≤ digit }
    ensures { let number = number_after value (digit ∷ []) in
        result ≡ (if nat_lt number (2 ^ 64) then Some number else None) }
{
    value.checked_mul(10)?.checked_add(u64::from(digit - b'0'))
}

/// The number that `digits` write.
fn value(digits: &[u8]) -> Option<u64>
    ensures { result ≡ value_of digits.now }
{
    let mut value = 0;
    'digits: for &digit in digits {
        if !digit.is_ascii_digit() {
            return None;
        }
        value = appended(value, digit)?;
    }
    Some(value)
}

/// The number that `field` writes.
pub fn number(field: &[u8]) -> Option<u64>
    ensures { result ≡ number_of field.now }
{
    match field {
        [] | [b'0', _, ..] => None,
        digits => value(digits),
    }
}
