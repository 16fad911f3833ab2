//! Reads a lifetime such as `1h30m` into seconds, in the time format of sshd_config(5).

ghost use Rattle.std.specs.Prelude.{◌≡◌, ◌∷◌, List, ℕ, MatchOption, None};
ghost use Rattle.world_ports.specs.Life.{in_range, life_of, unit_of};
ghost use Rattle.world_ports.specs.LifeParts.{sum_from};

/// Reads a lifetime in seconds: parts of digits, each with a unit behind it, `s`, `m`, `h`, `d` or
/// `w` in either case, which only the last part may leave out for seconds. The parts are added.
///
/// `None` for any other text, the empty one among them, and for more than 2^32 - 1 seconds.
pub fn read_life(text: &[u8]) -> Option<u32>
    ensures { result ≡ life_of text.now }
{
    if text.is_empty() {
        return None;
    }
    let mut total = 0;
    let mut number = None;
    'bytes: for byte in text {
        (total, number) = next(total, number, *byte)?;
    }
    total.checked_add(number.unwrap_or(0))
}

// The sum of the parts and the number of the begun part, one byte later.
fn next(total: u32, number: Option<u32>, byte: u8) -> Option<(u32, Option<u32>)>
    ensures { MatchOption result
        ((text : List ℕ) → sum_from total number (byte ∷ text) ≡ None)
        (λ r. (text : List ℕ) → sum_from r.0 r.1 text ≡ sum_from total number (byte ∷ text)) }
{
    if byte.is_ascii_digit() {
        let more = u64::from(number.unwrap_or(0)) * 10 + u64::from(byte - b'0');
        let Some(more) = short(more) else {
            return None;
        };
        return Some((total, Some(more)));
    }
    let seconds = u64::from(number?) * u64::from(unit(byte)?);
    Some((short(u64::from(total) + seconds)?, None))
}

fn short(seconds: u64) -> Option<u32>
    ensures { result ≡ in_range seconds }
{
    if seconds > u64::from(u32::MAX) {
        return None;
    }
    Some(seconds as u32)
}

// The seconds of a unit.
fn unit(letter: u8) -> Option<u32>
    ensures { result ≡ unit_of letter }
{
    match letter.to_ascii_lowercase() {
        b's' => Some(1),
        b'm' => Some(60),
        b'h' => Some(3600),
        b'd' => Some(86_400),
        b'w' => Some(604_800),
        _ => None,
    }
}
