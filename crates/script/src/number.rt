// Numbers as they are written.
ghost use Rattle.std.specs.Prelude.{◌<◌, IfSome};

// In decimal digits, or behind 0x in hex.
pub(crate) fn read(word: &[u8]) -> Option<u64> {
    match word {
        [b'0', b'x', digits @ ..] => value::<16>(digits),
        _ => value::<10>(word),
    }
}

// The digits to a base, of either case; there has to be one.
fn value<const BASE: u64>(digits: &[u8]) -> Option<u64> {
    if digits.is_empty() {
        return None;
    }
    let mut value: u64 = 0;
    for c in digits {
        let digit = u64::from(digit(c.to_ascii_lowercase())?);
        if BASE <= digit {
            return None;
        }
        value = value.checked_mul(BASE)?.checked_add(digit)?;
    }
    Some(value)
}

// What a hex digit says, of a small letter.
pub(crate) fn digit(c: u8) -> Option<u8>
    ensures { IfSome result (λ n. n < 16) }
{
    match c {
        b'0'..=b'9' => Some(c - b'0'),
        b'a'..=b'f' => Some(c - b'a' + 10),
        _ => None,
    }
}
