// Digits, as a whole number.
ghost use Rattle.std.specs.Prelude.{◌≡◌};
ghost use Rattle.rows.specs.Digits.{digits_of, digits_with};

// Digits alone, at least one, whose number fits 64 bits.
fn digits_of(l: &[u8]) -> Option<u64>
    ensures { result ≡ digits_of l.now }
{
    if l.is_empty() {
        return None;
    }
    let mut v: u64 = 0;
    for b in l {
        if !b.is_ascii_digit() {
            return None;
        }
        v = v.checked_mul(10)?.checked_add((*b - b'0') as u64)?;
    }
    Some(v)
}

// Digits, before which one plus may stand where `plus` says so; none where there is no such number.
pub fn number_of(l: &[u8], plus: bool) -> Option<u64>
    ensures { result ≡ digits_with plus l.now }
{
    match l.strip_prefix(b"+") {
        Some(digits) if plus => digits_of(digits),
        _ => digits_of(l),
    }
}
