//! Words that are numbers.
ghost use Rattle.std.specs.Prelude.{◌≡◌, ◌≤◌, true, IfSome, length};
ghost use Rattle.std.specs.Bool.{OnTrue};
ghost use Rattle.inp_texts.specs.Number.{digit_of, value_of, is_numeral, is_hexadecimal, numeral, number, signed_number};

/// What a digit of base 16 is worth, and 16 for any other byte.
#[inline(always)]
fn digit_of(byte: u8) -> u8
    ensures value { result ≡ digit_of byte }
    ensures small { result ≤ 16 }
{
    match byte {
        b'0'..=b'9' => byte - b'0',
        b'a'..=b'f' => byte - b'a' + 10,
        b'A'..=b'F' => byte - b'A' + 10,
        _ => 16,
    }
}

/// The number that these digits are, unless one of them is no digit of the base or the number is above `most`.
fn numeral(base: u8, digits: &[u8], most: u64) -> Option<u64>
    requires base { (1 ≤ base) × (base ≤ 16) }
    ensures value { result ≡ numeral base most digits.now }
    ensures bound { IfSome result (λ value. value ≤ most) }
{
    if digits.is_empty() {
        return None;
    }
    let mut value: u64 = 0;
    for byte in digits {
        let digit = digit_of(*byte);
        if digit >= base {
            return None;
        }
        value = value.checked_mul(u64::from(base))?;
        value = value.checked_add(u64::from(digit))?;
    }
    if value <= most { Some(value) } else { None }
}

/// So many decimal digits have room in 64 bits, whichever they are.
const ROOMY: usize = 19;

const _: () = prove!(9_999_999_999_999_999_999 < u64::MAX);

/// The value of decimal digits, unless there is none, or there are more than have room in any case.
#[inline(always)]
fn decimal(digits: &[u8]) -> Option<u64>
    ensures digits { IfSome result (λ value. is_numeral 10 digits.now ≡ true) }
    ensures value { IfSome result (λ value. value ≡ value_of 10 digits.now) }
{
    if digits.is_empty() || digits.len() > ROOMY {
        return None;
    }
    let mut value: u64 = 0;
    for byte in digits {
        let digit = byte.wrapping_sub(b'0');
        if digit > 9 {
            return None;
        }
        value = value * 10 + u64::from(digit);
    }
    Some(value)
}

/// Whether a word begins with `0x`.
fn is_hexadecimal(word: &[u8]) -> bool
    ensures prefix { result ≡ is_hexadecimal word.now }
    ensures room { OnTrue result (2 ≤ length word.now) }
{
    word.starts_with(b"0x")
}

/// The number that a word is, read the long way, in either base.
#[cold]
#[inline(never)]
#[tactic(auto, unfolding(crate::specs::Number::number))]
fn any_number(word: &[u8], most: u64) -> Option<u64>
    ensures value { result ≡ number most word.now }
    ensures bound { IfSome result (λ value. value ≤ most) }
{
    if is_hexadecimal(word) {
        numeral(16, &word[2..], most)
    } else {
        numeral(10, word, most)
    }
}

/// The number that a word is, if it is at most `most`: decimal digits, or `0x` and hexadecimal digits of either case.
/// There may be leading zeros, and there is no sign (this project's choice).
#[inline]
pub fn number(word: &[u8], most: u64) -> Option<u64>
    ensures value { result ≡ number most word.now }
    ensures bound { IfSome result (λ value. value ≤ most) }
{
    match decimal(word) {
        Some(value) if value <= most => Some(value),
        Some(_) => None,
        None => any_number(word, most),
    }
}

/// The number of 32 bits that a word is, behind a minus or none (this project's choice).
#[inline(always)]
pub fn signed_number(word: &[u8]) -> Option<i32>
    ensures value { result ≡ signed_number word.now }
{
    match word {
        [b'-', digits @ ..] => {
            let below = number(digits, 2_147_483_648)?;
            Some((-(below as i64)) as i32)
        }
        digits => {
            let above = number(digits, 2_147_483_647)?;
            Some(above as i32)
        }
    }
}
