//! The digits of a number, stored in place from the left: one or two first, and two at a time behind them.
ghost use Rattle.std.specs.Prelude.{◌≡◌, ◌+◌, ◌<◌, ◌≤◌, ◌∷◌, ◌++◌, length, take, decimal};
ghost use Rattle.std.specs.Fmt.{signed_decimal};
ghost use Rattle.inp_texts.specs.Digits.{two_digits, four_digits};

// The two digits of each number below 100.
static PAIRS: [u8; 200] =
    *b"00010203040506070809101112131415161718192021222324252627282930313233343536373839404142434445464748495051525354555657585960616263646566676869707172737475767778798081828384858687888990919293949596979899";

// Stores a number in decimal, behind `-` where it is negative, without leading zeros, and gives the place behind it.
#[inline(always)]
pub(crate) fn store_signed(bytes: &mut [u8], at: usize, number: i32) -> usize
    requires room { at + length (signed_decimal number) ≤ length bytes.old }
    ensures end { result ≡ at + length (signed_decimal number) }
    ensures stored { take result bytes.new ≡ take at bytes.old ++ signed_decimal number }
{
    if number < 0 {
        return store_negative(bytes, at, number.unsigned_abs());
    }
    store_natural(bytes, at, u64::from(number.unsigned_abs()))
}

// Stores a number, mostly one of one digit.
#[inline(always)]
fn store_natural(bytes: &mut [u8], at: usize, number: u64) -> usize
    requires room { at + length (decimal number) ≤ length bytes.old }
    ensures end { result ≡ at + length (decimal number) }
    ensures stored { take result bytes.new ≡ take at bytes.old ++ decimal number }
{
    if number < 10 {
        bytes[at] = b'0' + number as u8;
        return at + 1;
    }
    store_number(bytes, at, number)
}

#[inline(never)]
fn store_negative(bytes: &mut [u8], at: usize, number: u32) -> usize
    requires room { at + 1 + length (decimal number) ≤ length bytes.old }
    ensures end { result ≡ at + 1 + length (decimal number) }
    ensures stored { take result bytes.new ≡ take at bytes.old ++ (45 ∷ decimal number) }
{
    bytes[at] = b'-';
    store_number(bytes, at + 1, u64::from(number))
}

// Stores a number in decimal, without leading zeros, and gives the place behind it.
#[inline]
pub(crate) fn store_number(bytes: &mut [u8], at: usize, number: u64) -> usize
    requires room { at + length (decimal number) ≤ length bytes.old }
    ensures end { result ≡ at + length (decimal number) }
    ensures stored { take result bytes.new ≡ take at bytes.old ++ decimal number }
{
    if number < 10_000 {
        return store_short(bytes, at, number);
    }
    let next = store_front(bytes, at, number / 10_000);
    store_four(bytes, next, number % 10_000);
    next + 4
}

// Stores what stands before the last four digits of a number.
#[inline(always)]
fn store_front(bytes: &mut [u8], at: usize, number: u64) -> usize
    requires room { at + length (decimal number) ≤ length bytes.old }
    ensures end { result ≡ at + length (decimal number) }
    ensures stored { take result bytes.new ≡ take at bytes.old ++ decimal number }
{
    if number < 10_000 {
        return store_short(bytes, at, number);
    }
    store_long(bytes, at, number)
}

// Stores a number, mostly one of five digits or more.
#[inline(never)]
fn store_long(bytes: &mut [u8], at: usize, number: u64) -> usize
    requires room { at + length (decimal number) ≤ length bytes.old }
    ensures end { result ≡ at + length (decimal number) }
    ensures stored { take result bytes.new ≡ take at bytes.old ++ decimal number }
{
    if number < 10_000 {
        return store_short(bytes, at, number);
    }
    let next = store_long(bytes, at, number / 10_000);
    store_four(bytes, next, number % 10_000);
    next + 4
}

// Stores a number of at most four digits.
#[inline(always)]
fn store_short(bytes: &mut [u8], at: usize, number: u64) -> usize
    requires short { number < 10000 }
    requires room { at + length (decimal number) ≤ length bytes.old }
    ensures end { result ≡ at + length (decimal number) }
    ensures stored { take result bytes.new ≡ take at bytes.old ++ decimal number }
{
    if number < 100 {
        return store_first(bytes, at, number);
    }
    let next = store_first(bytes, at, number / 100);
    store_two(bytes, next, number % 100);
    next + 2
}

// Stores a number of at most two digits.
#[inline(always)]
fn store_first(bytes: &mut [u8], at: usize, number: u64) -> usize
    requires short { number < 100 }
    requires room { at + length (decimal number) ≤ length bytes.old }
    ensures end { result ≡ at + length (decimal number) }
    ensures stored { take result bytes.new ≡ take at bytes.old ++ decimal number }
{
    if number < 10 {
        bytes[at] = b'0' + number as u8;
        return at + 1;
    }
    store_two(bytes, at, number);
    at + 2
}

// Stores four digits, zeros in front too.
#[inline(always)]
fn store_four(bytes: &mut [u8], at: usize, number: u64)
    requires short { number < 10000 }
    requires room { at + 4 ≤ length bytes.old }
    ensures stored { take (at + 4) bytes.new ≡ take at bytes.old ++ four_digits number }
{
    store_two(bytes, at, number / 100);
    store_two(bytes, at + 2, number % 100);
}

// Stores two digits, a zero in front too.
#[inline(always)]
fn store_two(bytes: &mut [u8], at: usize, number: u64)
    requires short { number < 100 }
    requires room { at + 2 ≤ length bytes.old }
    ensures stored { take (at + 2) bytes.new ≡ take at bytes.old ++ two_digits number }
{
    let pair = number as usize * 2;
    let (tens, ones) = (PAIRS[pair], PAIRS[pair + 1]);
    bytes[at] = tens;
    bytes[at + 1] = ones;
}
