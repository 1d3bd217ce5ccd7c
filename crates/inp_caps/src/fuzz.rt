//! How far an axis moves.
ghost use Rattle.std.specs.Prelude.{◌≡◌, pos, negsuc, ◌≤ℤ◌, ◌+ℤ◌, ◌*ℤ◌, int_div};
ghost use Rattle.inp_model.specs.Defuzz.{defuzz, is_within};

/// The value that an axis takes in place of `value`, where it has the value `old` and this fuzz (the kernel's
/// `input_defuzz_abs_event`).
///
/// Within half the fuzz of `old` it stays. Within the fuzz it goes a quarter of the way to `value`, within twice the
/// fuzz half of the way, and else the whole way. The ends are left out, and division truncates toward zero. Sums are of
/// 64 bits (this project's choice: the kernel's wrap at 32 bits), so nothing overflows for any three numbers.
pub fn defuzz(value: i32, old: i32, fuzz: i32) -> i32
    ensures value { result ≡ defuzz value old fuzz }
{
    if fuzz == 0 {
        return value;
    }
    let fuzz = i64::from(fuzz);
    if is_within(fuzz / 2, old, value) {
        return old;
    }
    if is_within(fuzz, old, value) {
        return quarter_way(old, value);
    }
    if is_within(2 * fuzz, old, value) {
        return half_way(old, value);
    }
    value
}

// Whether the value lies within the distance of the old one, the ends left out.
fn is_within(distance: i64, old: i32, value: i32) -> bool
    requires low { negsuc 4294967295 ≤ℤ distance }
    requires high { distance ≤ℤ pos 4294967296 }
    ensures { result ≡ is_within distance old value }
{
    let old = i64::from(old);
    let value = i64::from(value);
    old - distance < value && value < old + distance
}

fn quarter_way(old: i32, value: i32) -> i32
    ensures { result ≡ int_div (pos 3 *ℤ old +ℤ value) (pos 4) }
{
    quarter(3 * i64::from(old) + i64::from(value))
}

fn quarter(sum: i64) -> i32
    requires low { negsuc 8589934591 ≤ℤ sum }
    requires high { sum ≤ℤ pos 8589934588 }
    ensures { result ≡ int_div sum (pos 4) }
{
    (sum / 4) as i32
}

fn half_way(old: i32, value: i32) -> i32
    ensures { result ≡ int_div (old +ℤ value) (pos 2) }
{
    ((i64::from(old) + i64::from(value)) / 2) as i32
}
