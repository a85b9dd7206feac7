ghost use Rattle.std.specs.Prelude.{◌≡◌, ◌+◌, ◌-◌, ◌*◌, ◌/◌, ◌^◌, ◌<◌, ◌≤◌};

// m * 2^shift / d by long division, in each turn as many bits as a remainder below d has room for
fn long_quotient(m: u128, d: u128, shift: u32) -> u128
    requires positive { 0 < d }
    requires divisor { d < 2 ^ 127 }
    requires size { m * 2 ^ shift < 2 ^ 62 * d }
    ensures value { result ≡ m * 2 ^ shift / d }
    ensures range { result < 2 ^ 62 }
{
    let room = d.leading_zeros();
    let mut whole = m / d;
    let mut rest = m % d;
    let mut left = shift;
    while left > 0 {
        let bits = left.min(room);
        let next = rest << bits;
        whole = (whole << bits) + next / d;
        rest = next % d;
        left -= bits;
    }
    whole
}

// q / d^times
fn repeated_quotient(q: u128, d: u128, times: u32) -> u128
    requires { 0 < d }
    ensures { result ≡ q / d ^ times }
{
    let mut quotient = q;
    for _i in 0..times {
        quotient /= d;
    }
    quotient
}

fn power_of_five(n: u32) -> u128
    requires { n ≤ 54 }
    ensures { result ≡ 5 ^ n }
{
    5u128.pow(n)
}

// m * 2^shift / 5^places
fn quotient_by_fives(m: u64, places: u32, shift: u32) -> u128
    requires places { places ≤ 128 }
    requires sum { places + shift ≤ 156 }
    requires size { m * 2 ^ shift ≤ 2 ^ 61 * 5 ^ places }
    ensures { result ≡ m * 2 ^ shift / 5 ^ places }
{
    let direct = places.min(54);
    let first = long_quotient(u128::from(m), power_of_five(direct), shift);
    repeated_quotient(first, 5, places - direct)
}

/// m * 2^shift / 10^places, rounded down.
pub fn decimal_quotient(m: u64, places: u32, shift: u32) -> u128
    requires places { places ≤ 128 }
    requires shift { shift ≤ 156 }
    requires size { m * 2 ^ shift ≤ 2 ^ 61 * 10 ^ places }
    ensures { result ≡ m * 2 ^ shift / 10 ^ places }
{
    if places <= shift {
        quotient_by_fives(m, places, shift - places)
    } else {
        repeated_quotient(
            repeated_quotient(u128::from(m), 10, places - shift),
            5,
            shift,
        )
    }
}

/// m * 10^power * 2^shift.
pub fn decimal_product(m: u64, power: u32, shift: u32) -> u128
    requires size { m * 10 ^ power * 2 ^ shift ≤ 2 ^ 61 }
    ensures { result ≡ m * 10 ^ power * 2 ^ shift }
{
    if m == 0 {
        0
    } else {
        u128::from(m) * 10u128.pow(power) * 2u128.pow(shift)
    }
}
