ghost use Rattle.std.specs.Prelude.{◌≡◌, ◌+◌, ◌-◌, ◌*◌, ◌/◌, ◌^◌, ◌≤◌};

/// `l^n / 2^(s * (n - 1))`, rounded down, at most `n - 1` too low: each product of two powers adds
/// their errors and one.
pub(crate) fn power_floor(l: u128, n: u32, s: u32) -> u128
    requires scale { s ≤ 60 }
    requires base { l ≤ 2 ^ s }
    requires exponent { 1 ≤ n }
    ensures range { result ≤ 2 ^ s }
    ensures below { result * (2 ^ s) ^ n ≤ l ^ n * 2 ^ s }
    ensures above { l ^ n * 2 ^ s ≤ (result + (n - 1)) * (2 ^ s) ^ n }
{
    if n == 1 {
        return l;
    }
    let half = power_floor(l, n / 2, s);
    let square = floor_product(half, half, s);
    if n % 2 == 0 {
        square
    } else {
        floor_product(square, l, s)
    }
}

fn floor_product(a: u128, b: u128, s: u32) -> u128
    requires scale { s ≤ 60 }
    requires left { a ≤ 2 ^ s }
    requires right { b ≤ 2 ^ s }
    ensures { result ≡ a * b / 2 ^ s }
{
    (a * b) >> s
}

/// `l^n / 2^(s * (n - 1))`, rounded up, at most `n - 1` too high.
pub(crate) fn power_ceil(l: u128, n: u32, s: u32) -> u128
    requires scale { s ≤ 60 }
    requires base { l ≤ 2 ^ s }
    requires exponent { 1 ≤ n }
    ensures range { result ≤ 2 ^ s }
    ensures above { l ^ n * 2 ^ s ≤ result * (2 ^ s) ^ n }
    ensures below { result * (2 ^ s) ^ n ≤ l ^ n * 2 ^ s + (n - 1) * (2 ^ s) ^ n }
{
    if n == 1 {
        return l;
    }
    let half = power_ceil(l, n / 2, s);
    let square = ceil_product(half, half, s);
    if n % 2 == 0 {
        square
    } else {
        ceil_product(square, l, s)
    }
}

fn ceil_product(a: u128, b: u128, s: u32) -> u128
    requires scale { s ≤ 60 }
    requires left { a ≤ 2 ^ s }
    requires right { b ≤ 2 ^ s }
    ensures { result ≡ (a * b + (2 ^ s - 1)) / 2 ^ s }
{
    (a * b + ((1 << s) - 1)) >> s
}
