ghost use Rattle.std.specs.Prelude.{◌≡◌, ℕ, ◌^◌, ◌≤◌, pos, ◌≤ℤ◌};
ghost use Rattle.std.specs.Int.{int_min, int_max};
ghost use Rattle.number_model.specs.Rounding.{IsWithin};
ghost use Rattle.interval_num.specs.Ends.{quotient_floor, quotient_ceil};

use crate::rounding::raise;

/// `a * 2^s / b`, rounded down.
pub(crate) fn floor_ratio(a: i128, b: i128, s: u32) -> i128
    requires num { IsWithin (2 ^ 62) a }
    requires den { pos 1 ≤ℤ b }
    requires scale { s ≤ 60 }
    ensures value { result ≡ quotient_floor s a b }
    ensures range { IsWithin (2 ^ 122) result }
{
    raise(a, s).div_euclid(b)
}

/// `a * 2^s / b`, rounded up.
pub(crate) fn ceil_ratio(a: i128, b: i128, s: u32) -> i128
    requires num { IsWithin (2 ^ 62) a }
    requires den { pos 1 ≤ℤ b }
    requires scale { s ≤ 60 }
    ensures { result ≡ quotient_ceil s a b }
{
    -floor_ratio(-a, b, s)
}

/// The lesser of `a * 2^s / m` and `a * 2^s / k`, rounded down, for `m <= k`.
pub(crate) fn least_ratio(a: i128, m: i128, k: i128, s: u32) -> i128
    requires num { IsWithin (2 ^ 62) a }
    requires den { pos 1 ≤ℤ m }
    requires ordered { m ≤ℤ k }
    requires scale { s ≤ 60 }
    ensures value { result ≡ int_min (quotient_floor s a m) (quotient_floor s a k) }
    ensures range { IsWithin (2 ^ 122) result }
{
    if a < 0 {
        floor_ratio(a, m, s)
    } else {
        floor_ratio(a, k, s)
    }
}

/// The greater of `a * 2^s / m` and `a * 2^s / k`, rounded up, for `m <= k`.
pub(crate) fn greatest_ratio(a: i128, m: i128, k: i128, s: u32) -> i128
    requires num { IsWithin (2 ^ 62) a }
    requires den { pos 1 ≤ℤ m }
    requires ordered { m ≤ℤ k }
    requires scale { s ≤ 60 }
    ensures { result ≡ int_max (quotient_ceil s a m) (quotient_ceil s a k) }
{
    -least_ratio(-a, m, k, s)
}
