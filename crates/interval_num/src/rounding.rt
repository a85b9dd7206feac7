ghost use Rattle.std.specs.Prelude.{◌≡◌, ℕ, ◌^◌, ◌≤◌, pos, ◌*ℤ◌};
ghost use Rattle.number_model.specs.Rounding.{IsWithin, floor_div, ceil_div};

fn power_of_two(s: u32) -> i128
    requires { s ≤ 60 }
    ensures { result ≡ pos (2 ^ s) }
{
    1 << s
}

/// `z * 2^t`.
pub(crate) fn raise(z: i128, t: u32) -> i128
    requires mantissa { IsWithin (2 ^ 62) z }
    requires scale { t ≤ 60 }
    ensures value { result ≡ z *ℤ pos (2 ^ t) }
    ensures range { IsWithin (2 ^ 122) result }
{
    z * power_of_two(t)
}

/// `z / 2^s`, rounded up.
pub(crate) fn ceil_shift(z: i128, s: u32) -> i128
    requires scale { s ≤ 60 }
    requires range { IsWithin (2 ^ 126) z }
    ensures { result ≡ ceil_div z (2 ^ s) }
{
    -((-z) >> s)
}

/// The mantissa `z` at the scale `2^s`, brought to the scale `2^t` and rounded down.
pub(crate) fn scale_floor(z: i128, s: u32, t: u32) -> i128
    requires mantissa { IsWithin (2 ^ 62) z }
    requires from { s ≤ 60 }
    requires to { t ≤ 60 }
    ensures { result ≡ floor_div (z *ℤ pos (2 ^ t)) (2 ^ s) }
{
    raise(z, t) >> s
}

/// The mantissa `z` at the scale `2^s`, brought to the scale `2^t` and rounded up.
pub(crate) fn scale_ceil(z: i128, s: u32, t: u32) -> i128
    requires mantissa { IsWithin (2 ^ 62) z }
    requires from { s ≤ 60 }
    requires to { t ≤ 60 }
    ensures { result ≡ ceil_div (z *ℤ pos (2 ^ t)) (2 ^ s) }
{
    ceil_shift(raise(z, t), s)
}
