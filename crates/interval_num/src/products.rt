ghost use Rattle.std.specs.Prelude.{◌≡◌, ℕ, ◌^◌, ◌≤◌};
ghost use Rattle.number_model.specs.Rounding.{floor_div, ceil_div};
ghost use Rattle.interval_num.specs.Ends.{ProductsWithin, least_of, greatest_of, least_product, greatest_product};

use crate::rounding::ceil_shift;

/// The least product of an end of `l` to `h` and one of `m` to `k`, over `2^s`, rounded down.
pub(crate) fn product_floor(l: i128, h: i128, m: i128, k: i128, s: u32) -> i128
    requires range { ProductsWithin (2 ^ 126) l h m k }
    requires scale { s ≤ 60 }
    ensures { result ≡ floor_div (least_product l h m k) (2 ^ s) }
{
    least(l * m, h * m, l * k, h * k) >> s
}

/// The greatest product of an end of `l` to `h` and one of `m` to `k`, over `2^s`, rounded up.
pub(crate) fn product_ceil(l: i128, h: i128, m: i128, k: i128, s: u32) -> i128
    requires range { ProductsWithin (2 ^ 126) l h m k }
    requires scale { s ≤ 60 }
    ensures { result ≡ ceil_div (greatest_product l h m k) (2 ^ s) }
{
    ceil_shift(greatest(l * m, h * m, l * k, h * k), s)
}

fn least(a: i128, b: i128, c: i128, d: i128) -> i128
    ensures { result ≡ least_of a b c d }
{
    a.min(b).min(c.min(d))
}

fn greatest(a: i128, b: i128, c: i128, d: i128) -> i128
    ensures { result ≡ greatest_of a b c d }
{
    a.max(b).max(c.max(d))
}
