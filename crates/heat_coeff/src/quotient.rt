ghost use Rattle.std.specs.Prelude.{◌≡◌, ◌*◌, ◌^◌, ◌≤◌, unsigned_abs, pos, neg_ℤ, ◌*ℤ◌, ◌≤ℤ◌};
ghost use Rattle.number_model.specs.Rounding.{IsWithin};
ghost use Rattle.heat_coeff.specs.Quotients.{least_floor, greatest_ceil};

use interval_num::Enc;

/// The lesser of `n / least` and `n / most`, rounded down.
fn floor_quotient(n: i128, least: i128, most: i128) -> i128
    requires num { IsWithin (2 ^ 120) n }
    requires positive { pos 1 ≤ℤ least }
    requires ordered { least ≤ℤ most }
    ensures value { result ≡ least_floor n (unsigned_abs least) (unsigned_abs most) }
    ensures range { IsWithin (2 ^ 120) result }
{
    if n < 0 {
        n.div_euclid(least)
    } else {
        n.div_euclid(most)
    }
}

/// The greater of `n / least` and `n / most`, rounded up.
fn ceil_quotient(n: i128, least: i128, most: i128) -> i128
    requires num { IsWithin (2 ^ 120) n }
    requires positive { pos 1 ≤ℤ least }
    requires ordered { least ≤ℤ most }
    ensures { result ≡ greatest_ceil n (unsigned_abs least) (unsigned_abs most) }
{
    -floor_quotient(-n, least, most)
}

/// Whole numbers below and above a quotient.
#[derive(Clone, Copy)]
pub(crate) struct Ends {
    pub(crate) lo: i128,
    pub(crate) hi: i128,
}

/// `k d / (m v)` for all mantissas d of `given` and v of `volume`, rounded outwards.
pub(crate) fn quotient_ends(given: Enc<48>, volume: Enc<56>, k: u64, m: u32) -> Ends
    requires low { neg_ℤ (pos (1200 * 2 ^ 48)) ≤ℤ given.lo }
    requires high { given.hi ≤ℤ pos (1200 * 2 ^ 48) }
    requires positive { pos 1 ≤ℤ volume.lo }
    requires factor { k ≤ 256000000000000 }
    requires divisor { 1 ≤ m }
    ensures lo { result.lo ≡ least_floor (given.lo *ℤ pos k)
        (unsigned_abs volume.lo * m) (unsigned_abs volume.hi * m) }
    ensures hi { result.hi ≡ greatest_ceil (given.hi *ℤ pos k)
        (unsigned_abs volume.lo * m) (unsigned_abs volume.hi * m) }
{
    let least = volume.lo * m as i128;
    let most = volume.hi * m as i128;
    Ends {
        lo: floor_quotient(given.lo * k as i128, least, most),
        hi: ceil_quotient(given.hi * k as i128, least, most),
    }
}
