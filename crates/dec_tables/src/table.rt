ghost use Rattle.std.specs.Prelude.{◌≡◌, ◌<◌, ◌≤◌, slice_get, Some};

/// The coefficient `mantissa * 10^exp10` with the exponents I and J of its term.
#[derive(Clone, Copy, Debug, PartialEq, Eq)]
pub struct Term {
    pub i: u8,
    pub j: i8,
    pub mantissa: i64,
    pub exp10: i8,
}

/// N terms, at most 64.
#[derive(Clone, Copy)]
pub struct Table<const N: usize> {
    pub terms: [Term; N],
    pub ghost few: { N ≤ 64 },
}

impl<const N: usize> Table<N> {
    /// The term at index `k`.
    pub fn term(&self, k: usize) -> Term
        requires { k < N }
        ensures { slice_get self.now.terms k ≡ Some result }
    {
        self.terms[k]
    }
}
