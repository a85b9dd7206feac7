use dec_tables::Poly;

/// The sums of region 1 at one pressure as polynomials of the temperature. With x = 7.1 - p / 16530 and
/// y = 1386 / T - 1.222, the volume has the sum of `-n I x^(I-1) y^J`, and the enthalpy that of
/// `n J x^I y^(J-1)`.
#[derive(Clone, Copy)]
pub struct Polys {
    /// The volume's terms with J from 0 on, of y / 4.
    pub volume_up: Poly<18, 48>,
    /// The volume's other terms, of 1 / y.
    pub volume_down: Poly<42, 40>,
    /// The enthalpy's terms with J from 1 on, of y / 4.
    pub heat_up: Poly<17, 48>,
    /// The enthalpy's other terms, of 1 / y.
    pub heat_down: Poly<43, 40>,
}
