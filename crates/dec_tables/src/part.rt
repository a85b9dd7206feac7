/// The parts of the derivatives of region 1 at one pressure, each a polynomial: those of the volume
/// and of the enthalpy, of y / 4 where the exponent of y is not negative, and of 1 / y where it is.
#[derive(Clone, Copy, Debug, PartialEq, Eq)]
pub enum Part {
    /// `-n I x^(I-1) 4^k` over J = k, for k up to 17, at scale 48.
    VolumeUp,
    /// `-n I x^(I-1)` over J = -k, for k from 1 to 41, at scale 40.
    VolumeDown,
    /// `n x^I J 4^k` over J - 1 = k, for k up to 16, at scale 48.
    HeatUp,
    /// `n x^I J` over J - 1 = -k, for k from 1 to 42, at scale 40.
    HeatDown,
}
