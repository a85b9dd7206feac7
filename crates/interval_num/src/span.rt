ghost use Rattle.std.specs.Prelude.{◌≤◌};
ghost use Rattle.number_model.specs.Enclosure.{max_ndeg};

/// All temperatures from `lo` to `hi`, in nanodegrees Celsius, 0 to 180 °C.
#[derive(Clone, Copy, Debug, PartialEq, Eq)]
pub struct Span {
    pub lo: u64,
    pub hi: u64,
    pub ghost ordered: { lo ≤ hi },
    pub ghost in_range: { hi ≤ max_ndeg },
}
