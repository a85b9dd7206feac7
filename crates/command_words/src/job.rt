//! The commands of the program.
use meter_parts::{Place, Sensor};
use thiserror::Error;

/// A command.
#[derive(Clone, Copy, Debug, PartialEq, Eq)]
pub enum Job {
    /// `init`: let an unformatted memory hold the configuration that the source tells.
    Init,
    /// `run`: meter the events of a script over the memory.
    Run,
    /// `dry`: meter the events of a script without a memory.
    Dry,
    /// `show`: put what the memory holds.
    Show,
    /// `slots`: put what stands in both slots of the memory, whichever of them holds the record in force.
    Slots,
    /// A command that is answered by one line.
    Ask(Query),
    /// `cert P`: a range of the slope of the enthalpy of water for each degree from 0 to 180 °C, at `p_kpa` kPa, 1,100
    /// to 4,000.
    Cert { p_kpa: u32 },
    /// `read mbus`: put what the telegram that the source tells says.
    ReadMbus,
    /// `read optical`: put what the data message that the source tells says.
    ReadOptical,
}

/// A command that is answered by one line. It reads nothing, and makes no call on the memory.
#[derive(Clone, Copy, Debug, PartialEq, Eq)]
pub enum Query {
    /// `temp R0 R`: the whole temperature that a sample stands for.
    Temp(Sample),
    /// `water P T`: the specific volume and enthalpy of water.
    Water(WaterState),
    /// `k PLACE P TF TR`: the heat coefficient of water.
    Coef(HeatCoefficient),
    /// `bench calc SENSOR PLACE P DMIN RF RR LITRES ENERGY`: the verdict on a calculator.
    BenchCalc(CalculatorTest),
    /// `bench pair SENSOR DMIN TF TR RF RR`: the verdict on a pair of temperature sensors.
    BenchPair(PairTest),
    /// `bench flow CLASS QP Q REF IND`: the verdict on a flow sensor.
    BenchFlow(FlowTest),
    /// `gen SEED COUNT`: the register after generated events.
    Gen(Load),
}

/// A sample of a platinum sensor with the nominal constants.
#[derive(Clone, Copy, Debug, PartialEq, Eq)]
pub struct Sample {
    pub sensor: Sensor,
    /// In microohms.
    pub r: u32,
}

/// Water at one pressure and one temperature.
#[derive(Clone, Copy, Debug, PartialEq, Eq)]
pub struct WaterState {
    /// The pressure in kPa, 1,100 to 4,000.
    pub p_kpa: u32,
    /// The temperature in microdegrees Celsius, 0 to 180,000,000.
    pub t_udeg: u32,
}

/// Water at one pressure, between the temperatures of flow and return in microdegrees Celsius.
#[derive(Clone, Copy, Debug, PartialEq, Eq)]
pub struct HeatCoefficient {
    pub place: Place,
    /// The pressure in kPa, 1,100 to 4,000.
    pub p_kpa: u32,
    /// At most 180,000,000.
    pub tf_udeg: u32,
    /// At least 10,000 below that in the flow.
    pub tr_udeg: u32,
}

/// A test of a calculator, which indicated an energy for so many litres at two samples in microohms.
#[derive(Clone, Copy, Debug, PartialEq, Eq)]
pub struct CalculatorTest {
    pub sensor: Sensor,
    pub place: Place,
    /// The pressure in kPa, 1,100 to 4,000.
    pub p_kpa: u32,
    /// The least difference of the calculator in microdegrees, 1 to 180,000,000.
    pub dmin_udeg: u32,
    pub rf: u32,
    pub rr: u32,
    /// 1 to 10^9.
    pub litres: u64,
    /// The energy in millijoules, at most 10^18.
    pub energy_mj: u64,
}

/// A test of a pair of temperature sensors, which gave two samples in microohms at two true temperatures in
/// microdegrees Celsius.
#[derive(Clone, Copy, Debug, PartialEq, Eq)]
pub struct PairTest {
    pub sensor: Sensor,
    /// The least difference of the pair in microdegrees, 1 to 180,000,000.
    pub dmin_udeg: u32,
    /// At most 180,000,000.
    pub tf_udeg: u32,
    /// Below that in the flow.
    pub tr_udeg: u32,
    pub rf: u32,
    pub rr: u32,
}

/// A test of a flow sensor, which indicated a volume where another had flowed.
#[derive(Clone, Copy, Debug, PartialEq, Eq)]
pub struct FlowTest {
    /// 1, 2 or 3.
    pub class: u8,
    /// The permanent flow, 1 to 10^9 in the unit of `q`.
    pub qp: u32,
    /// The flow, 1 to 10^9.
    pub q: u32,
    /// The millilitres that flowed, 1 to 10^12.
    pub reference: u64,
    /// The millilitres that were indicated, at most 10^12.
    pub indicated: u64,
}

/// The first events that a number generates.
#[derive(Clone, Copy, Debug, PartialEq, Eq)]
pub struct Load {
    pub seed: u64,
    /// How many, 1 to 1,000,000.
    pub count: u32,
}

/// The words are no command, with the place of the first wrong, missing or extra word, counted from 0.
#[derive(Clone, Copy, Debug, PartialEq, Eq, Error)]
#[error("usage: word {word}")]
pub struct Usage {
    pub word: usize,
}
