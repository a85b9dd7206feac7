//! The words of the command line.
ghost use Rattle.std.specs.Prelude.{◌≡◌, ◌+◌, ◌≤◌, IfOk, IfSome};
ghost use Rattle.script_model.specs.Grammar.{end_at, word_at};
ghost use Rattle.script_model.specs.Numbers.{number_in};
ghost use Rattle.command_words.specs.Command.{BeginsWith, IsInRange, Says, SaysWord, below_in, bench_words, calc_words, cert_words, coef_words, command_of, flow_words, gen_words, pair_words, place_of, read_words, sensor_of, temp_words, texts, water_words};

use crate::job::{
    CalculatorTest, FlowTest, HeatCoefficient, Job, Load, PairTest, Query, Sample, Usage,
    WaterState,
};
use event_script::number_word;
use meter_parts::{MAX_PRESSURE_KPA, MIN_PRESSURE_KPA, Place, Sensor};

/// The most microohms of a sample.
const MAX_SAMPLE: u64 = u32::MAX as u64;

/// The pressures of water, in kPa.
const MIN_PRESSURE: u64 = MIN_PRESSURE_KPA as u64;

const MAX_PRESSURE: u64 = MAX_PRESSURE_KPA as u64;

/// The highest temperature, and the greatest least difference, in microdegrees.
const MAX_TEMPERATURE: u64 = 180_000_000;

/// The least difference of flow and return that counts, in microdegrees.
const MIN_DIFFERENCE: u64 = 10_000;

/// The most litres, and millijoules, that a calculator is tested with.
const MAX_LITRES: u64 = 1_000_000_000;

const MAX_ENERGY: u64 = 1_000_000_000_000_000_000;

/// The last class of flow sensors.
const LAST_CLASS: u64 = 3;

/// The greatest flow, and the most millilitres, that a flow sensor is tested with.
const MAX_FLOW: u64 = 1_000_000_000;

const MAX_MILLILITRES: u64 = 1_000_000_000_000;

/// The most events that are generated.
const MAX_COUNT: u64 = 1_000_000;

/// The command that the words after the program's name say.
///
/// # Errors
/// [`Usage`] exactly where the words are no command.
pub fn command(words: &[&str]) -> Result<Job, Usage>
    ensures says { Says result (command_of (texts words.now)) }
    ensures range { IfOk result IsInRange }
{
    let Some((name, rest)) = first_of(words) else {
        return Err(Usage { word: 0 });
    };
    if name.as_bytes() == b"init".as_slice() {
        end(rest, 1, Job::Init)
    } else if name.as_bytes() == b"run".as_slice() {
        end(rest, 1, Job::Run)
    } else if name.as_bytes() == b"dry".as_slice() {
        end(rest, 1, Job::Dry)
    } else if name.as_bytes() == b"show".as_slice() {
        end(rest, 1, Job::Show)
    } else if name.as_bytes() == b"slots".as_slice() {
        end(rest, 1, Job::Slots)
    } else if name.as_bytes() == b"temp".as_slice() {
        temp(rest)
    } else if name.as_bytes() == b"water".as_slice() {
        water(rest)
    } else if name.as_bytes() == b"k".as_slice() {
        coef(rest)
    } else if name.as_bytes() == b"bench".as_slice() {
        bench(rest)
    } else if name.as_bytes() == b"gen".as_slice() {
        generate(rest)
    } else if name.as_bytes() == b"cert".as_slice() {
        cert(rest)
    } else if name.as_bytes() == b"read".as_slice() {
        read(rest)
    } else {
        Err(Usage { word: 0 })
    }
}

// The words after `temp`.
fn temp(words: &[&str]) -> Result<Job, Usage>
    ensures says { Says result (temp_words (texts words.now)) }
    ensures range { IfOk result IsInRange }
{
    let (sensor, words) = sensor_at(words, 1)?;
    let (r, words) = number_at(words, 2, 0, MAX_SAMPLE)?;
    let sample = Sample {
        sensor,
        r: r as u32,
    };
    end(words, 3, Job::Ask(Query::Temp(sample)))
}

// The words after `water`.
fn water(words: &[&str]) -> Result<Job, Usage>
    ensures says { Says result (water_words (texts words.now)) }
    ensures range { IfOk result IsInRange }
{
    let (pressure, words) = number_at(words, 1, MIN_PRESSURE, MAX_PRESSURE)?;
    let (temperature, words) = number_at(words, 2, 0, MAX_TEMPERATURE)?;
    let state = WaterState {
        p_kpa: pressure as u32,
        t_udeg: temperature as u32,
    };
    end(words, 3, Job::Ask(Query::Water(state)))
}

// The words after `k`.
fn coef(words: &[&str]) -> Result<Job, Usage>
    ensures says { Says result (coef_words (texts words.now)) }
    ensures range { IfOk result IsInRange }
{
    let (place, words) = place_at(words, 1)?;
    let (pressure, words) = number_at(words, 2, MIN_PRESSURE, MAX_PRESSURE)?;
    let (tf, words) = number_at(words, 3, 0, MAX_TEMPERATURE)?;
    let (tr, words) = below_at(words, 4, MIN_DIFFERENCE, tf)?;
    let k = HeatCoefficient {
        place,
        p_kpa: pressure as u32,
        tf_udeg: tf as u32,
        tr_udeg: tr as u32,
    };
    end(words, 5, Job::Ask(Query::Coef(k)))
}

// The words after `read`.
fn read(words: &[&str]) -> Result<Job, Usage>
    ensures says { Says result (read_words (texts words.now)) }
    ensures range { IfOk result IsInRange }
{
    let Some((kind, rest)) = first_of(words) else {
        return Err(Usage { word: 1 });
    };
    if kind.as_bytes() == b"mbus".as_slice() {
        end(rest, 2, Job::ReadMbus)
    } else if kind.as_bytes() == b"optical".as_slice() {
        end(rest, 2, Job::ReadOptical)
    } else {
        Err(Usage { word: 1 })
    }
}

// The command, where there is no word from this place on.
fn end(words: &[&str], at: usize, job: Job) -> Result<Job, Usage>
    requires { IsInRange job }
    ensures says { Says result (end_at at job (texts words.now)) }
    ensures range { IfOk result IsInRange }
{
    match first_of(words) {
        Some(_) => Err(Usage { word: at }),
        None => Ok(job),
    }
}

// The words after `bench`.
fn bench(words: &[&str]) -> Result<Job, Usage>
    ensures says { Says result (bench_words (texts words.now)) }
    ensures range { IfOk result IsInRange }
{
    let Some((kind, rest)) = first_of(words) else {
        return Err(Usage { word: 1 });
    };
    if kind.as_bytes() == b"calc".as_slice() {
        bench_calc(rest)
    } else if kind.as_bytes() == b"pair".as_slice() {
        bench_pair(rest)
    } else if kind.as_bytes() == b"flow".as_slice() {
        bench_flow(rest)
    } else {
        Err(Usage { word: 1 })
    }
}

// The words after `bench calc`.
fn bench_calc(words: &[&str]) -> Result<Job, Usage>
    ensures says { Says result (calc_words (texts words.now)) }
    ensures range { IfOk result IsInRange }
{
    let (sensor, words) = sensor_at(words, 2)?;
    let (place, words) = place_at(words, 3)?;
    let (pressure, words) = number_at(words, 4, MIN_PRESSURE, MAX_PRESSURE)?;
    let (dmin, words) = number_at(words, 5, 1, MAX_TEMPERATURE)?;
    let (rf, words) = number_at(words, 6, 0, MAX_SAMPLE)?;
    let (rr, words) = number_at(words, 7, 0, MAX_SAMPLE)?;
    let (litres, words) = number_at(words, 8, 1, MAX_LITRES)?;
    let (energy_mj, words) = number_at(words, 9, 0, MAX_ENERGY)?;
    let test = CalculatorTest {
        sensor,
        place,
        p_kpa: pressure as u32,
        dmin_udeg: dmin as u32,
        rf: rf as u32,
        rr: rr as u32,
        litres,
        energy_mj,
    };
    end(words, 10, Job::Ask(Query::BenchCalc(test)))
}

// The words after `bench pair`.
fn bench_pair(words: &[&str]) -> Result<Job, Usage>
    ensures says { Says result (pair_words (texts words.now)) }
    ensures range { IfOk result IsInRange }
{
    let (sensor, words) = sensor_at(words, 2)?;
    let (dmin, words) = number_at(words, 3, 1, MAX_TEMPERATURE)?;
    let (tf, words) = number_at(words, 4, 0, MAX_TEMPERATURE)?;
    let (tr, words) = below_at(words, 5, 1, tf)?;
    let (rf, words) = number_at(words, 6, 0, MAX_SAMPLE)?;
    let (rr, words) = number_at(words, 7, 0, MAX_SAMPLE)?;
    let test = PairTest {
        sensor,
        dmin_udeg: dmin as u32,
        tf_udeg: tf as u32,
        tr_udeg: tr as u32,
        rf: rf as u32,
        rr: rr as u32,
    };
    end(words, 8, Job::Ask(Query::BenchPair(test)))
}

// The words after `bench flow`.
fn bench_flow(words: &[&str]) -> Result<Job, Usage>
    ensures says { Says result (flow_words (texts words.now)) }
    ensures range { IfOk result IsInRange }
{
    let (class, words) = number_at(words, 2, 1, LAST_CLASS)?;
    let (qp, words) = number_at(words, 3, 1, MAX_FLOW)?;
    let (q, words) = number_at(words, 4, 1, MAX_FLOW)?;
    let (reference, words) = number_at(words, 5, 1, MAX_MILLILITRES)?;
    let (indicated, words) = number_at(words, 6, 0, MAX_MILLILITRES)?;
    let test = FlowTest {
        class: class as u8,
        qp: qp as u32,
        q: q as u32,
        reference,
        indicated,
    };
    end(words, 7, Job::Ask(Query::BenchFlow(test)))
}

// The words after `gen`.
fn generate(words: &[&str]) -> Result<Job, Usage>
    ensures says { Says result (gen_words (texts words.now)) }
    ensures range { IfOk result IsInRange }
{
    let (seed, words) = number_at(words, 1, 0, u64::MAX)?;
    let (count, words) = number_at(words, 2, 1, MAX_COUNT)?;
    let load = Load {
        seed,
        count: count as u32,
    };
    end(words, 3, Job::Ask(Query::Gen(load)))
}

// The words after `cert`.
fn cert(words: &[&str]) -> Result<Job, Usage>
    ensures says { Says result (cert_words (texts words.now)) }
    ensures range { IfOk result IsInRange }
{
    let (pressure, words) = number_at(words, 1, MIN_PRESSURE, MAX_PRESSURE)?;
    let p_kpa = pressure as u32;
    end(words, 2, Job::Cert { p_kpa })
}

// The number from `low` to `high` that the word in this place says, and the words after it.
fn number_at<'a, 'b>(
    words: &'b [&'a str],
    at: usize,
    low: u64,
    high: u64,
) -> Result<(u64, &'b [&'a str]), Usage>
    ensures says { SaysWord result (word_at at (number_in low high) (texts words.now)) }
    ensures range { IfOk result (λ r. (low ≤ r.0) × (r.0 ≤ high)) }
{
    let Some((word, words)) = first_of(words) else {
        return Err(Usage { word: at });
    };
    match number_word(word.as_bytes(), low, high) {
        Some(number) => Ok((number, words)),
        None => Err(Usage { word: at }),
    }
}

// The number that the word in this place says, at least `least` below `most`, and the words after it.
fn below_at<'a, 'b>(
    words: &'b [&'a str],
    at: usize,
    least: u64,
    most: u64,
) -> Result<(u64, &'b [&'a str]), Usage>
    ensures says { SaysWord result (word_at at (below_in least most) (texts words.now)) }
    ensures range { IfOk result (λ r. r.0 + least ≤ most) }
{
    let Some((word, words)) = first_of(words) else {
        return Err(Usage { word: at });
    };
    match below_word(word.as_bytes(), least, most) {
        Some(number) => Ok((number, words)),
        None => Err(Usage { word: at }),
    }
}

// The sensor that the word in this place names.
fn sensor_at<'a, 'b>(words: &'b [&'a str], at: usize) -> Result<(Sensor, &'b [&'a str]), Usage>
    ensures { SaysWord result (word_at at sensor_of (texts words.now)) }
{
    let Some((word, words)) = first_of(words) else {
        return Err(Usage { word: at });
    };
    match sensor(word.as_bytes()) {
        Some(sensor) => Ok((sensor, words)),
        None => Err(Usage { word: at }),
    }
}

// The pipe that the word in this place names.
fn place_at<'a, 'b>(words: &'b [&'a str], at: usize) -> Result<(Place, &'b [&'a str]), Usage>
    ensures { SaysWord result (word_at at place_of (texts words.now)) }
{
    let Some((word, words)) = first_of(words) else {
        return Err(Usage { word: at });
    };
    match place(word.as_bytes()) {
        Some(place) => Ok((place, words)),
        None => Err(Usage { word: at }),
    }
}

// The first word, and those after it.
fn first_of<'a, 'b>(words: &'b [&'a str]) -> Option<(&'a str, &'b [&'a str])>
    ensures { BeginsWith (texts words.now) result }
{
    let (first, others) = words.split_first()?;
    Some((*first, others))
}

// The sensor with so many ohms at 0 °C.
fn sensor(word: &[u8]) -> Option<Sensor>
    ensures { result ≡ sensor_of word.now }
{
    if word == b"100".as_slice() {
        Some(Sensor::Pt100)
    } else if word == b"500".as_slice() {
        Some(Sensor::Pt500)
    } else if word == b"1000".as_slice() {
        Some(Sensor::Pt1000)
    } else {
        None
    }
}

// The pipe in which the flow sensor sits.
fn place(word: &[u8]) -> Option<Place>
    ensures { result ≡ place_of word.now }
{
    if word == b"flow".as_slice() {
        Some(Place::Flow)
    } else if word == b"return".as_slice() {
        Some(Place::Return)
    } else {
        None
    }
}

// A number that is at least `least` below `most`.
fn below_word(word: &[u8], least: u64, most: u64) -> Option<u64>
    ensures value { result ≡ below_in least most word.now }
    ensures range { IfSome result (λ n. n + least ≤ most) }
{
    number_word(word, 0, most.checked_sub(least)?)
}
