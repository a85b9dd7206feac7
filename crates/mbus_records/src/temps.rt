//! The temperatures of a telegram.
ghost use Rattle.std.specs.Prelude.{◌≡◌, ◌+◌, ◌≤◌, ◌++◌};
ghost use Rattle.std.specs.Option.{ForSome};
ghost use Rattle.platinum_model.specs.Element.{max_udeg};
ghost use Rattle.arrayvec.specs.ArrayVec.{array_vec_len};
ghost use Rattle.config_model.specs.Configuration.{flow_element, return_element};
ghost use Rattle.telegram_model.specs.Telegram.{difference, one_temp, sample_records, temp_of, temp_records};
ghost use Rattle.pt_curve.specs.Curve.{element};
ghost use Rattle.meter_config.specs.Views.{config_view};

use crate::push::{ROOM, push_temp};
use arrayvec::ArrayVec;
use meter_config::Config;
use pt_curve::Curve;
use sensor_pair::Pair;

// Value information fields (EN 13757-3): temperatures in thousandths of a degree.
const FLOW_TEMP: u8 = 0x58;

const RETURN_TEMP: u8 = 0x5C;

const DIFFERENCE: u8 = 0x60;

/// Appends the temperatures of the samples in force, in microohms, where they are in range.
pub(crate) fn push_samples(body: &mut ArrayVec<u8, ROOM>, c: &Config, samples: Option<(u32, u32)>)
    requires { array_vec_len body.old + 18 ≤ 252 }
    ensures items { body.new.items ≡ body.old.items ++ sample_records (flow_element (config_view c.now)) (return_element (config_view c.now)) samples }
    ensures len { array_vec_len body.new ≤ array_vec_len body.old + 18 }
{
    if let Some((flow, ret)) = samples {
        let pair = Pair::of(c.sensor, c.cal);
        push_temps(
            body,
            whole_temp(&pair.flow, flow),
            whole_temp(&pair.ret, ret),
        );
    }
}

// The whole temperature of a sample in range, in microdegrees.
fn whole_temp(curve: &Curve, sample: u32) -> Option<u32>
    ensures value { result ≡ temp_of (element curve.now) sample }
    ensures range { ForSome result (λ t. t ≤ max_udeg) }
{
    curve.whole_temp(sample)
}

fn push_temps(body: &mut ArrayVec<u8, ROOM>, flow: Option<u32>, ret: Option<u32>)
    requires room { array_vec_len body.old + 18 ≤ 252 }
    requires flow { ForSome flow (λ t. t ≤ max_udeg) }
    requires ret { ForSome ret (λ t. t ≤ max_udeg) }
    ensures items { body.new.items ≡ body.old.items ++ temp_records flow ret }
    ensures len { array_vec_len body.new ≤ array_vec_len body.old + 18 }
{
    push_one_temp(body, FLOW_TEMP, flow);
    push_one_temp(body, RETURN_TEMP, ret);
    push_difference(body, flow, ret);
}

fn push_one_temp(body: &mut ArrayVec<u8, ROOM>, unit: u8, temp: Option<u32>)
    requires room { array_vec_len body.old + 6 ≤ 252 }
    requires range { ForSome temp (λ t. t ≤ max_udeg) }
    ensures items { body.new.items ≡ body.old.items ++ one_temp unit temp }
    ensures len { array_vec_len body.new ≤ array_vec_len body.old + 6 }
{
    if let Some(microdegrees) = temp {
        push_temp(body, unit, microdegrees as i32);
    }
}

fn push_difference(body: &mut ArrayVec<u8, ROOM>, flow: Option<u32>, ret: Option<u32>)
    requires room { array_vec_len body.old + 6 ≤ 252 }
    requires flow { ForSome flow (λ t. t ≤ max_udeg) }
    requires ret { ForSome ret (λ t. t ≤ max_udeg) }
    ensures items { body.new.items ≡ body.old.items ++ difference flow ret }
    ensures len { array_vec_len body.new ≤ array_vec_len body.old + 6 }
{
    if let (Some(flow), Some(ret)) = (flow, ret) {
        push_temp(body, DIFFERENCE, flow as i32 - ret as i32);
    }
}
