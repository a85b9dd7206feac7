//! The commands `bench calc`, `bench pair` and `bench flow`.
ghost use Rattle.std.specs.Prelude.{◌≡◌, ◌<◌, ◌++◌, codes, length};
ghost use Rattle.platinum_model.specs.Pair.{IsCountingPair};
ghost use Rattle.platinum_model.specs.Sample.{IsCellSpan};
ghost use Rattle.pt_curve.specs.Curve.{element};
ghost use Rattle.meter_parts.specs.Views.{place_view};
ghost use Rattle.answer_lines.specs.Bench.{IsCalcText, IsCalculatorJudged, IsPairText, IsWholeDifference, flow_text, judged_text};
ghost use Rattle.command_words.specs.Command.{IsCalculatorTest, IsFlowTest, IsPairTest};

use crate::line::{LINE_ROOM, ended, range_line};
use arrayvec::ArrayString;
use bench_limits::{Judged, judge_flow, judge_pair, judge_point};
use command_words::{CalculatorTest, FlowTest, PairTest};
use heat_coeff::litre_energy;
use if97_region1::Water;
use interval_num::Span;
use pt_curve::Curve;
use sensor_pair::{Pair, Verdict};

/// The verdict on a calculator, at the difference of the whole temperatures of the samples and at each energy that a litre
/// may have given off: `out` where a sample is out of range, and `small` where the flow is not warmer than the return by
/// 10,000 microdegrees.
pub fn calc_line(test: CalculatorTest) -> ArrayString<LINE_ROOM>
    requires { IsCalculatorTest test }
    ensures text { IsCalcText test result.bytes }
    ensures some { 0 < length result.bytes }
{
    let curve = Curve::nominal(test.sensor);
    let pair = Pair {
        flow: curve,
        ret: curve,
    };
    match pair.judge(test.rf, test.rr) {
        Verdict::FlowOut => ended("out"),
        Verdict::ReturnOut => ended("out"),
        Verdict::BothOut => ended("out"),
        Verdict::Small => ended("small"),
        Verdict::Counts { f, r } => judged_line(judge_calculator(test, curve, f, r)),
    }
}

// The verdict on a calculator, at the cells of samples that count.
fn judge_calculator(test: CalculatorTest, curve: Curve, f: Span, r: Span) -> Judged
    requires counts { IsCountingPair (element curve) (element curve) test.rf test.rr }
    requires flow_cell { IsCellSpan (element curve) test.rf f.lo f.hi }
    requires return_cell { IsCellSpan (element curve) test.rr r.lo r.hi }
    requires test { IsCalculatorTest test }
    ensures { IsCalculatorJudged (element curve) (place_view test.place) test.p_kpa test.dmin_udeg test.rf test.rr test.litres test.energy_mj result }
{
    let delta_udeg = difference(curve, test.rf, test.rr);
    let water = Water::new(test.p_kpa).unwrap();
    let q = litre_energy(&water, test.place, f, r);
    judge_point(test.dmin_udeg, delta_udeg, test.litres, test.energy_mj, q)
}

// The difference of the whole temperatures of samples that count, in microdegrees.
fn difference(curve: Curve, rf: u32, rr: u32) -> u32
    requires { IsCountingPair (element curve) (element curve) rf rr }
    ensures { IsWholeDifference (element curve) rf rr result }
{
    curve.whole_temp(rf).unwrap() - curve.whole_temp(rr).unwrap()
}

/// The verdict on a pair of temperature sensors, at each difference that the cells of the samples leave, or `out` where a
/// sample is out of range.
pub fn pair_line(test: PairTest) -> ArrayString<LINE_ROOM>
    requires { IsPairTest test }
    ensures text { IsPairText test result.bytes }
    ensures some { 0 < length result.bytes }
{
    let curve = Curve::nominal(test.sensor);
    let Some(f) = curve.cell(test.rf) else {
        return ended("out");
    };
    let Some(r) = curve.cell(test.rr) else {
        return ended("out");
    };
    judged_line(judge_pair(test.dmin_udeg, test.tf_udeg, test.tr_udeg, f, r))
}

/// The verdict on a flow sensor.
pub fn flow_line(test: FlowTest) -> ArrayString<LINE_ROOM>
    requires { IsFlowTest test }
    ensures text { result.bytes ≡ flow_text test }
    ensures some { 0 < length result.bytes }
{
    let judged = judge_flow(test.class, test.qp, test.q, test.reference, test.indicated);
    judged_line(judged)
}

fn judged_line(judged: Judged) -> ArrayString<LINE_ROOM>
    ensures text { result.bytes ≡ judged_text judged ++ codes "\n" }
    ensures some { 0 < length result.bytes }
{
    match judged {
        Judged::Pass => ended("pass"),
        Judged::High => ended("high"),
        Judged::Low => ended("low"),
        Judged::Undecided { lo, hi } => range_line("undecided ", lo, hi),
    }
}
