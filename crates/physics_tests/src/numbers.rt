use interval_num::{Enc, Ratio, Span};
use std::cmp::Ordering;

#[test]
fn sums_and_scales(rt: HostRuntime) {
    let x = Enc::<4>::of_ends(-3, 5);
    let y = Enc::<4>::point(12);
    assert_eq!(rt; x.add(y), Enc::<4>::of_ends(9, 17));
    assert_eq!(rt; x.sub(y), Enc::<4>::of_ends(-15, -7));
    assert_eq!(rt; x.scale_to::<2>(), Enc::<2>::of_ends(-1, 2));
    assert_eq!(rt; x.scale_to::<6>(), Enc::<6>::of_ends(-12, 20));
    assert_eq!(rt; x.relabel::<6>(), Enc::<6>::of_ends(-3, 5));
    assert_eq!(rt; x.width(), 8);
}

#[test]
fn products_and_quotients(rt: HostRuntime) {
    let x = Enc::<4>::of_ends(-3, 5);
    let y = Enc::<4>::of_ends(6, 7);
    assert_eq!(rt; Enc::<4>::of_ratio(-1, 3), Enc::<4>::of_ends(-6, -5));
    assert_eq!(rt; x.mul(y), Enc::<4>::of_ends(-2, 3));
    assert_eq!(rt; x.div(y), Enc::<4>::of_ends(-8, 14));
    assert_eq!(rt; Enc::<4>::of_ends(8, 12).powi(3), Enc::<4>::of_ends(2, 7));
}

#[test]
fn ratios_in_order(rt: HostRuntime) {
    let third = Ratio { num: -1, den: 3 };
    assert_eq!(rt; third.compare(Ratio { num: -2, den: 6 }), Ordering::Equal);
    assert_eq!(rt; third.compare(Ratio { num: -1, den: 2 }), Ordering::Greater);
    assert_eq!(rt; third.compare(Ratio { num: 0, den: 1 }), Ordering::Less);
}

#[test]
fn spans(rt: HostRuntime) {
    let all = Span {
        lo: 0,
        hi: 180_000_000_000,
    };
    assert_eq!(rt; all.hi - all.lo, 180_000_000_000);
}
