use dec_tables::{Part, Poly, Term, collapse, enclose, region1_table};
use interval_num::Enc;

#[test]
fn first_and_last_rows(rt: HostRuntime) {
    let table = region1_table();
    let first = Term {
        i: 0,
        j: -2,
        mantissa: 14_632_971_213_167,
        exp10: -14,
    };
    let last = Term {
        i: 32,
        j: -41,
        mantissa: -93_537_087_292_458,
        exp10: -39,
    };
    assert_eq!(rt; table.term(0), first);
    assert_eq!(rt; table.term(33), last);
}

#[test]
fn enclosed_by_hand(rt: HostRuntime) {
    // -0.35 * 2 * 16 = -11.2
    let negative = Term {
        i: 0,
        j: 0,
        mantissa: -35,
        exp10: -2,
    };
    assert_eq!(rt; enclose::<4>(&negative, 1), Enc::<4>::of_ends(-12, -11));

    // 3 * 10^2 * 2 = 600
    let whole = Term {
        i: 0,
        j: 0,
        mantissa: 3,
        exp10: 2,
    };
    assert_eq!(rt; enclose::<0>(&whole, 1), Enc::<0>::of_ends(600, 600));

    // below every unit
    let tiny = Term {
        i: 0,
        j: 0,
        mantissa: 7,
        exp10: -128,
    };
    assert_eq!(rt; enclose::<56>(&tiny, 96), Enc::<56>::of_ends(0, 1));

    // the last row, whose quotient takes several turns
    let last = Term {
        i: 32,
        j: -41,
        mantissa: -93_537_087_292_458,
        exp10: -39,
    };
    assert_eq!(rt;
        enclose::<56>(&last, 88),
        Enc::<56>::of_ends(-2_085_946_750_321_822_509, -2_085_946_750_321_822_508)
    );

    let zero = Term {
        i: 0,
        j: 0,
        mantissa: 0,
        exp10: 127,
    };
    assert_eq!(rt; enclose::<56>(&zero, 96), Enc::<56>::of_ends(0, 0));
}

// the sums at 1,600 kPa and 50 °C, from exact fractions
#[test]
fn collapsed_sums(rt: HostRuntime) {
    let table = region1_table();
    let x = Enc::of_ends(63_079_274_490_416_301, 63_079_274_490_416_302);
    let y_quarter = Enc::of_ends(215_823_039_764_955, 215_823_039_764_956);
    let inverse_y = Enc::of_ends(358_493_942_720, 358_493_942_721);

    let volume_up: Poly<18, 48> = collapse(&table, Part::VolumeUp, x);
    let sum = volume_up.horner(y_quarter);
    assert!(rt; sum.lo <= 29_700_837_210_338 && sum.hi > 29_700_837_210_338);

    let volume_down: Poly<42, 40> = collapse(&table, Part::VolumeDown, x);
    let sum = volume_down.horner(inverse_y);
    assert!(rt; sum.lo <= 7_237_245_285 && sum.hi > 7_237_245_285);

    let heat_up: Poly<17, 48> = collapse(&table, Part::HeatUp, x);
    let sum = heat_up.horner(y_quarter);
    assert!(rt; sum.lo <= 65_984_669_031_670 && sum.hi > 65_984_669_031_670);

    let heat_down: Poly<43, 40> = collapse(&table, Part::HeatDown, x);
    let sum = heat_down.horner(inverse_y);
    assert!(rt; sum.lo <= 104_420_002_501 && sum.hi > 104_420_002_501);
}
