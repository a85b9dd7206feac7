use energy_register::{MAX_PULSES, PulsesFull, Register, Step};

#[test]
fn pulses_are_added_up_to_the_limit(rt: HostRuntime) {
    let step = Step {
        e_mj: -5,
        b_mj: 7,
        faulty: 0,
    };
    let after = Register::zero().after(step, MAX_PULSES - 1);
    assert!(rt; after.is_ok());
    let Ok(register) = after else {
        return;
    };
    assert_eq!(rt; register.pulses, 999_999_999_999_999);
    assert_eq!(rt; register.energy_mj, -5);
    assert_eq!(rt; register.bound_mj, 7);
    assert_eq!(rt; register.litres(1000), 999_999_999_999_999_000);
    assert!(rt; register.after(step, 1).is_ok());
    assert_eq!(rt;
        register.after(step, 2),
        Err(PulsesFull {
            sum: 1_000_000_000_000_001
        })
    );
}
