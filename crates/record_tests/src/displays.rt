ghost use Rattle.std.specs.Prelude.{◌≤◌, nat_abs};

use energy_register::{PulsesFull, Register, Step, digits_text};
use std::test::Fail;

fn register(energy_mj: i128) -> Result<Register, PulsesFull>
    requires { nat_abs energy_mj ≤ 400000000000000000 }
{
    let step = Step {
        e_mj: energy_mj,
        b_mj: 0,
        faulty: 0,
    };
    Register::zero().after(step, 200_000)
}

#[test]
fn energy_is_shown_in_kwh_modulo_10_to_the_8(rt: HostRuntime) -> Result<(), Fail> {
    let energy = 360_000_000_000_000_000;
    assert_eq!(rt; register(energy)?.energy_digits(0), 0);
    assert_eq!(rt; register(energy + 3_600_000_000)?.energy_digits(0), 1);
    assert_eq!(rt; register(-1)?.energy_digits(0), 99_999_999);
    assert_eq!(rt; register(energy)?.volume_digits(10, 2), 200_000);
    Ok(())
}

#[test]
fn texts_have_eight_digits(rt: HostRuntime) {
    assert_eq!(rt; digits_text(1, 0).as_str(), "00000001");
    assert_eq!(rt; digits_text(12_345_678, 2).as_str(), "123456.78");
    assert_eq!(rt; digits_text(3, 3).as_str(), "00000.003");
}
