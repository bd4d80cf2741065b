// What the value query says, in numbers, for hosts that take no enum.
#![tactic(auto)]

ghost use Rattle.std.specs.Prelude.{◌≡◌};
ghost use Rattle.scalars.specs.Numbers.{signed_bits, HasBits, scalar_numbers};

use rules::Scalar;

// Which case it is, its number, and a payload's length.
#[derive(Clone, Copy)]
pub struct ScalarNumbers {
    pub which: u64,
    pub number: u64,
    pub length: u64,
}

fn one_number(which: u64, number: u64) -> ScalarNumbers
    ensures { result ≡ record { which = which; number = number; length = 0 } }
{
    ScalarNumbers {
        which,
        number,
        length: 0,
    }
}

// The 64 bits of a signed number.
fn signed_bits(x: i64) -> u64
    ensures { result ≡ signed_bits x }
{
    if x < 0 {
        return 18446744073709551615 - ((-1 - x) as u64);
    }
    x as u64
}

// A NaN has its bits, so that every double here has some.
pub fn scalar_in_numbers(scalar: Scalar) -> ScalarNumbers
    requires { HasBits scalar }
    ensures { result ≡ scalar_numbers scalar }
{
    match scalar {
        Scalar::Nothing => one_number(0, 0),
        Scalar::Truth(truth) => one_number(1, truth as u64),
        Scalar::Signed(x) => one_number(2, signed_bits(x)),
        Scalar::Unsigned(x) => one_number(3, x),
        Scalar::Double(x) => one_number(4, f64::to_bits(x)),
        Scalar::NotANumber(bits) => one_number(4, bits),
        Scalar::Payload(start, length) => ScalarNumbers {
            which: 5,
            number: start,
            length,
        },
        Scalar::Children(count) => one_number(6, count),
    }
}
