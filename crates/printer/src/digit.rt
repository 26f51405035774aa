// Digits.
ghost use Rattle.std.specs.Prelude.{◌≡◌, ◌<◌};
ghost use Rattle.printer.specs.Output as print;

// A digit of a base up to 16.
#[tactic(auto, unfolding(crate::specs::Output::digit))]
pub fn digit(d: u64) -> u8
    requires { d < 16 }
    ensures { result ≡ print.digit d }
{
    if d < 10 {
        b'0' + d as u8
    } else {
        b'A' + (d as u8 - 10)
    }
}
