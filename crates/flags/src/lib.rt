// A bool as a number, as the calls for C and Rust pass it.
#![tactic(auto)]

ghost use Rattle.std.specs.Prelude.{◌≡◌};
ghost use Rattle.flags.specs.Flags as def;

pub fn flag(b: bool) -> u32
    ensures { result ≡ def.flag b }
{
    u32::from(b)
}

// C passes a number: any but 0 is true.
pub fn flagged(k: u32) -> bool
    ensures { result ≡ def.flagged k }
{
    k != 0
}
