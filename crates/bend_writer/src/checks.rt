// The rules that a pull keeps, in their order: 15, each step's 3 and 4, then 10. All of them are looked at before a
// byte is written.
ghost use Rattle.std.specs.Prelude.{◌≡◌, ◌≤◌, length};
ghost use Rattle.refusals.specs.Calls.{unless};
ghost use Rattle.bend_writer.specs.Steps as def;
ghost use Rattle.bend_writer.specs.Private as private;
ghost use Rattle.bend_writer.specs.Write as write;

use crate::StepSize;
use bend_file::chain::MAX_STEPS;
use bend_file::value_count;
use refusals::Refusal;

// The most coordinates that the trailer's two bytes hold.
const MAX_COORDS: usize = 65535;

impl StepSize {
    // The first rule that the step breaks, where so many values are left.
    fn check(self, left: usize) -> Result<(), Refusal>
        ensures { result ≡ unless (def.ruled self.rows self.coords (private.had self.count left)) tt }
    {
        let wanted = value_count(self.rows, self.coords).ok_or(Refusal::FileLimits)?;
        if self.coords > MAX_COORDS {
            return Err(Refusal::FileLimits);
        }
        if self.count > left || self.count != wanted {
            return Err(Refusal::FileCount);
        }
        Ok(())
    }
}

// The steps' own rules: the first that the oldest step breaks, or the file's length.
fn steps_checked(steps: &[StepSize], values: &[f64]) -> Result<usize, Refusal>
    requires { length steps.now ≤ 40 }
    ensures { result ≡ private.checked (write.pulled steps.now values.now) }
{
    let mut from = 0;
    for step in steps {
        step.check(values.len() - from)?;
        from += step.count;
    }
    Ok(20 * steps.len() + 8 * from)
}

// The first rule that the pull breaks, or the file's length.
pub fn checked(steps: &[StepSize], values: &[f64], room: usize) -> Result<usize, Refusal>
    ensures { result ≡ write.result (write.answer (write.pulled steps.now values.now) room) }
{
    if !several(steps.len()) {
        return Err(Refusal::Steps);
    }
    let bytes = steps_checked(steps, values)?;
    if room < bytes {
        return Err(Refusal::Short);
    }
    Ok(bytes)
}

fn several(steps: usize) -> bool
    ensures { result ≡ def.several steps }
{
    (1..=MAX_STEPS).contains(&steps)
}
