// The writer of chained bend files: document 02's W1, 1 to 40 steps with no free bytes. Each public call is total, and
// its contract is an equation with the definition of the file in specs/.
#![tactic(auto)]

ghost use Rattle.bend_writer.specs.Write as write;

mod checks;
mod lists;
mod steps;

use bend_file::chain::MAX_STEPS;
use refusals::Refusal;

// A step as it is written: its rows and coordinates, and how many values it has.
#[derive(Clone, Copy)]
pub struct StepSize {
    pub rows: usize,
    pub coords: usize,
    pub count: usize,
}

// Writes a pull's steps, oldest first, to the front of `out`, and gives how many bytes the file has. The values of a
// step are the next ones of those lent beside the steps. What lies past the file stays, and so does everything where
// the pull is refused.
pub fn write_chain(steps: &[StepSize], values: &[f64], out: &mut [u8]) -> Result<usize, Refusal>
    ensures { write.Writes (write.pulled steps.now values.now) result out.old out.new }
{
    let bytes = checks::checked(steps, values, out.len())?;
    steps::put_steps(out, steps, values);
    Ok(bytes)
}

// The same of separate lists, as C lends them: the first `steps` places of each. A place past a list's end counts as 0.
pub fn write_steps(
    steps: usize,
    rows: &[usize],
    coords: &[usize],
    counts: &[usize],
    values: &[f64],
    out: &mut [u8],
) -> Result<usize, Refusal>
    ensures { write.Writes
        (write.lent steps rows.now coords.now counts.now values.now)
        result out.old out.new }
{
    if steps > MAX_STEPS {
        return Err(Refusal::Steps);
    }
    let sizes = lists::sizes(rows, coords, counts);
    write_chain(&sizes[..steps], values, out)
}
