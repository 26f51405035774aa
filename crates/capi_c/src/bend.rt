// Bend files, for C and Rust.
ghost use Rattle.answer.specs.Output as def;

// What bendsolve writes for a bend file, at the front of out; how many bytes that is. An out of less than 2,048 bytes
// gets nothing, and the answer is 0.
#[unsafe(no_mangle)]
pub extern "C" fn piskorlu_bend(file: &[u8], out: &mut [u8]) -> usize
    ensures { def.Answered file.now result out.old out.new }
{
    capi::piskorlu_bend(file, out)
}
