// The host call: from C, a sheet file's bytes go in and its plan comes back. It needs no memory of its own and no
// set-up; docs/HOST.md says how to link it.
#![tactic(auto)]

ghost use Rattle.host.specs.Calls.{AgreesWithDayplan, Calls};

use file::numbers::write_numbers;
use reply::plan_file::plan_file;
use store::limits::LOTS;

// Writes the earliest plan of a sheet file into the first bytes of the output, two for each lot, the low one first, and
// answers 0; or answers the number of a refusal, and writes nothing.
#[unsafe(no_mangle)]
pub extern "C" fn rigbuwate_plan(file: &[u8], output: &mut [u8]) -> u32
    ensures calls { Calls file.now output.old result output.new }
    ensures agrees { AgreesWithDayplan file.now output.old result output.new }
{
    let mut room = [0; LOTS];
    let days = &mut room[..LOTS.min(output.len() / 2)];
    match plan_file(file, days) {
        Ok(lots) => {
            write_numbers(&days[..lots], &mut output[..2 * lots]);
            0
        }
        Err(fault) => fault.number(),
    }
}
