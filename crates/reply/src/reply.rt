// What dayplan prints for a sheet file: the list of its plan, or the line of a refusal.
ghost use Rattle.reply.specs.Replies.{OneText, Replies};

use crate::plan_file::plan_file;
use listing::fault::ListFault;
use listing::list::list;
use listing::refusal::write_refusal;
use store::limits::LOTS;

// What the text is, and how many bytes it has.
#[derive(Clone, Copy, PartialEq, Eq, Debug)]
pub enum Replied {
    // the list of the plan
    Plan(usize),
    // the line of a refusal
    Refusal(usize),
}

// Writes the text into the first bytes of the output; where it does not fit, nothing is written. No file has two texts.
pub fn reply(file: &[u8], out: &mut [u8]) -> Result<Replied, ListFault>
    ensures replies { Replies file.now out.old result out.new }
    ensures one { OneText file.now }
{
    let mut days = [0; LOTS];
    match plan_file(file, &mut days) {
        Ok(lots) => list(&days[..lots], out).map(Replied::Plan),
        Err(fault) => write_refusal(fault.number(), fault.place(), out).map(Replied::Refusal),
    }
}
