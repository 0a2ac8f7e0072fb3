// From the bytes of a sheet file to its plan, and to the text that dayplan prints.
#![tactic(auto)]

pub mod plan_file;
pub mod reply;
