// dayplan: a sheet file from standard input; its plan, or one refusal line, to standard output.
// It ends with 0 after a plan, 1 after a refusal, 2 when it is called wrongly, 3 where reading or writing fails.
#![tactic(auto)]

use console::arguments::{Request, asked};
use console::fault::StreamFault;
use console::run::run;
use console::writing::write_text;
use reply::reply::Replied;
use std::env;
use std::env::{Env, FillError};
use std::process::ExitCode;

const USAGE: &str = "usage: dayplan < SHEET, or dayplan --help";

const HELP: &[u8] = b"usage: dayplan < SHEET
Reads a sheet file from standard input. Prints its earliest plan: the day of each lot, and how many days there are.
Where there is none, or the file is not in order, it prints one line: refused, a number, and the place.

  --help     prints this
  --version  prints the version

Status: 0 a plan, 1 a refusal, 2 called wrongly, 3 the input cannot be read or the output not written
";

const VERSION: &[u8] = b"dayplan 1.0\n";

fn main(rt: HostRuntime) -> ExitCode {
    let status = match request(&rt) {
        Request::Plan => status_of(&rt, run(&mut rt.stdin(), &mut rt.stdout())),
        Request::Help => print(&rt, HELP),
        Request::Version => print(&rt, VERSION),
        Request::Usage => {
            let _ = eprintln!(rt; "{USAGE}");
            2
        }
    };
    ExitCode::from(status)
}

// What the arguments ask for; those that are no text are not known. Where there are none, nothing else is read: not the
// program's own name, which may be no text, and with no memory taken.
fn request(rt: &HostRuntime) -> Request {
    if let Err(FillError::NotPresent) = rt.arg(1, &mut []) {
        return Request::Plan;
    }
    let Ok(words) = env::args(rt) else {
        return Request::Usage;
    };
    match words.skip(1).collect::<Vec<String>>(rt.alloc()) {
        Ok(words) => asked(&words),
        Err(_) => Request::Usage,
    }
}

fn status_of(rt: &HostRuntime, ended: Result<Replied, StreamFault>) -> u8 {
    match ended {
        Ok(Replied::Plan(_)) => 0,
        Ok(Replied::Refusal(_)) => 1,
        Err(fault) => tell(rt, fault),
    }
}

fn print(rt: &HostRuntime, text: &[u8]) -> u8 {
    match write_text(&mut rt.stdout(), text) {
        Ok(()) => 0,
        Err(e) => tell(rt, StreamFault::Output(e)),
    }
}

// A fault of the streams goes to standard error, and is lost where that fails too.
fn tell(rt: &HostRuntime, fault: StreamFault) -> u8 {
    let _ = eprintln!(rt; "dayplan: {fault}");
    3
}
