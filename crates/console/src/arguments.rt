// The arguments of dayplan.
ghost use Rattle.std.specs.Prelude.{map, string_bytes};
ghost use Rattle.console.specs.Arguments.{AsksFor};

#[derive(Clone, Copy, PartialEq, Eq, Debug)]
pub enum Request {
    Plan,
    Help,
    Version,
    // how dayplan is called, since it was called otherwise
    Usage,
}

// What the words behind the program's name ask for.
pub fn asked(words: &[String]) -> Request
    ensures { AsksFor (map string_bytes words.now) result }
{
    let [word] = words else {
        return if words.is_empty() {
            Request::Plan
        } else {
            Request::Usage
        };
    };
    match word.as_str() {
        "--help" => Request::Help,
        "--version" => Request::Version,
        _ => Request::Usage,
    }
}
