// The worked examples: a table of what the definitions, and with them the calls, make of ten known cases. No program
// is run: the contract says that every claim of the table holds.
#![tactic(auto)]

ghost use Rattle.examples.specs.Table.{AllShown};

// Carries the theorem, since the check asks for theorems where a function's contract names them.
pub fn worked_examples()
    ensures { AllShown }
{}
