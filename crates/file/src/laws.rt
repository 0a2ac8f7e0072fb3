// The laws of sheet files, stated where the check asks for their proofs.
ghost use Rattle.file.specs.Laws.{OneSheetForAFile, ReadWhatWasWritten, JustTheseRules, WrittenAsItWasRead};

pub fn one_sheet_for_a_file()
    ensures { OneSheetForAFile }
{}

pub fn read_what_was_written()
    ensures { ReadWhatWasWritten }
{}

pub fn just_these_rules()
    ensures { JustTheseRules }
{}

pub fn written_as_it_was_read()
    ensures { WrittenAsItWasRead }
{}
