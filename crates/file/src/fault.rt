// Why a sheet file is not read or not written. A refusal changes nothing.
ghost use Rattle.std.specs.Prelude.{◌≡◌, Some};
ghost use Rattle.file.specs.Faults.{fault_text, number_of, place_of};
ghost use Rattle.sheet.specs.Faults.{of_season};
ghost use Rattle.file.specs.declared.fault.FileFault.TheVariants.{Sheet};

use nvalue::season::SeasonFault;
use sheet::fault::SheetFault;
use std::fmt;

#[derive(Clone, Copy, PartialEq, Eq, Debug)]
pub enum FileFault {
    // fewer than eight bytes, or no HD at the end
    NoSheetFile,
    // the trailer does not fit the file, or says 257 lots or 33 rules or more
    TrailerDisagrees,
    // fewer than two words for each lot
    ShortWords,
    // fewer bytes than the file has
    ShortBytes,
    // the sheet's own refusal, whole
    Sheet(SheetFault),
}

impl FileFault {
    // The number by which a house knows this refusal.
    pub fn number(self) -> u32
        ensures { result ≡ number_of self }
    {
        match self {
            FileFault::NoSheetFile => 8,
            FileFault::TrailerDisagrees => 9,
            FileFault::ShortWords => 7,
            FileFault::ShortBytes => 7,
            FileFault::Sheet(fault) => fault.number(),
        }
    }

    // The lot or the rule that it names, 0 where it names none.
    pub fn place(self) -> usize
        ensures { result ≡ place_of self }
    {
        match self {
            FileFault::Sheet(fault) => fault.place(),
            _ => 0,
        }
    }
}

// The number, and the lot or the rule that is named.
impl fmt::Display for FileFault {
    ghost output = { λ fault. Some (fault_text fault) };

    fn fmt<W: fmt::Write>(&self, f: &mut fmt::Formatter<W>) -> fmt::Result {
        write!(f, "refused {} place {}", self.number(), self.place())
    }
}

impl From<SeasonFault> for FileFault {
    ghost from_gives = { λ value r. r ≡ Sheet (of_season value) };

    fn from(value: SeasonFault) -> FileFault {
        FileFault::Sheet(SheetFault::from(value))
    }
}

impl From<SheetFault> for FileFault {
    ghost from_gives = { λ value r. r ≡ Sheet value };

    fn from(value: SheetFault) -> FileFault {
        FileFault::Sheet(value)
    }
}
