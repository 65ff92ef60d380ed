// The refusals, by name. Their numbers are those of the tables in docs/.
#![tactic(auto)]

ghost use Rattle.std.specs.Prelude.{◌≡◌};
ghost use Rattle.refusals.specs.Numbers.{number_of};

// Why a call refuses, and its number.
#[derive(Clone, Copy, PartialEq, Eq)]
pub enum Refusal {
    // the site file ends inside a count or an announced section
    ShortFile = 1,
    // a section's count is not allowed
    WrongCount = 2,
    // a number of this section is out of range
    BadTiming = 3,
    BadEntry = 4,
    BadHoliday = 5,
    BadLevel = 6,
    // bytes follow the last section
    LongFile = 7,
    // no such date or tenth
    BadClock = 8,
    // a detector's value or a call's is out of range
    BadSample = 9,
    // a command is out of range
    BadCommand = 10,
    // the output is shorter than what is written
    SmallBuffer = 11,
    // no period has been completed
    NoPeriod = 12,
    // a state outside its ranges
    SpoiltState = 13,
    // a site record that no file could give
    SpoiltSite = 14,
    // the bytes are no tick record
    BadRecord = 15,
    // an approach speed or a grade out of range
    BadApproach = 16,
    // more than 16 entries would remain
    TooManyEntries = 17,
    // a cabinet's number or an answer out of range
    BadNumber = 18,
}

impl Refusal {
    // Its number in the tables.
    pub fn number(self) -> u8
        ensures { result ≡ number_of self }
    {
        self as u8
    }
}
