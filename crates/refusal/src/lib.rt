// The refusals of every call. A new one is a line in `Refusal`, in its number and in `refusal_number` of `specs/Verdict.antt`; which
// of them a call can give is said by its contract.
#![tactic(auto)]

ghost use Rattle.std.specs.Prelude.{◌≡◌};
ghost use Rattle.refusal.specs.Verdict.{refusal_number};

// "Numbers and their trade words."
#[derive(Clone, Copy, Debug, PartialEq, Eq)]
pub enum Refusal {
    Torn,
    Edition,
    Extent,
    Margin,
    OffSheet,
    Unpriced,
    Standing,
    ShortSheet,
    Budget,
    Idle,
    Scattered,
    CutOff,
    Repeated,
    Foreign,
    Unjoined,
    Missed,
    StrayPair,
    BadMarks,
    BadWindow,
    MustShut,
    NoMark,
    Full,
    Rounds,
}

// The number of a refusal.
impl From<Refusal> for u8 {
    ghost from_gives = { λ r n. n ≡ refusal_number r };

    fn from(r: Refusal) -> u8
        ensures { result ≡ refusal_number r }
    {
        match r {
            Refusal::Torn => 1,
            Refusal::Edition => 2,
            Refusal::Extent => 3,
            Refusal::Margin => 4,
            Refusal::OffSheet => 5,
            Refusal::Unpriced => 6,
            Refusal::Standing => 7,
            Refusal::ShortSheet => 8,
            Refusal::Budget => 9,
            Refusal::Idle => 10,
            Refusal::Scattered => 11,
            Refusal::CutOff => 12,
            Refusal::Repeated => 13,
            Refusal::Foreign => 14,
            Refusal::Unjoined => 15,
            Refusal::Missed => 16,
            Refusal::StrayPair => 17,
            Refusal::BadMarks => 18,
            Refusal::BadWindow => 19,
            Refusal::MustShut => 20,
            Refusal::NoMark => 21,
            Refusal::Full => 22,
            Refusal::Rounds => 23,
        }
    }
}

// Nothing where all is well, or the first refusal that applies.
pub type Verdict = Result<(), Refusal>;
