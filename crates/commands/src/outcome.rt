// What a call comes to, for both ends, and its number in documents 01 and 02.
ghost use Rattle.std.specs.Prelude.{◌≡◌};
ghost use Rattle.commands.specs.Outcomes.{outcome_number};

#[derive(Clone, Copy, PartialEq, Eq)]
pub enum Outcome {
    Accepted,
    NoFrameYet,
    UnlistedCommand,
    WrongHeader,
    UnlistedChannel,
    ShortRoom,
    OtherArea,
    BadArea,
    BadList,
    RulesBroken,
    WrongPhase,
    ShortReportRoom,
    CheckRuns,
    NoCheckRuns,
    Unfinished,
    WrongImage,
    WrongReply,
}

impl From<Outcome> for u8 {
    ghost from_gives = { λ o n. n ≡ outcome_number o };

    fn from(outcome: Outcome) -> u8 {
        match outcome {
            Outcome::Accepted => 0,
            Outcome::NoFrameYet => 1,
            Outcome::UnlistedCommand => 2,
            Outcome::WrongHeader => 3,
            Outcome::UnlistedChannel => 4,
            Outcome::ShortRoom => 5,
            Outcome::OtherArea => 6,
            Outcome::BadArea => 7,
            Outcome::BadList => 8,
            Outcome::RulesBroken => 9,
            Outcome::WrongPhase => 10,
            Outcome::ShortReportRoom => 11,
            Outcome::CheckRuns => 12,
            Outcome::NoCheckRuns => 18,
            Outcome::Unfinished => 19,
            Outcome::WrongImage => 20,
            Outcome::WrongReply => 21,
        }
    }
}
