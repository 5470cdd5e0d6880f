// The record by value.
ghost use Rattle.std.specs.Prelude.{◌≡◌};
ghost use Rattle.controller.specs.Records.{unlawful_record, is_checking};

use frames::reader::Reader;
use fronts::MAX_FRAME;
use session::session::Session;

#[derive(Clone, Copy)]
pub struct Record {
    pub reader: Reader,
    pub session: Session,
}

impl Record {
    // Whether the record breaks its rules: outcome 9's sentence.
    #[tactic(auto, unfolding(crate::specs::Records::unlawful_record))]
    pub fn unlawful(self) -> bool
        ensures { result ≡ unlawful_record self }
    {
        MAX_FRAME < self.reader.count || self.session.unlawful()
    }

    // Whether an end check runs: portions of it are due.
    pub fn is_checking(self) -> bool
        ensures { result ≡ is_checking self }
    {
        self.session.transfer.check.running
    }
}
