// What a kind of CRC of 16 bits without a final xor has of its own.
use folding::message::Fold;

// The polynomial, written reflected where the kind is, is for the contracts: the code needs only the tables and offsets made from it.
#[derive(Clone, Copy)]
pub(crate) struct Parameters {
    pub poly: u16,
    pub start: u16,
    pub fold: Fold<3>,
}
