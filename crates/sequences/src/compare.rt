// Byte strings compared.
ghost use Rattle.std.specs.Prelude.{◌≡◌};
ghost use Rattle.sequences.specs.Comparing.{same};

// Whether the bytes are the same, as they stand.
#[tactic(auto, using(crate::proofs::Sames::equality_is_same))]
pub fn same(a: &[u8], b: &[u8]) -> bool
    ensures { result ≡ same a.now b.now }
{
    a == b
}
