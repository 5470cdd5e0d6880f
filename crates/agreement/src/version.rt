// Versions compared.
ghost use Rattle.std.specs.Prelude.{◌≡◌};
ghost use Rattle.agreement.specs.Versions.{newer};

// Whether version a is above b: part by part, first part first.
pub fn newer(a: [u8; 3], b: [u8; 3]) -> bool
    ensures { result ≡ newer a b }
{
    a > b
}
