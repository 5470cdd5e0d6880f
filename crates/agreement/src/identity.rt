// Which image FB tells.
ghost use Rattle.std.specs.Prelude.{◌≡◌};
ghost use Rattle.agreement.specs.FB.{identity_of};

use requests::request::RequestFB;
use transfer::identity::Identity;

pub(crate) fn told(r: RequestFB) -> Identity
    ensures { result ≡ identity_of r }
{
    // An array goes into another struct by a variable: taken straight from the field it gets no proof.
    let version = r.version;
    let md5 = r.md5;
    Identity {
        channel: r.channel,
        version,
        announced: r.length,
        md5,
        crc: r.crc,
    }
}
