// Claims of a group as they are given: the edition, the dollars, and as many bits.
ghost use Rattle.std.specs.Prelude.{◌≡◌, length};

use group::edition::Edition;

#[derive(Clone, Copy)]
pub struct GivenClaims<'a> {
    pub edition: Edition,
    pub joined: &'a [u8],
    pub dollars: &'a [u32],
    pub ghost same: { length joined.now ≡ length dollars.now },
}

impl<'a> GivenClaims<'a> {
    ghost use Rattle.std.specs.Prelude.{◌≡◌, ◌≤◌, length, take, drop};
    ghost use Rattle.putting.specs.Claims.{claims_are};

    // The first k claims, and those after them.
    pub fn split_at(self, k: usize) -> (GivenClaims<'a>, GivenClaims<'a>)
        requires { k ≤ length self.dollars.now }
        ensures front { claims_are result.0 ≡ take k (claims_are self.entry) }
        ensures back { claims_are result.1 ≡ drop k (claims_are self.entry) }
        ensures same_edition { (result.0.edition ≡ self.entry.edition) × (result.1.edition ≡ self.entry.edition) }
    {
        let (joined, later_joined) = self.joined.split_at(k);
        let (dollars, later_dollars) = self.dollars.split_at(k);
        let edition = self.edition;
        let later = GivenClaims {
            edition,
            joined: later_joined,
            dollars: later_dollars,
        };
        let first = GivenClaims {
            edition,
            joined,
            dollars,
        };
        (first, later)
    }
}
