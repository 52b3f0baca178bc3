//! How the link between two domains carries.

ghost use Rattle.std.specs.Prelude.{◌≡◌, ◌<◌, ℕ, Bool, IfSome, length, position};
ghost use Rattle.domain_parts.specs.AllMoved.{ends_of};
ghost use Rattle.domain_parts.specs.Carried.{MayMeet, PeersMeet};
ghost use Rattle.domain_parts.specs.Carrying.{AreJoined, LinksMeet, leads_to};

use crate::ends::Ends;
use crate::link::Link;
use crate::peer::Peer;
use crate::peer_lane::PeerLane;
use lane_end::{MeetsEnd, RecvEnd};

/// Ends towards a peer that can carry to the peer's ends.
pub trait MeetingEnds: PeerLane {
    /// Whether they are the ends of a link to the domain of this number.
    ghost leads: { ℕ → Self → Bool };

    /// Whether two are the ends of both lanes of one link.
    ghost May: { Self → Self → Type 0 };

    /// Whether a meeting of the first two makes them the last two.
    ghost Met: { Self → Self → Self → Self → Type 0 };

    /// Returns whether they are the ends of a link to the domain of this number.
    fn leads_to(&self, number: u8) -> bool
        ensures { result ≡ leads number self.now };

    /// Has the ends of both lanes meet: each then knows all that the other did. What is free, shown and out stays.
    fn meet(&mut self, other: &mut Self)
        requires { May self.old other.old }
        ensures { Met self.old other.old self.new other.new };

    /// A meeting leaves what is free, shown and out at both.
    ghost same_seen: { (a b c d : Self) → Met a b c d → (Self.seen c ≡ Self.seen a) × (Self.seen d ≡ Self.seen b) };
}

impl<S: MeetsEnd<R>, R: RecvEnd> MeetingEnds for Ends<S, R> {
    ghost use Rattle.domain_parts.specs.Carrying.{leads_to as leads_among};
    ghost use Rattle.domain_parts.specs.Carried.{AreJoinedEnds, EndsMeet};
    ghost use Rattle.domain_parts.specs.Meets.{joined-seen};

    ghost leads = { leads_among };

    ghost May = { AreJoinedEnds S.May };

    ghost Met = { EndsMeet S.Met };

    ghost same_seen = { joined-seen S.size S.free R.size R.shown R.out S.Met S.same_seen };

    fn leads_to(&self, number: u8) -> bool {
        leads_to(self, number)
    }

    fn meet(&mut self, other: &mut Self) {
        if let (Ends::Linked(a), Ends::Linked(b)) = (self, other) {
            meet_link(a, b);
        }
    }
}

/// Has the ends of both lanes of a link meet.
fn meet_link<S: MeetsEnd<R>, R: RecvEnd>(a: &mut Link<S, R>, b: &mut Link<S, R>)
    requires { AreJoined S.May a.old b.old }
    ensures { LinksMeet S.Met a.old b.old a.new b.new }
{
    a.send.meet(&mut b.recv);
    b.send.meet(&mut a.recv);
}

/// Returns whether these are the ends of a link to the domain of this number.
fn leads_to<S, R>(ends: &Ends<S, R>, number: u8) -> bool
    ensures { result ≡ leads_to number ends.now }
{
    match ends {
        Ends::Own(_) => false,
        Ends::Linked(link) => link.peer == number,
    }
}

/// Has the ends of two domains towards each other meet. They are found by the domains' numbers.
pub fn carry_between<P: MeetingEnds>(ones: &mut [Peer<P>], one: u8, twos: &mut [Peer<P>], two: u8)
    requires { MayMeet P.leads P.May one two (ends_of ones.old) (ends_of twos.old) }
    ensures { PeersMeet P.leads P.Met one two ones.old twos.old ones.new twos.new }
{
    let Some(place) = place_of_link(ones, two) else {
        return;
    };
    let Some(back) = place_of_link(twos, one) else {
        return;
    };
    ones[place].ends.meet(&mut twos[back].ends);
}

/// The place of the peer to which a link leads.
fn place_of_link<P: MeetingEnds>(peers: &[Peer<P>], number: u8) -> Option<usize>
    ensures place { result ≡ position (λ p. P.leads number p.ends) peers.now }
    ensures within { IfSome result (λ i. i < length peers.now) }
{
    peers.iter().position(|p| p.ends.leads_to(number))
}
