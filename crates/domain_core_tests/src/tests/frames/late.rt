//! Connects that come while no reply can go, from a peer that is no domain.

ghost use Rattle.std.specs.Prelude.{◌≡◌, ◌<◌, [], IfOk, refl};
ghost use Rattle.lane_end.specs.AnySender as any_sender;
ghost use Rattle.domain_core.specs.Opening.{IsOpenLink};

use super::*;
use domain_core::Link;
use mc_base::Buffer;

/// A Connect from address 1030 to address 1024, which no endpoint has.
const CONNECT: &[u8] =
    b"\x06\x04\x00\x00\x00\x04\x00\x00\x00\x00\x00\x00\x08\x00\x00\x00\x4d\x01\x02\x00\x01\x00\x00\x00";

/// A frame with a fault.
const SHORT: &[u8] = b"\x00";

/// The receiving end of a lane of 256 buffers, whose first looks show nothing.
#[derive(Drop)]
struct Late {
    recv: PlainRecv,
    /// How many looks are still to show nothing.
    quiet: u32,
    ghost size: { recv.size ≡ 256 },
    ghost none_shown: { 0 < quiet → recv.shown ≡ 0 },
    ghost none_out: { 0 < quiet → recv.out ≡ [] },
}

impl Late {
    /// With 65 Connects, which the 258th look shows.
    fn new(alloc: Global) -> Result<Late, LaneFault>
        ensures none_shown { IfOk result (λ late. late.recv.shown ≡ 0) }
        ensures none_out { IfOk result (λ late. late.recv.out ≡ []) }
    {
        let mut feed = Feed::new(alloc)?;
        for _ in 0..65 {
            feed.give(CONNECT);
        }
        Ok(Late {
            recv: feed.recv,
            quiet: 257,
        })
    }
}

impl RecvEnd for Late {
    ghost size = { λ late. 256 };

    ghost shown = { λ late. late.recv.shown };

    ghost out = { λ late. late.recv.out };

    ghost Moved = { λ before moves after. Unit {0} };

    ghost none = { λ late. tt };

    ghost both = { λ a b c xs ys first then. tt };

    ghost same_size = { λ a b xs moved. refl };

    fn look(&mut self) -> u32 {
        if self.quiet > 0 {
            self.quiet -= 1;
            return 0;
        }
        self.recv.look()
    }

    fn take(&mut self) -> (Buffer, u32) {
        self.quiet = 0;
        self.recv.take()
    }

    fn give_back(&mut self, buffer: Buffer) {
        self.quiet = 0;
        self.recv.give_back(buffer);
    }
}

/// The link to domain 1, whose Connects come late.
fn late_link(alloc: Global) -> Result<Link<AnySend<'static>, Late>, Fail>
    ensures peer { IfOk result (λ l. l.peer ≡ 1) }
    ensures open { IfOk result (IsOpenLink any_sender.size_of_any any_sender.free_of_any (λ late. 256) (λ late. late.recv.shown) (λ late. late.recv.out)) }
{
    let Ok((send, _)) = plain_lane(alloc, 256) else {
        return Err("no lane".into());
    };
    let Ok(recv) = Late::new(alloc) else {
        return Err("no lane".into());
    };
    Ok(Link {
        peer: 1,
        size: 256,
        send: AnySend::Plain(send),
        recv,
    })
}

type LateDomain = Domain<AnySend<'static>, Late>;

/// Domain 0 with that link.
fn connecting(alloc: Global) -> Result<LateDomain, Fail> {
    let links = only(alloc, late_link(alloc)?)?;
    let domain = Domain::open(alloc, 0, 1, 2, links)?;
    Ok(domain)
}

/// Puts frames until no buffer of the lane to the peer is free, which takes none. Returns whether there were 256.
fn fill(domain: &mut LateDomain, journal: &mut Journal) -> Result<bool, NoMemory> {
    let mut all_put = true;
    for _ in 0..256 {
        journal.reserve(176, 90_112)?;
        all_put &= domain.raw_put(journal, 1, SHORT).is_ok();
    }
    journal.reserve(176, 90_112)?;
    Ok(all_put && domain.raw_put(journal, 1, SHORT) == Err(Refusal::NoBuffer))
}

/// Fills the lane to the peer, and makes nine turns, in which the domain takes 65 frames.
fn fill_and_turn(domain: &mut LateDomain, journal: &mut Journal) -> Result<bool, NoMemory> {
    let is_full = fill(domain, journal)?;
    for _ in 0..9 {
        journal.reserve(176, 90_112)?;
        domain.turn(journal);
    }
    Ok(is_full)
}

/// What becomes of the Connects.
fn fates_of_connects() -> [Row; 65] {
    let mut rows = [(Frame(CONNECT), Fate::Owed); 65];
    rows[64].1 = Fate::RepliesFull;
    rows
}

#[test]
fn sixty_five_connects_while_no_reply_can_go(rt: HostRuntime) -> Result<(), Fail> {
    let mut journal = Journal::new(rt.alloc())?;
    assert_of(connecting(rt.alloc()), |domain| {
        assert!(rt; fill_and_turn(domain, &mut journal)?);
        assert_fates(&rt, &journal, &fates_of_connects());
        Ok(())
    })
}
