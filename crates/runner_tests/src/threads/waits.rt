//! Waits of domains on threads: each makes its own turns until the other domain did its part.

use crate::threads::{Answered, Due, first_wrong, run};
use board_runner::{NoGate, Totals};
use mc_base::Refusal;
use std::test::Fail;

static WAITS: &[u8] = b"domain 0 nodes 1 pool 2
domain 1 nodes 1 pool 2
link 0 1 size 2
0.0 create 1
0.0 a = lookup 1:0:2
0.0 wait a 400000000
0.0 msg_send 1 1:0:2 0 61
0.0 wait a 0
1.0 create 2
1.0 r = msg_recv_i 2 9
1.0 b = lookup 1:0:9
1.0 wait_any b,r 400000000
1.0 wait b 3
";

const ONE_MESSAGE: Totals = Totals {
    accepted: 1,
    taken: 1,
    dropped: 0,
    queued: 0,
    ring: 0,
};

static ANSWERS: [Answered; 4] = [
    (0, 3, Due::Found(1024)),
    (0, 5, Due::Refused(Refusal::RequestInvalid)),
    (1, 4, Due::BroughtBySecond(0x61)),
    (1, 5, Due::Refused(Refusal::Timeout)),
];

#[test]
fn each_domain_waits_for_the_other(rt: HostRuntime) -> Result<(), Fail> {
    let outcome = run(&rt, rt.alloc(), WAITS, &NoGate).ok_or("memory")?;
    assert!(rt; first_wrong(&outcome, &ANSWERS) == None);
    assert!(rt; outcome.messages == ONE_MESSAGE);
    Ok(())
}
