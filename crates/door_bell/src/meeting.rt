//! Ends with bells that meet: the ends inside do. No bell rings.
ghost use Rattle.lane_end.specs.AnyLane.{AreEndsOfOneRing, EndsHaveMet};

use crate::bell_recv::BellRecv;
use crate::bell_send::BellSend;
use lane_end::{AnyRecv, AnySend, meet_ends};

impl<'a> BellSend<'a, AnySend<'a>> {
    /// Has the end inside meet the receiving end of its lane, which has a bell.
    pub fn meet(&mut self, recv: &mut BellRecv<'a, AnyRecv<'a>>)
        requires { AreEndsOfOneRing self.old.inner recv.old.inner }
        ensures { EndsHaveMet self.old.inner recv.old.inner self.new.inner recv.new.inner }
    {
        meet_ends(&mut self.inner, &mut recv.inner);
    }

    /// Has the end inside meet the receiving end of its lane, which has no bell.
    pub fn meet_polled(&mut self, recv: &mut AnyRecv<'a>)
        requires { AreEndsOfOneRing self.old.inner recv.old }
        ensures { EndsHaveMet self.old.inner recv.old self.new.inner recv.new }
    {
        meet_ends(&mut self.inner, recv);
    }
}

impl<'a> BellRecv<'a, AnyRecv<'a>> {
    /// Has the end inside meet the sending end of its lane, which has no bell.
    pub fn meet_polled(&mut self, send: &mut AnySend<'a>)
        requires { AreEndsOfOneRing send.old self.old.inner }
        ensures { EndsHaveMet send.old self.old.inner send.new self.new.inner }
    {
        meet_ends(send, &mut self.inner);
    }
}
