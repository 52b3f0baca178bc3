//! Laws of relays. The functions have no code; their contracts are the laws.

ghost use Rattle.hop_relay.specs.Hop.{MiddleLogsAreHops};
ghost use Rattle.hop_relay.specs.LogDeeds.{LogsHavePackets};
ghost use Rattle.hop_relay.specs.RelayLaw.{HopsFitLogs, UnnumberedAreEmpty, RelaysKeepOrder};
ghost use Rattle.hop_relay.specs.RelayRun.{OutcomesAreRelayRuns};

/// Shows that a domain between sends the packets that it received, in the same order, and holds one at most, at each place of its log.
pub fn middle_logs_are_hops()
    ensures { MiddleLogsAreHops }
{}

/// Shows that the packets which a domain's log sent and received are those that its run sent and received.
pub fn logs_have_the_packets_of_runs()
    ensures { LogsHavePackets }
{}

/// Shows that the channel of each hop of a relay accepted what the log of the domain before it sent, and that what was taken of it is what the
/// log of the domain behind it received.
pub fn hops_fit_their_logs()
    ensures { HopsFitLogs }
{}

/// Shows that nothing is accepted, taken or left on a channel that was never numbered.
pub fn unnumbered_channels_are_empty()
    ensures { UnnumberedAreEmpty }
{}

/// Shows that what the far end of a relay took is the first of what the source put, that the rest is on the way in its order, and that the
/// source put the first of the packets. Nothing says that all arrive.
pub fn relays_keep_order()
    ensures { RelaysKeepOrder }
{}

/// Shows that what `run_relay` returns tells a run of a relay, of which the other laws hold.
pub fn relay_outcomes_are_relay_runs()
    ensures { OutcomesAreRelayRuns }
{}
