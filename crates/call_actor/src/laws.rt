//! The law of a run. The function has no code; its contract is the law.

ghost use Rattle.call_actor.specs.CallsRun.{OutcomesAreCallsRuns};

/// Shows that what [`run_calls`](crate::run_calls) leaves is a run of the board in which each domain's log fits its role. So the laws of
/// numbered calls hold of it (`call_logs`): calls are carried out in order and once, and clients get what was carried out.
pub fn calls_outcomes_are_calls_runs()
    ensures { OutcomesAreCallsRuns }
{}
