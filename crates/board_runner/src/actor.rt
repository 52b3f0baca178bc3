//! Actors.

ghost use Rattle.std.specs.Prelude.{◌≡◌, ◌≤◌, ◌<◌, ℕ, List, Option, IfOk, IfSome, IfNone, option_map};
ghost use Rattle.board_model.specs.declared.scenario.CallLine.{CallLine as Line};
ghost use Rattle.board_model.specs.Logs.{LoggedCall};
ghost use Rattle.mc_journal.specs.Entry.{plain_answer};
ghost use Rattle.board_runner.specs.ActorLogs.{IsToldFor, MayFollow, lines_in_log, log_so_far};

use board_model::CallLine;
use domain_core::Answer;
use mc_base::NoMemory;

/// A domain whose next line depends on what it was answered (docs/PROFILE.md, "Actors").
///
/// [`run_actors`](crate::run_actors) asks for a line, runs it at the actor's domain, and asks again with the answer, until there is no
/// further line. The log of an actor is the list of its lines so far, each with its answer.
pub trait Actor: Drop {
    /// Plain data that tell which actor it is, and from what it was made.
    type Role;

    /// Its role, which no call changes.
    ghost role: { Self → Self.Role };

    /// The number of its domain, which no call changes.
    ghost domain: { Self → ℕ };

    /// A number that falls with each line.
    ghost todo: { Self → ℕ };

    /// The line that its last call gave, or none.
    ghost asked: { Self → Option Line };

    /// It is where this log leads.
    ghost Fits: { Self → List LoggedCall → Type 0 };

    /// It gives no line after this log.
    ghost Ends: { Self → List LoggedCall → Type 0 };

    /// Returns the next line, or `None` where there is none. `told` is the answer to the line of the call before, and `None` at first.
    ///
    /// Each line is one of the actor's own domain, is no `raw` line, and may be told after the actor's earlier lines (docs/FORMATS.md,
    /// "Scenario files").
    ///
    /// # Errors
    ///
    /// `NoMemory` where an allocation fails.
    fn next(&mut self, told: Option<&Answer<'_>>) -> Result<Option<CallLine>, NoMemory>
        requires told { IsToldFor (asked self.old) (option_map (λ a. plain_answer a.now) told) }
        ensures role { IfOk result (λ line. role self.new ≡ role self.old) }
        ensures domain { IfOk result (λ line. domain self.new ≡ domain self.old) }
        ensures asked { IfOk result (λ line. asked self.new ≡ line) }
        ensures todo { IfOk result (λ line. todo self.new ≤ todo self.old) }
        ensures falls { IfOk result (λ line. IfSome line (λ l. todo self.new < todo self.old)) }
        ensures fits { IfOk result (λ line. (log : List LoggedCall) → Fits self.old log → Fits self.new (log_so_far log (asked self.old) (option_map (λ a. plain_answer a.now) told.entry))) }
        ensures ends { IfOk result (λ line. IfNone line ((log : List LoggedCall) → Fits self.old log → Ends self.new (log_so_far log (asked self.old) (option_map (λ a. plain_answer a.now) told.entry)))) }
        ensures follows { IfOk result (λ line. IfSome line (λ l. (log : List LoggedCall) → Fits self.old log → MayFollow (domain self.old) (lines_in_log (log_so_far log (asked self.old) (option_map (λ a. plain_answer a.now) told.entry))) l)) };
}
