//! Tests of the program's forms and of the verdicts on reports, by the public calls of `scenario_cli` and `report_check`, in a crate
//! of their own so that each crate is proved once.
#![tactic(auto)]

#[cfg(test)]
mod forms;
#[cfg(test)]
mod verdicts;
