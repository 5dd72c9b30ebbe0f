//! Laws of the definitions. Each is the contract of a function that does nothing.
ghost use Rattle.command_line.specs.RunLaws.{AskedIsMeant, RunsAreOne};
ghost use Rattle.command_line.specs.WordLaws.{AllowWords, CheckWords, ExplainWords, MergeWords, OptionsWords, ReplayWords, SourcesWords, VerdictsWords};

/// `merge --sheet SHEET REPORT..` asks for the merge of these reports, in this order, whatever the
/// level of a row is.
#[tactic(auto, using(crate::proofs::Asking::merge_words))]
pub fn merge_words()
    ensures { MergeWords }
{}

/// `merge --sheet SHEET --allow LEVEL REPORT..` asks for a merge with this level.
#[tactic(auto, using(crate::proofs::Asking::allow_words))]
pub fn allow_words()
    ensures { AllowWords }
{}

/// `verdicts --sheet SHEET REPORT..` asks for the verdicts on these reports, as lines. `--format
/// json`, `--format csv` and `--format csv --spreadsheet` ask for another format.
#[tactic(auto, using(crate::proofs::Asking::verdicts_words))]
pub fn verdicts_words()
    ensures { VerdictsWords }
{}

/// `sources` does the same for the sources of facts.
#[tactic(auto, using(crate::proofs::Asking::sources_words))]
pub fn sources_words()
    ensures { SourcesWords }
{}

/// `check --sheet SHEET REPORT` asks for a check of this report alone; several reports, or `--format`
/// with one or more, for a check of these reports in their order, as lines or in this format.
#[tactic(auto, using(crate::proofs::Asking::check_words))]
pub fn check_words()
    ensures { CheckWords }
{}

/// `explain --sheet SHEET REPORT..` asks for the faults of these reports, as text, or with
/// `--format json` as JSON.
#[tactic(auto, using(crate::proofs::Asking::explain_words))]
pub fn explain_words()
    ensures { ExplainWords }
{}

/// `replay --sheet SHEET --replicas 2 --events EVENTS REPORT..` asks for this schedule on two
/// replicas.
#[tactic(auto, using(crate::proofs::Asking::replay_words))]
pub fn replay_words()
    ensures { ReplayWords }
{}

/// `merge` reads its other options likewise: a file of names that end with NUL, the file and the
/// bound of the output, and whether progress and second lines are shown.
#[tactic(auto, using(crate::proofs::Asking::options_words))]
pub fn options_words()
    ensures { OptionsWords }
{}

/// Words that ask for a command mean nothing else.
#[tactic(auto, using(crate::proofs::OneRun::asked_is_meant))]
pub fn asked_is_meant()
    ensures { AskedIsMeant }
{}

/// Two runs whose words mean the same command or the bundle, with the same standard input and the
/// same bytes under each name, and with statuses below 3: the same text, the same status and the
/// same lines, whatever was written before. If no file repeats a key, two runs of `explain` list the
/// same faults and return the same status; only sentences may differ. Help is excepted.
pub fn runs_are_one()
    ensures { RunsAreOne }
{}
