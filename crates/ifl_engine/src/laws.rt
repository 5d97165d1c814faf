//! Laws above the clauses of `run`, on which callers may build. Each is a function that does nothing, and its contract
//! is the law.
ghost use Rattle.std.specs.Prelude.{◌≡◌, ◌⊎◌, ℕ, List, Option, Some, None, Result, Ok, Err, All};
ghost use Rattle.ifl_outside.specs.Files.{Files, held};
ghost use Rattle.ifl_outside.specs.Causes.{Rose};
ghost use Rattle.ifl_conf.specs.declared.choices.Policy.TheVariants as policy;
ghost use Rattle.ifl_conf.specs.declared.choices.StopMode.TheVariants as mode;
ghost use Rattle.ifl_conf.specs.declared.keys.KeyName.TheVariants.{AdapterHangAfter, FramesPolicy, StopMode};
ghost use Rattle.ifl_conf.specs.Choices.{mode_text, policy_text};
ghost use Rattle.ifl_conf.specs.Keys.{number, word};
ghost use Rattle.ifl_pcap.specs.declared.frame.Frame.{Frame};
ghost use Rattle.ifl_line.specs.Causes.{IsSentWhole};
ghost use Rattle.ifl_line.specs.Runs.{all_from};
ghost use Rattle.ifl_engine.specs.declared.report.Report.{Report};
ghost use Rattle.ifl_engine.specs.Loading.{Chosen};
ghost use Rattle.ifl_engine.specs.Report.{IsGood};
ghost use Rattle.ifl_engine.specs.declared.report.Finished.{Finished as Ended};
ghost use Rattle.ifl_engine.specs.declared.stop.Stop.{Stop as Stopped};
ghost use Rattle.ifl_engine.specs.declared.stop.Input.{Input as Read};
ghost use Rattle.ifl_engine.specs.Words.{Named};
ghost use Rattle.ifl_engine.specs.Tracing.{IsLegalSchedule};
ghost use Rattle.ifl_engine.specs.Account.{Source, IsAccount, gave};
ghost use Rattle.ifl_engine.specs.Wanted.{Work, tracing};
ghost use Rattle.ifl_engine.specs.Seen.{Seen};
ghost use Rattle.ifl_engine.specs.Answer.{CallsFor, IsAnswer};

/// Where the host has not failed, a run's account of the files is what the host tells of them.
#[tactic(auto, using(crate::proofs::Clauses::told_files))]
pub fn accounts_are_what_is_told()
    ensures { (fs : Files) (source : Source) (before after : ℕ) → ¬ Rose before after → IsAccount (Some fs) (Rose before after) source
        → (which : Read) (name : List ℕ) → source which name ≡ gave (held fs name) }
{}

/// Where the host has not failed, the status is the one that the words and the files call for, or memory ran out.
#[tactic(auto, using(crate::proofs::Clauses::complete))]
pub fn runs_complete()
    ensures { (names : Named) (work : Result Work Stopped) (before after : Seen) (result : Ended) → IsAnswer names work before after result
        → ¬ Rose before.faults after.faults → CallsFor work result.status ⊎ (result.status ≡ 6) }
{}

/// What stops a run before its frames are sent leaves no report: a read that failed, too.
#[tactic(auto, using(crate::proofs::Clauses::unreported))]
pub fn stops_leave_no_report()
    ensures { (names : Named) (why : Stopped) (before after : Seen) (result : Ended) → IsAnswer names (Err why) before after result → result.report ≡ None }
{}

/// A schedule that was read ends with status 5 only where it is legal: a bad one keeps its status.
#[tactic(auto, using(crate::proofs::Clauses::legal_at_five))]
pub fn bad_schedules_keep_their_status()
    ensures { (names : Named) (schedule : List ℕ) (before after : Seen) (result : Ended) → IsAnswer names (Ok (tracing schedule)) before after result
        → result.status ≡ 5 → IsLegalSchedule schedule }
{}

/// Where the settings say that no frame is dropped, that the engine never hangs and that the run drains, the report of
/// a good run has every fit frame that is not too long for the adapter on the wire.
pub fn undisturbed_runs_send_every_frame()
    ensures { (set : Chosen) (captures : List (List Frame)) (r : Report) (good : IsGood set captures r) → set FramesPolicy ≡ Some (word (policy_text policy.Retry)) → set StopMode ≡ Some (word (mode_text mode.Drain)) → set AdapterHangAfter ≡ Some (number 0)
        → All (IsSentWhole good.run.sizes.max_segs good.run.rules captures r.order) (all_from 0 captures) }
{}
