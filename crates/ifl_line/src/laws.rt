//! What the parts of a run come to, in the subject's own words. A law is a function that does nothing, and its contract
//! is the law.
ghost use Rattle.std.specs.Prelude.{◌≡◌, ◌<◌, ◌+◌, ◌++◌, ℕ, List, None, length, map, slice_index_or, All};
ghost use Rattle.std.specs.List.{AllWithin};
ghost use Rattle.ifl_device.specs.declared.plan.EnginePlan.{EnginePlan};
ghost use Rattle.ifl_pcap.specs.declared.frame.Frame.{Frame};
ghost use Rattle.ifl_pool.specs.declared.history.Counts.{Counts};
ghost use Rattle.ifl_pool.specs.History.{counts_sum};
ghost use Rattle.ifl_ring.specs.Merges.{IsMerge};
ghost use Rattle.ifl_ringcore.specs.declared.history.Entry.{Entry};
ghost use Rattle.ifl_ringcore.specs.History.{state_after};
ghost use Rattle.ifl_ringcore.specs.State.{first_state};
ghost use Rattle.ifl_txq.specs.declared.line.OrderLine.{OrderLine};
ghost use Rattle.ifl_txq.specs.Standing.{AreTickets, packets as packets_in, weight_of as weight_in};
ghost use Rattle.ifl_line.specs.declared.away_line.AwayLine.{AwayLine};
ghost use Rattle.ifl_line.specs.declared.jobs.Job.{Job};
ghost use Rattle.ifl_line.specs.declared.line.Line.{Line};
ghost use Rattle.ifl_line.specs.declared.rules.Policy.TheVariants.{Retry};
ghost use Rattle.ifl_line.specs.declared.rules.Rules.{Rules};
ghost use Rattle.ifl_line.specs.Causes.{AreOfLength, FollowsPlan, IsSentWhole};
ghost use Rattle.ifl_line.specs.Frames.{IsByLength};
ghost use Rattle.ifl_line.specs.Good.{IsLawful};
ghost use Rattle.ifl_line.specs.Jobs.{HasEnded, MayBegin};
ghost use Rattle.ifl_line.specs.Runs.{AreShort, IsAccount, all_from, all_lines, published};
ghost use Rattle.ifl_line.specs.Sent.{IsSent};
ghost use Rattle.ifl_line.specs.Steps.{packets, weigh};
ghost use Rattle.ifl_line.specs.Works.{AllDone, AreAt, AreSet, tasks_of};

use ifl_desc::DescRing;

/// Two parts of a run, the numbers of whose senders follow on each other, are one part: its entries are those of both,
/// merged, and its counts are their sums.
pub fn two_parts_are_one()
    ensures { (size : ℕ) (r : Rules) (s : ℕ) (files others : List (List Frame)) (turned away : List (List AwayLine)) (xs ys zs : List Entry) (c d : Counts) → IsSent size r s files turned xs c → IsSent size r (s + length files) others away ys d → IsMerge xs ys zs → IsSent size r s (files ++ others) (turned ++ away) zs (counts_sum c d) }
{}

/// A whole run accounts for its files: every record is a packet or has a line, once; each sender's packets stand in the
/// order of its file, and the lines in the order of sender and record; packets are fit frames, whole; and the others are
/// what their line says.
pub fn a_run_accounts_for_its_files()
    ensures { (size : ℕ) (r : Rules) (files : List (List Frame)) (turned : List (List AwayLine)) (es : List Entry) (c : Counts) → AreShort files → IsSent size r 0 files turned es c → IsAccount size r files es turned }
{}

/// No two packets of a whole run have one ticket, and each has that of a record.
pub fn packets_have_tickets_of_their_own()
    ensures { (size : ℕ) (r : Rules) (files : List (List Frame)) (turned : List (List AwayLine)) (es : List Entry) (c : Counts) → AreShort files → IsSent size r 0 files turned es c → AreTickets (map length files) (published es) }
{}

/// Where frames are not dropped, every frame that is turned away is too short or too long.
pub fn retry_turns_away_by_length_alone()
    ensures { (size : ℕ) (r : Rules) (files : List (List Frame)) (turned : List (List AwayLine)) (es : List Entry) (c : Counts) → AreShort files → r.policy ≡ Retry → IsSent size r 0 files turned es c → All (λ l. IsByLength l.away) (all_lines turned) }
{}

/// Where frames are not dropped, and the engine neither hangs nor is stopped, every fit frame that is not too long for
/// the adapter is on the wire.
pub fn an_undisturbed_run_sends_every_frame()
    ensures { (size max descriptors : ℕ) (r : Rules) (plan : EnginePlan) (files : List (List Frame)) (order : List OrderLine) (away : List AwayLine) (es : List Entry) → r.policy ≡ Retry → plan.hang_after ≡ 0 → plan.flush_after ≡ None → IsLawful size r files order away es → AreOfLength max files order → FollowsPlan plan descriptors order → All (IsSentWhole max r files order) (all_from 0 files) }
{}

/// The items that a ring records are those that were published, of which the packets and the weight are what its
/// entries published.
pub fn a_ring_records_what_was_published()
    ensures items { (es : List Entry) → (state_after first_state es).items ≡ published es }
    ensures packets { (es : List Entry) → packets_in (published es) ≡ packets es }
    ensures weight { (es : List Entry) → weight_in (published es) ≡ weigh es }
{}

/// The jobs that are made may begin.
pub fn set_jobs_may_begin<R: DescRing>()
    ensures { (line : Line R R.Driver R.Device R.Closed) (jobs : List (Job R R.Driver R.Device R.Closed)) → AreAt line jobs → AreSet line 0 (tasks_of jobs) → AllWithin (λ (x : _). MayBegin x) jobs 0 (length jobs) }
{}

/// Jobs that were made and have ended are done, and have the captures and the parts that they had.
pub fn ended_jobs_are_done<R: DescRing>()
    ensures { (line : Line R R.Driver R.Device R.Closed) (jobs ran : List (Job R R.Driver R.Device R.Closed)) → AreAt line jobs → AreSet line 0 (tasks_of jobs) → length ran ≡ length jobs → ((i : ℕ) (d : Job R R.Driver R.Device R.Closed) → i < length jobs → HasEnded (slice_index_or jobs i d) (slice_index_or ran i d)) → AllDone line 0 (tasks_of jobs) (tasks_of ran) }
{}
