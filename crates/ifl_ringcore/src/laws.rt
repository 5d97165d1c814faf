//! Laws above the definitions, in the ring's own words. Each is a function that does nothing, and its contract
//! is the law.

ghost use Rattle.std.specs.Prelude.{◌≡◌, ◌≤◌, ◌<◌, ◌+◌, ◌-◌, ◌*◌, ◌%◌, ◌^◌, ◌++◌, ◌∷◌, [], ◌↔◌, ℕ, Bool, not, List, length, None, IsSome};
ghost use Rattle.ifl_base.specs.declared.word.Flag.TheVariants.{Idle, Busy};
ghost use Rattle.ifl_base.specs.FlagAfter.{flag_after};
ghost use Rattle.ifl_base.specs.Space.{advanced, space};
ghost use Rattle.ifl_base.specs.Word.{number_of};
ghost use Rattle.ifl_ringcore.specs.declared.event.Event.{Event};
ghost use Rattle.ifl_ringcore.specs.declared.history.Entry.{Entry};
ghost use Rattle.ifl_ringcore.specs.declared.history.Meaning.{Meaning};
ghost use Rattle.ifl_ringcore.specs.declared.history.Step.{Step};
ghost use Rattle.ifl_ringcore.specs.declared.owner.Owner.{Owner};
ghost use Rattle.ifl_ringcore.specs.declared.schedule.Schedule.{Schedule};
ghost use Rattle.ifl_ringcore.specs.Conditions.{IsAllowed};
ghost use Rattle.ifl_ringcore.specs.Counters.{counters_among, counters_of, plus};
ghost use Rattle.ifl_ringcore.specs.Effects.{effect};
ghost use Rattle.ifl_ringcore.specs.Events.{seat_of, step_of, items_of};
ghost use Rattle.ifl_ringcore.specs.FlagSet.{IsFlagSet};
ghost use Rattle.ifl_ringcore.specs.History.{state_after, IsLegalHistory, AreSeatsBelow};
ghost use Rattle.ifl_ringcore.specs.Invariant.{RingInvariant, Cover};
ghost use Rattle.ifl_ringcore.specs.Owners.{IsOwner};
ghost use Rattle.ifl_ringcore.specs.Queue.{no_items, queue_after};
ghost use Rattle.ifl_ringcore.specs.Schedule.{IsRing, IsScheduleText, IsFirstBadLine};
ghost use Rattle.ifl_ringcore.specs.State.{RingState, first_state, ring_word};
ghost use Rattle.ifl_ringcore.specs.Table.{conditions, first_failing, sight_of};
ghost use Rattle.ifl_ringcore.specs.Trace.{replay_of};

/// All conditions of an event hold exactly where its seat is one of the ring's and its step may come.
pub fn conditions_hold_where_steps_are_allowed()
    ensures { (size seats : ℕ) (st : RingState) (e : Event) (items : List Meaning) → RingInvariant size st → length items ≡ items_of st e → ((first_failing (conditions (sight_of size seats st (seat_of e)) e) ≡ None) ↔ ((seat_of e < seats) × IsAllowed size st (seat_of e) (step_of items e))) }
{}

/// Each step that may come keeps the ring's invariant.
pub fn step_keeps_invariant()
    ensures { (size : ℕ) (st : RingState) (seat : ℕ) (step : Step) → RingInvariant size st → IsAllowed size st seat step → RingInvariant size (effect st seat step) }
{}

/// Every legal history leads from the first state to one that meets the ring's invariant.
pub fn history_keeps_invariant()
    ensures { (size : ℕ) (history : List Entry) → 4 ≤ size → IsLegalHistory size first_state history → RingInvariant size (state_after first_state history) }
{}

/// What the invariant says: released, published and reserved stand in this order and never more than the size
/// less two apart; the reservations cover what is reserved and not published, without gap or overlap; the ring
/// is idle exactly where all that is published is released, and busy exactly where it has a consumer.
pub fn invariant_orders_the_numbers()
    ensures order { (size : ℕ) (st : RingState) → RingInvariant size st → (st.released ≤ st.published) × (st.published ≤ st.reserved) × (st.reserved - st.released ≤ size - 2) }
    ensures cover { (size : ℕ) (st : RingState) → RingInvariant size st → Cover st.published st.reservations st.reserved }
    ensures idle { (size : ℕ) (st : RingState) → RingInvariant size st → ((st.flag ≡ Idle) ↔ (st.released ≡ st.published)) }
    ensures busy { (size : ℕ) (st : RingState) → RingInvariant size st → ((st.flag ≡ Busy) ↔ IsSome st.consumer) }
{}

/// A ring is a queue: what a legal history publishes comes at its end, and what it releases is taken from its
/// front, each item once.
pub fn ring_is_a_queue()
    ensures items { (size : ℕ) (history : List Entry) → 4 ≤ size → IsLegalHistory size first_state history → (queue_after no_items history).taken ++ (queue_after no_items history).waiting ≡ (state_after first_state history).items }
    ensures released { (size : ℕ) (history : List Entry) → 4 ≤ size → IsLegalHistory size first_state history → length (queue_after no_items history).taken ≡ (state_after first_state history).released }
    ensures waiting { (size : ℕ) (history : List Entry) → 4 ≤ size → IsLegalHistory size first_state history → length (queue_after no_items history).waiting ≡ (state_after first_state history).published - (state_after first_state history).released }
{}

/// The word that a step finds is the state's numbers modulo the size, packed, with the flag above them.
pub fn found_word_is_the_residues()
    ensures { (size : ℕ) (st : RingState) (e : Entry) → IsLegalHistory size st (e ∷ []) → e.found ≡ st.reserved % size + (st.published % size) * 2 ^ 16 + (st.released % size) * 2 ^ 32 + number_of st.flag * 2 ^ 48 }
{}

/// The word's space is the size, less one, less what is reserved and not released.
pub fn space_is_what_is_free()
    ensures { (size : ℕ) (st : RingState) → 4 ≤ size → RingInvariant size st → space size (ring_word size st) ≡ size - 1 - (st.reserved - st.released) }
{}

/// Between any two steps each place of a ring has one owner: nobody, a seat that has reserved it, the ring, or the consumer.
pub fn each_place_has_one_owner()
    ensures { (size place : ℕ) (st : RingState) → RingInvariant size st → place < size → (o : Owner) × IsOwner size st place o × ((other : Owner) → IsOwner size st place other → other ≡ o) }
{}

/// To move one of the word's places on by n is to count n more: each place stays its number modulo the size.
pub fn places_follow_the_numbers()
    ensures head { (size n : ℕ) (st : RingState) → advanced size (ring_word size st).head n ≡ (ring_word size (record st { reserved = st.reserved + n })).head }
    ensures tail { (size n : ℕ) (st : RingState) → advanced size (ring_word size st).tail n ≡ (ring_word size (record st { published = st.published + n })).tail }
    ensures cidx { (size n : ℕ) (st : RingState) → advanced size (ring_word size st).cidx n ≡ (ring_word size (record st { released = st.released + n })).cidx }
{}

/// The flag that a consumer takes from a word, with n more released in it, is what the numbers say: idle where nothing is
/// left, abdicated where its budget is spent and others are about to publish, and else busy.
pub fn flag_follows_the_numbers()
    ensures { (size n : ℕ) (st : RingState) (over : Bool) → RingInvariant size st → st.released + n ≤ st.published → IsFlagSet (record st { released = st.released + n }) over (flag_after (ring_word size (record st { released = st.released + n })) over) }
{}

/// What some seats count and what the others count is what the history counts.
pub fn parts_count_together()
    ensures { (is_among : ℕ → Bool) (st : RingState) (history : List Entry) → plus (counters_among is_among st history) (counters_among (λ seat. not (is_among seat)) st history) ≡ counters_of st history }
{}

/// What a replay makes of a schedule is a legal history of the ring's seats.
pub fn replays_are_legal()
    ensures { (s : Schedule) → IsRing s.size s.seats → IsLegalHistory s.size first_state (replay_of s).0 × AreSeatsBelow s.seats (replay_of s).0 }
{}

/// A text is that of one schedule, or has one first bad line, and not both.
pub fn texts_are_read_in_one_way()
    ensures schedule { (text : List ℕ) (s t : Schedule) → IsScheduleText text s → IsScheduleText text t → s ≡ t }
    ensures line { (text : List ℕ) (m n : ℕ) → IsFirstBadLine text m → IsFirstBadLine text n → m ≡ n }
    ensures either { (text : List ℕ) (s : Schedule) (n : ℕ) → IsScheduleText text s → IsFirstBadLine text n → ⊥ }
{}
