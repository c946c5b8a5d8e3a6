// What holds of the caps and reaches of a plan, and of the rows that are kept by them.
ghost use Rattle.std.specs.Prelude.{◌≡◌, ◌+◌, ◌-◌, ◌≤◌, max, cond, nat_le, ℕ, List, Bool, Some, Option, true};
ghost use Rattle.std.specs.List.{filter, flat_map};
ghost use Rattle.ordered_lists.specs.Canon.{has};
ghost use Rattle.ordered_lists.specs.Lists.{Each};
ghost use Rattle.event_model.specs.Presence.{History, IsAccepted, added, bound, present, settled};
ghost use Rattle.event_model.specs.declared.events.Event.{Event};
ghost use Rattle.event_model.specs.declared.inputs.Input.{Input};
ghost use Rattle.ev_bind.specs.Rows.{row_cmp};
ghost use Rattle.ev_bind.specs.declared.rows.Row.{Row};
ghost use Rattle.rule_ast.specs.PlainPlans.{Minus, PlainPlan, PlainStep};
ghost use Rattle.pattern_meaning.specs.PatternRows.{rows_of};
ghost use Rattle.pattern_meaning.specs.RuleRows.{ticks};
ghost use Rattle.row_changes.specs.Changes.{dying, fresh};
ghost use Rattle.row_changes.specs.Kept.{under, within};
ghost use Rattle.row_changes.specs.declared.caps.CapList.{CapList};
ghost use Rattle.row_changes.specs.declared.caps.Reach.{Reach};
ghost use Rattle.row_changes.specs.declared.caps.Reach.TheVariants.{Limit};
ghost use Rattle.step_meaning.specs.Cuts.{RowGoes, cut, cut_events, ends_before};
ghost use Rattle.step_meaning.specs.Operands.{AreLower};
ghost use Rattle.step_meaning.specs.PastEvents.{Follows};
ghost use Rattle.step_meaning.specs.StepRows.{count, step_at, step_rows, step_supports, supports, times};
ghost use Rattle.horizon_meaning.specs.Alike.{AreChanged};
ghost use Rattle.horizon_meaning.specs.Alone.{IsAlike};
ghost use Rattle.horizon_meaning.specs.Caps.{AreCaps, above_of, below, below_of, cap_of, each_user, holds, is_among, keeps, kept_rows, reach_of, seeks, use_of, uses};
ghost use Rattle.horizon_meaning.specs.Fits.{AreSpans, Fits};
ghost use Rattle.horizon_meaning.specs.Histories.{IsLateChange};
ghost use Rattle.horizon_meaning.specs.Lengths.{Length, least};
ghost use Rattle.horizon_meaning.specs.Listed.{cap_in, kept_by, reach_in};
ghost use Rattle.horizon_meaning.specs.Loss.{chain_rows, live, needs, recent};
ghost use Rattle.horizon_meaning.specs.NoLoss.{counts_at, in_cap, kept_of};
ghost use Rattle.horizon_meaning.specs.Renewed.{renewed};

/// The rows of a step are on spans of times, and no longer than the step's rows can be.
pub fn no_row_is_longer()
    ensures { (steps : List PlainStep) → AreLower steps → (events : List Event) → AreSpans events → (k : ℕ)
        → Each (Fits (below steps k)) (step_rows steps k events) }
{}

/// How long the rows of a step can be follows from its operands alone. Its cap is the lesser of that and of the greatest cap of all its
/// users, but where its rows are given out; and its reach is the greatest cap of all users that look for partners.
pub fn caps_are_those_of_users()
    ensures lengths { (steps : List PlainStep) → AreLower steps → (k : ℕ) (s : PlainStep) → step_at steps k ≡ Some s
        → below steps k ≡ below_of (below steps) s }
    ensures caps { (plan : PlainPlan) → AreLower plan.steps → (k : ℕ) (s : PlainStep) → step_at plan.steps k ≡ Some s
        → cap_of plan k
        ≡ least (below plan.steps k) (above_of (is_among k plan.shown) (use_of each_user k plan.steps (holds plan))) }
    ensures reaches { (plan : PlainPlan) → AreLower plan.steps → (k : ℕ) (s : PlainStep) → step_at plan.steps k ≡ Some s
        → reach_of plan k ≡ use_of seeks k plan.steps (holds plan) }
{}

/// What is no longer than the cap of a step is no longer than that of its operand, if the operand's rows can be so long; and it is
/// within the operand's reach, if the step looks for partners. A step whose rows are given out has the cap that its rows can have.
pub fn operands_serve_users()
    ensures caps { (plan : PlainPlan) → AreLower plan.steps → (k : ℕ) (s : PlainStep) → step_at plan.steps k ≡ Some s
        → (i : ℕ) → uses i s ≡ true → (m : ℕ) → under (cap_of plan k) m ≡ true → under (below plan.steps i) m ≡ true
        → under (cap_of plan i) m ≡ true }
    ensures reaches { (plan : PlainPlan) → AreLower plan.steps → (k : ℕ) (s : PlainStep) → step_at plan.steps k ≡ Some s
        → (i : ℕ) → uses i s ≡ true → seeks s ≡ true → (m : ℕ) → under (cap_of plan k) m ≡ true
        → within (reach_of plan i) m ≡ true }
    ensures shown { (plan : PlainPlan) → AreLower plan.steps → (k : ℕ) (s : PlainStep) → step_at plan.steps k ≡ Some s
        → is_among k plan.shown ≡ true → (m : ℕ) → under (below plan.steps k) m ≡ true → under (cap_of plan k) m ≡ true }
{}

/// A reach is a sum: from the start of a row it comes to the bound, or not.
pub fn reaches_are_sums()
    ensures { (most bound start : ℕ) → within (Limit most) (bound - start) ≡ nat_le bound (start + most) }
{}

/// The supports of a step that are within its cap are made of operands' rows within their own caps, and a row that is given out is
/// within its cap.
pub fn caps_are_sound()
    ensures supports { (plan : PlainPlan) → AreLower plan.steps → (events : List Event) → AreSpans events
        → (k : ℕ) (s : PlainStep) → step_at plan.steps k ≡ Some s
        → cut (in_cap plan k) (supports events (λ i. step_rows plan.steps i events) s)
        ≡ cut (in_cap plan k) (supports events (λ i. cut (in_cap plan i) (step_rows plan.steps i events)) s) }
    ensures shown { (plan : PlainPlan) → AreLower plan.steps → (events : List Event) → AreSpans events
        → (k : ℕ) (s : PlainStep) → step_at plan.steps k ≡ Some s → is_among k plan.shown ≡ true
        → Each (λ r. in_cap plan k r.span ≡ true) (step_rows plan.steps k events) }
{}

/// The supports of a step that count at a bound are made of the rows that are kept at it, and of the events that end at it or later.
/// So are the rows that count and the numbers of their supports, and the chains that a `Minus` takes away.
pub fn nothing_that_counts_is_lost()
    ensures needed { (c : Length) (b : ℕ) (events : List Event) (at : ℕ → List Row) → ((i : ℕ) → Each RowGoes (at i))
        → (s : PlainStep)
        → cut (live c b) (supports events at s)
        ≡ cut (live c b) (supports (cut_events (recent b) events) (λ i. cut (needs s c b) (at i)) s) }
    ensures supports { (plan : PlainPlan) → AreLower plan.steps → (b k : ℕ) (s : PlainStep) → step_at plan.steps k ≡ Some s
        → (events : List Event) → AreSpans events
        → cut (counts_at plan b k) (supports events (λ i. step_rows plan.steps i events) s)
        ≡ cut (counts_at plan b k) (supports (cut_events (recent b) events) (kept_rows plan b events) s) }
    ensures rows { (plan : PlainPlan) → AreLower plan.steps → (b k : ℕ) (s : PlainStep) → step_at plan.steps k ≡ Some s
        → (events : List Event) → AreSpans events
        → cut (counts_at plan b k) (step_rows plan.steps k events)
        ≡ rows_of (cut (counts_at plan b k) (supports (cut_events (recent b) events) (kept_rows plan b events) s)) }
    ensures counts { (plan : PlainPlan) → AreLower plan.steps → (b k : ℕ) (s : PlainStep) → step_at plan.steps k ≡ Some s
        → (events : List Event) → AreSpans events → (r : Row) → counts_at plan b k r.span ≡ true
        → count plan.steps s r events ≡ times r (supports (cut_events (recent b) events) (kept_rows plan b events) s) }
    ensures chains { (plan : PlainPlan) → AreLower plan.steps → (b k j f i l : ℕ) → step_at plan.steps k ≡ Some (Minus j f i l)
        → (events : List Event) → AreSpans events → (r : Row) → RowGoes r → counts_at plan b k r.span ≡ true
        → has row_cmp r
        (chain_rows (step_rows plan.steps f events) (step_rows plan.steps i events) (step_rows plan.steps l events))
        ≡ has row_cmp r (chain_rows (kept_rows plan b events f) (kept_rows plan b events i) (kept_rows plan b events l)) }
{}

/// Where nothing below a bound changes, the rows that end before it stay, with their counts, and so do those of them that are kept.
pub fn past_rows_stay_kept()
    ensures rows { (plan : PlainPlan) → AreLower plan.steps → (b : ℕ) (before after : List Event)
        → IsLateChange b before after → (k : ℕ)
        → cut (ends_before b) (step_rows plan.steps k before) ≡ cut (ends_before b) (step_rows plan.steps k after) }
    ensures counts { (plan : PlainPlan) → AreLower plan.steps → (b : ℕ) (before after : List Event)
        → IsLateChange b before after → (k : ℕ) (s : PlainStep) (r : Row) → ends_before b r.span ≡ true
        → count plan.steps s r before ≡ count plan.steps s r after }
    ensures kept { (plan : PlainPlan) → AreLower plan.steps → (b : ℕ) (before after : List Event)
        → IsLateChange b before after → (k : ℕ)
        → cut (ends_before b) (kept_rows plan b before k) ≡ cut (ends_before b) (kept_rows plan b after k) }
{}

/// The kept rows of a step after a change are its old ones that end before the bound, and those that the kept rows of its operands
/// and the recent events give. The count of a kept row is that over these, or stays.
pub fn kept_rows_renew_themselves()
    ensures rows { (plan : PlainPlan) → AreLower plan.steps → (b : ℕ) (before after : List Event)
        → IsLateChange b before after → (k : ℕ) (s : PlainStep) → step_at plan.steps k ≡ Some s
        → kept_rows plan b after k
        ≡ renewed plan b k s (cut_events (recent b) after) (kept_rows plan b after) (kept_rows plan b before k) }
    ensures counts { (plan : PlainPlan) → AreLower plan.steps → (b : ℕ) (before after : List Event)
        → IsLateChange b before after → (k : ℕ) (s : PlainStep) → step_at plan.steps k ≡ Some s → (r : Row)
        → keeps plan b k r ≡ true
        → count plan.steps s r after
        ≡ cond (recent b r.span) (times r (supports (cut_events (recent b) after) (kept_rows plan b after) s))
        (count plan.steps s r before) }
{}

/// Of the rows that are kept at one bound, another bound keeps those that the greater of the two keeps. And the rows that come and go
/// among those that are given out are the ones that come and go among the kept ones, whatever was swept before.
pub fn sweeping_is_not_noticed()
    ensures later { (cap : Length) (reach : Reach) (rows : List Row) (b c : ℕ) → b ≤ c
        → kept_of cap reach c (kept_of cap reach b rows) ≡ kept_of cap reach c rows }
    ensures greater { (cap : Length) (reach : Reach) (rows : List Row) (b c : ℕ)
        → kept_of cap reach c (kept_of cap reach b rows) ≡ kept_of cap reach (max b c) rows }
    ensures kept { (plan : PlainPlan) (events : List Event) (k b c : ℕ)
        → filter (keeps plan c k) (kept_rows plan b events k) ≡ kept_rows plan (max b c) events k }
    ensures come { (plan : PlainPlan) → AreLower plan.steps → (b : ℕ) (before after : List Event)
        → IsLateChange b before after → (k : ℕ) (s : PlainStep) → step_at plan.steps k ≡ Some s → is_among k plan.shown ≡ true
        → fresh (kept_rows plan b before k) (kept_rows plan b after k)
        ≡ fresh (step_rows plan.steps k before) (step_rows plan.steps k after) }
    ensures go { (plan : PlainPlan) → AreLower plan.steps → (b : ℕ) (before after : List Event)
        → IsLateChange b before after → (k : ℕ) (s : PlainStep) → step_at plan.steps k ≡ Some s → is_among k plan.shown ≡ true
        → dying (kept_rows plan b before k) (kept_rows plan b after k)
        ≡ dying (step_rows plan.steps k before) (step_rows plan.steps k after) }
    ensures recent { (plan : PlainPlan) → AreLower plan.steps → (b : ℕ) (events : List Event) → AreSpans events
        → (k : ℕ) (s : PlainStep) → step_at plan.steps k ≡ Some s → is_among k plan.shown ≡ true
        → cut (recent b) (kept_rows plan b events k) ≡ cut (recent b) (step_rows plan.steps k events) }
{}

/// Two sets of events with the same kept rows and the same counts of these have the same kept rows and counts again, where each is
/// changed at the bound or later, and the one change says the same of each event as the other, or the same events that end at the
/// bound or later are there afterwards. So nothing else of the past has a part in what follows.
pub fn kept_rows_suffice_alone()
    ensures change { (plan : PlainPlan) → AreLower plan.steps → (b : ℕ) (one one_after other other_after : List Event)
        → IsLateChange b one one_after → IsLateChange b other other_after → IsAlike plan b one other
        → (change : Event → Bool → Bool) → AreChanged change one one_after → AreChanged change other other_after
        → IsAlike plan b one_after other_after }
    ensures recent { (plan : PlainPlan) → AreLower plan.steps → (b : ℕ) (one one_after other other_after : List Event)
        → IsLateChange b one one_after → IsLateChange b other other_after → IsAlike plan b one other
        → cut_events (recent b) one_after ≡ cut_events (recent b) other_after
        → IsAlike plan b one_after other_after }
{}

/// Inputs that are fine after an accepted history change only events that end at its bound or later. The events that are present are
/// on spans of times if those that came are.
pub fn accepted_inputs_change_what_is_recent()
    ensures change { (late : Option ℕ) (h : History) → IsAccepted late h → (g : History) → Follows late h g
        → AreSpans (present (settled h)) → AreSpans (present (settled g))
        → IsLateChange (bound late (settled h)) (present (settled h)) (present (settled g)) }
    ensures spans { (inputs : List Input) → AreSpans (flat_map added inputs) → AreSpans (present inputs) }
{}

/// The caps and reaches of a plan as lists in the order of its steps keep the same rows. So a row that they let count, and that ends at
/// the bound or later, has as many supports over the kept rows as over all, and what comes and goes among rows that are given out does
/// so among the kept ones.
pub fn listed_caps_keep_the_same()
    ensures caps { (plan : PlainPlan) (caps : CapList) → AreCaps plan caps
        → (k : ℕ) (s : PlainStep) → step_at plan.steps k ≡ Some s → cap_in caps k ≡ cap_of plan k }
    ensures reaches { (plan : PlainPlan) (caps : CapList) → AreCaps plan caps
        → (k : ℕ) (s : PlainStep) → step_at plan.steps k ≡ Some s → reach_in caps k ≡ reach_of plan k }
    ensures rows { (plan : PlainPlan) (caps : CapList) → AreCaps plan caps → (b : ℕ) (events : List Event) (k : ℕ)
        → kept_by caps plan.steps b events k ≡ kept_rows plan b events k }
    ensures counts { (plan : PlainPlan) (caps : CapList) → AreCaps plan caps → AreLower plan.steps
        → (b : ℕ) (events : List Event) → AreSpans events
        → (k : ℕ) (s : PlainStep) → step_at plan.steps k ≡ Some s → (r : Row)
        → under (cap_in caps k) (ticks r) ≡ true → nat_le b r.span.end ≡ true
        → times r (step_supports plan.steps s events) ≡ times r (supports events (kept_by caps plan.steps b events) s) }
    ensures come { (plan : PlainPlan) (caps : CapList) → AreCaps plan caps → AreLower plan.steps
        → (b : ℕ) (before after : List Event) → IsLateChange b before after
        → (k : ℕ) (s : PlainStep) → step_at plan.steps k ≡ Some s → is_among k plan.shown ≡ true
        → fresh (kept_by caps plan.steps b before k) (kept_by caps plan.steps b after k)
        ≡ fresh (step_rows plan.steps k before) (step_rows plan.steps k after) }
    ensures go { (plan : PlainPlan) (caps : CapList) → AreCaps plan caps → AreLower plan.steps
        → (b : ℕ) (before after : List Event) → IsLateChange b before after
        → (k : ℕ) (s : PlainStep) → step_at plan.steps k ≡ Some s → is_among k plan.shown ≡ true
        → dying (kept_by caps plan.steps b before k) (kept_by caps plan.steps b after k)
        ≡ dying (step_rows plan.steps k before) (step_rows plan.steps k after) }
{}
