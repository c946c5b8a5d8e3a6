// What a list of changes of events does to the steps of a plan.
ghost use Rattle.std.specs.Prelude.{◌≡◌, ◌+◌, ◌<◌, nat_le, if◌then◌else◌, cond, ℕ, List, Option, Some, true, length, map, ◌∷◌, [], ◌++◌};
ghost use Rattle.ordered_lists.specs.Canon.{has, Rising};
ghost use Rattle.ordered_lists.specs.Lists.{Balanced, Each, total};
ghost use Rattle.event_model.specs.EventOrder.{event_cmp};
ghost use Rattle.event_model.specs.Presence.{History, IsAccepted, bound, present, settled};
ghost use Rattle.event_model.specs.declared.events.Event.{Event};
ghost use Rattle.event_model.specs.declared.inputs.Input.{Input};
ghost use Rattle.event_model.specs.declared.operators.Edge.TheVariants.{Start, End};
ghost use Rattle.event_model.specs.declared.operators.Op.TheVariants.{Seq};
ghost use Rattle.event_changes.specs.declared.changes.Progress.TheVariants.{More, Done};
ghost use Rattle.event_changes.specs.declared.changes.Sign.{Sign};
ghost use Rattle.event_changes.specs.declared.changes.Sign.TheVariants as sign;
ghost use Rattle.event_changes.specs.declared.events.EventChange.{EventChange};
ghost use Rattle.event_changes.specs.Events.{event_changes};
ghost use Rattle.interval_ops.specs.Operators.{partner_range, range_at, range_before};
ghost use Rattle.interval_ops.specs.declared.ranges.Side.TheVariants.{Left, Right};
ghost use Rattle.ev_bind.specs.Rows.{row_cmp};
ghost use Rattle.ev_bind.specs.declared.rows.Row.{Row};
ghost use Rattle.rule_ast.specs.PlainPlans.{PlainStep, Minus};
ghost use Rattle.rule_ast.specs.Shaped.{IsShaped};
ghost use Rattle.rule_ast.specs.Trees.{PlainStatement};
ghost use Rattle.rule_check.specs.Cycles.{IsRanking, rank_of};
ghost use Rattle.rule_check.specs.Sound.{rules_of};
ghost use Rattle.rule_check.specs.Verdict.{IsSound};
ghost use Rattle.pattern_meaning.specs.Replies.{change_between};
ghost use Rattle.pattern_meaning.specs.RuleRows.{joined_rows};
ghost use Rattle.pattern_meaning.specs.Standing.{standing};
ghost use Rattle.step_meaning.specs.PastEvents.{Follows};
ghost use Rattle.step_meaning.specs.PlanOf.{plan_of, plan_steps};
ghost use Rattle.step_meaning.specs.StepRows.{step_at, step_rows, supports, times};
ghost use Rattle.row_changes.specs.Changes.{SignedRow, deltas};
ghost use Rattle.row_changes.specs.Visits.{tally};
ghost use Rattle.change_meaning.specs.Caps.{PlainCaps, fits, no_caps, kept_rows, NoLossOver};
ghost use Rattle.change_meaning.specs.Courses.{course_of, given, minus_view, IsCourse};
ghost use Rattle.change_meaning.specs.JoinVisits.{JoinView, join_visits};
ghost use Rattle.change_meaning.specs.Keys.{slots_at, IsBody, IsBoundOn, IsWorkable};
ghost use Rattle.change_meaning.specs.MinusVisits.{MinusView, blocks, minus_visits};
ghost use Rattle.change_meaning.specs.Moved.{moved_of, came_of, went_of, events_in, moved, EventsMove, AreSpans, AreLate, IsMoved};
ghost use Rattle.change_meaning.specs.Shown.{signed_rows, shown_change, AreShownWhole};
ghost use Rattle.change_meaning.specs.Turns.{number_listed, answers, sum_of};

/// The supports of the rows of a step after a change are those before, with what the step gets and without what it loses, whatever
/// the rows of its operands are before and after. Of changed rows those with Plus are what comes, and those with Minus what goes.
pub fn steps_get_and_lose_supports()
    ensures balanced { (before after : List Event) (es : List EventChange) → EventsMove before after (came_of es) (went_of es)
        → (b a : ℕ → List Row) → ((i : ℕ) → Rising row_cmp (b i)) → ((i : ℕ) → Rising row_cmp (a i)) → (s : PlainStep)
        → Balanced (supports before b s) (supports after a s)
        (moved sign.Plus (came_of es) b a s) (moved sign.Minus (went_of es) b a s) }
    ensures signs { (s : Sign) (b a : List Row) → Rising row_cmp b → Rising row_cmp a → signed_rows s (deltas b a) ≡ moved_of s b a }
{}

/// The changes between the events that are present by two lists of inputs lead from the one to the other, and where none of them
/// ends before a bound nothing changes below it. So it is between an accepted history and one that follows, at the bound of the first.
pub fn changes_lead_to_the_events_after()
    ensures present { (b : ℕ) (before after : List Input) → AreSpans (present before) → AreSpans (present after)
        → AreLate b (event_changes (present before) (present after))
        → IsMoved b (present before) (present after) (event_changes (present before) (present after)) }
    ensures sets { (b : ℕ) (before after : List Event) → Rising event_cmp before → Rising event_cmp after
        → AreSpans before → AreSpans after → AreLate b (event_changes before after)
        → IsMoved b before after (event_changes before after) }
    ensures histories { (late : Option ℕ) (h : History) → IsAccepted late h → (g : History) → Follows late h g
        → AreSpans (present (settled h)) → AreSpans (present (settled g))
        → IsMoved (bound late (settled h)) (present (settled h)) (present (settled g))
        (event_changes (present (settled h)) (present (settled g))) }
    ensures free { (before after : List Event) (es : List EventChange) → AreSpans before → AreSpans after
        → EventsMove before after (came_of es) (went_of es) → IsMoved 0 before after es }
{}

/// An evaluator that works by changes can work with the plan of every file of shaped and sound rules: operands come first, and the
/// rows of each step of a body bind exactly the slots of the step.
pub fn plans_are_workable()
    ensures plans { (statements : List PlainStatement) → IsShaped statements → IsSound statements
        → IsRanking (rules_of statements) (rank_of (rules_of statements)) → IsWorkable (plan_steps statements) }
    ensures bound { (steps : List PlainStep) → IsWorkable steps → (events : List Event) (i : ℕ) → IsBody steps i
        → Each (IsBoundOn (slots_at steps i)) (step_rows steps i events) }
{}

/// The rows that are kept of the steps of a plan, at a bound below which nothing changes, have a course: counts after follow from
/// those before by what each step gives, and the tests of a Minus leave what it gives. A step gives what it gets and loses, as far as
/// that fits its cap. Without caps nothing is lost.
pub fn kept_rows_have_a_course()
    ensures course { (steps : List PlainStep) → IsWorkable steps → (caps : PlainCaps) (b : ℕ) (before after : List Event)
        (es : List EventChange) → IsMoved b before after es
        → NoLossOver steps caps b before → NoLossOver steps caps b after
        → IsCourse steps caps es (course_of steps caps b before after) }
    ensures gives { (steps : List PlainStep) → IsWorkable steps → (caps : PlainCaps) (b : ℕ) (before after : List Event)
        (es : List EventChange) → IsMoved b before after es → (i : ℕ) (t : PlainStep) → step_at steps i ≡ Some t
        → (s : Sign) (r : Row)
        → tally s r (given (caps.cap i) (slots_at steps) t (course_of steps caps b before after) es)
        ≡ cond (fits (caps.cap i) r)
        (times r (moved s (events_in s es) (kept_rows steps caps b before) (kept_rows steps caps b after) t)) 0 }
    ensures free { (steps : List PlainStep) (b : ℕ) (events : List Event) → NoLossOver steps no_caps b events }
    ensures all { (steps : List PlainStep) (b : ℕ) (events : List Event) (i : ℕ)
        → kept_rows steps no_caps b events i ≡ step_rows steps i events }
{}

/// The search for a chain of partners of a joined row finds one exactly where a chain of a row before, one inside and one after gives
/// the row.
pub fn chains_are_found()
    ensures { (steps : List PlainStep) → IsWorkable steps → (caps : PlainCaps) (b : ℕ) (before after : List Event) → AreSpans after
        → (i j f n l : ℕ) → step_at steps i ≡ Some (Minus j f n l) → (r : Row)
        → has row_cmp r (kept_rows steps caps b after j) ≡ true
        → blocks (minus_view (caps.cap i) (slots_at steps) (course_of steps caps b before after) j f n l) r
        ≡ has row_cmp r (joined_rows Seq (joined_rows Seq (kept_rows steps caps b after f) (kept_rows steps caps b after n))
        (kept_rows steps caps b after l)) }
{}

/// Each changed row of a join and of a Minus has one visit of its own, and one for each row that agrees on the key and lies in the
/// range.
pub fn visits_are_counted()
    ensures joins { (v : JoinView) → Rising row_cmp v.lefts → Rising row_cmp v.rights → (cl cr : List SignedRow)
        → length (join_visits v cl cr)
        ≡ total (λ d. 1 + number_listed v.key (partner_range v.op Left d.row.span) d.row.binding v.rights) cl
        + total (λ d. 1 + number_listed v.key (partner_range v.op Right d.row.span) d.row.binding v.lefts) cr }
    ensures minuses { (v : MinusView) → Rising row_cmp v.joined → (cj ci cb ca : List SignedRow)
        → length (minus_visits v cj ci cb ca)
        ≡ length cj
        + (total (λ d. 1 + number_listed v.inner_key (range_before Start 0 d.row.span.start) d.row.binding v.joined) ci
        + (total (λ d. 1 + number_listed v.before_key (range_at Start d.row.span.start) d.row.binding v.joined) cb
        + total (λ d. 1 + number_listed v.after_key (range_at End d.row.span.end) d.row.binding v.joined) ca)) }
{}

/// A turn answers Done where its units and those of the turns before suffice for all visits, and More where they don't.
pub fn turns_answer_by_their_units()
    ensures { (visits : ℕ) (turns : List ℕ) (units : ℕ) → sum_of turns < visits
        → answers visits (turns ++ units ∷ [])
        ≡ map (λ u. More) turns ++ (if nat_le visits (sum_of turns + units) then Done else More) ∷ [] }
{}

/// The changed rows of the shown steps of the plan of a file of rules, in the order of detections, are what stands after a change and
/// not before, and what stood before and not after.
pub fn shown_rows_are_what_changes()
    ensures { (statements : List PlainStatement) → IsRanking (rules_of statements) (rank_of (rules_of statements))
        → (before after : List Event) (caps : PlainCaps) (b : ℕ) (es : List EventChange) → IsMoved b before after es
        → AreShownWhole (plan_of statements) caps before → AreShownWhole (plan_of statements) caps after
        → change_between (standing statements before) (standing statements after)
        ≡ shown_change (plan_of statements) (course_of (plan_steps statements) caps b before after) }
{}
