// What holds of the steps of plans.
ghost use Rattle.std.specs.Prelude.{◌≡◌, ◌<◌, nat_le, ℕ, List, Bool, Some, Option, true, ◌∷◌, []};
ghost use Rattle.ordered_lists.specs.Canon.{has};
ghost use Rattle.event_model.specs.Presence.{History, IsAccepted, present, settled, bound};
ghost use Rattle.event_model.specs.Spans.{PlainSpan};
ghost use Rattle.event_model.specs.declared.atoms.NameArity.{NameArity};
ghost use Rattle.event_model.specs.declared.events.Event.{Event};
ghost use Rattle.event_model.specs.declared.operators.Op.TheVariants.{Seq};
ghost use Rattle.interval_ops.specs.Operators.{inside};
ghost use Rattle.ev_bind.specs.Rows.{row_cmp};
ghost use Rattle.ev_bind.specs.declared.rows.Row.{Row};
ghost use Rattle.rule_ast.specs.PlainPlans.{PlainStep, Named};
ghost use Rattle.rule_ast.specs.Trees.{PlainStatement};
ghost use Rattle.rule_check.specs.Cycles.{IsRanking, rank_of};
ghost use Rattle.rule_check.specs.Sound.{rules_of};
ghost use Rattle.pattern_meaning.specs.PatternRows.{rows_of};
ghost use Rattle.pattern_meaning.specs.RuleRows.{joined_rows, name_rows};
ghost use Rattle.pattern_meaning.specs.Standing.{standing};
ghost use Rattle.step_meaning.specs.Chains.{chains};
ghost use Rattle.step_meaning.specs.Cuts.{AreOnSpans, IsCut, cut, cut_events, ends_before};
ghost use Rattle.step_meaning.specs.Operands.{AreLower};
ghost use Rattle.step_meaning.specs.PastEvents.{Follows};
ghost use Rattle.step_meaning.specs.PlanOf.{plan_of, plan_steps};
ghost use Rattle.step_meaning.specs.StepRows.{count, shown_detections, step_at, step_rows, step_supports};

/// Each `Named` step of a plan has the rows of its name, and what stands is what the shown steps give out. The operands of a step
/// have lower numbers, and a row is there exactly where it has a support. A `Minus` takes away the rows that chains of three give.
pub fn steps_have_the_rows_of_names()
    ensures named { (statements : List PlainStatement) (events : List Event)
        → IsRanking (rules_of statements) (rank_of (rules_of statements))
        → (i : ℕ) (n : NameArity) (heads : List ℕ) → step_at (plan_steps statements) i ≡ Some (Named n heads)
        → step_rows (plan_steps statements) i events ≡ name_rows (rules_of statements) events n }
    ensures shown { (statements : List PlainStatement) (events : List Event)
        → IsRanking (rules_of statements) (rank_of (rules_of statements))
        → shown_detections (plan_of statements) events ≡ standing statements events }
    ensures operands { (statements : List PlainStatement) → IsRanking (rules_of statements) (rank_of (rules_of statements))
        → AreLower (plan_steps statements) }
    ensures counted { (steps : List PlainStep) → AreLower steps → (events : List Event) (i : ℕ) (s : PlainStep)
        → step_at steps i ≡ Some s → (r : Row)
        → has row_cmp r (step_rows steps i events) ≡ nat_le 1 (count steps s r events) }
    ensures supported { (steps : List PlainStep) → AreLower steps → (events : List Event) (i : ℕ) (s : PlainStep)
        → step_at steps i ≡ Some s
        → step_rows steps i events ≡ rows_of (step_supports steps s events) }
    ensures chained { (before inner after : List Row)
        → joined_rows Seq (joined_rows Seq before inner) after ≡ rows_of (chains before inner after) }
{}

/// What passes a test of spans, of the rows of a step and of their supports, depends on the events that pass alone, where the hull
/// of two spans passes exactly where both do: as lying within a window does, and ending before a time.
pub fn rows_depend_on_the_events_of_their_span()
    ensures rows { (t : PlainSpan → Bool) → IsCut t → (events : List Event) → AreOnSpans events
        → (steps : List PlainStep) (i : ℕ)
        → cut t (step_rows steps i events) ≡ step_rows steps i (cut_events t events) }
    ensures supports { (t : PlainSpan → Bool) → IsCut t → (events : List Event) → AreOnSpans events
        → (steps : List PlainStep) (s : PlainStep)
        → cut t (step_supports steps s events) ≡ step_supports steps s (cut_events t events) }
    ensures within { (first last : ℕ) → IsCut (inside first last) }
    ensures before { (b : ℕ) → IsCut (ends_before b) }
{}

/// A row that ends below the bound of an accepted history keeps its presence and its count after every input that follows.
pub fn past_rows_stay()
    ensures presence { (late : Option ℕ) (h : History) → IsAccepted late h → (g : History) → Follows late h g
        → AreOnSpans (present (settled h)) → AreOnSpans (present (settled g)) → (r : Row) → r.span.end < bound late (settled h)
        → (steps : List PlainStep) (i : ℕ)
        → has row_cmp r (step_rows steps i (present (settled h))) ≡ has row_cmp r (step_rows steps i (present (settled g))) }
    ensures counts { (late : Option ℕ) (h : History) → IsAccepted late h → (g : History) → Follows late h g
        → AreOnSpans (present (settled h)) → AreOnSpans (present (settled g)) → (r : Row) → r.span.end < bound late (settled h)
        → (steps : List PlainStep) (s : PlainStep)
        → count steps s r (present (settled h)) ≡ count steps s r (present (settled g)) }
{}
