// What the definitions come to.
ghost use Rattle.std.specs.Prelude.{◌≡◌, ◌↔◌, ◌≤◌, ℕ, Option, List};
ghost use Rattle.ordered_lists.specs.Lists.{Each};
ghost use Rattle.event_model.specs.Presence.{Accepted, History, Refused, Said, verdict};
ghost use Rattle.event_model.specs.declared.inputs.Input.{Input};
ghost use Rattle.event_model.specs.declared.inputs.Refusal.TheVariants.{Syntax, Batch, Below, Absent};
ghost use Rattle.event_model.specs.declared.atoms.NameArity.{NameArity};
ghost use Rattle.event_model.specs.declared.events.Event.{Event};
ghost use Rattle.ev_bind.specs.declared.rows.Row.{Row};
ghost use Rattle.rule_ast.specs.Shaped.{IsShaped};
ghost use Rattle.rule_ast.specs.Trees.{PlainPattern, PlainRule, PlainStatement};
ghost use Rattle.rule_check.specs.Cycles.{IsRanking, rank_of};
ghost use Rattle.rule_check.specs.Sound.{AreOrsAlike, rules_of};
ghost use Rattle.rule_check.specs.Verdict.{IsSound};
ghost use Rattle.pattern_meaning.specs.Bound.{AreRowsBound, IsBoundBy, IsRowOfName};
ghost use Rattle.pattern_meaning.specs.RuleRows.{name_rows, named_rows};
ghost use Rattle.pattern_meaning.specs.Left.{IsQuiet, IsWithheld, LeaveWhatStands, WritesDifference};
ghost use Rattle.pattern_meaning.specs.Refusals.{SaysAbsent, SaysBelow, SaysFine, SaysMisplaced, SaysNoInput};

/// What the replies to lines leave of no detections is what stands over the events that are present after them, and no reply
/// writes a detection that stands already or takes away one that doesn't. In a batch nothing is told before its end, and what
/// stands stays.
pub fn replies_leave_what_stands()
    ensures left { (statements : List PlainStatement) (late : Option ℕ) (saids : List Said) → LeaveWhatStands statements late saids }
    ensures written { (statements : List PlainStatement) (late : Option ℕ) (saids : List Said) (said : Said)
        → WritesDifference statements late saids said }
    ensures quiet { (statements : List PlainStatement) (h : History) (n : ℕ) (input : Input)
        → IsWithheld h input → IsQuiet statements h n input }
{}

/// A line is refused exactly for its syntax, as a misplaced word of batches, for a time below the bound, or for an event that
/// isn't there, and is accepted where no such cause applies. No two causes apply to one line.
pub fn refusals_have_causes()
    ensures syntax { (late : Option ℕ) (h : History) (said : Said) (at : ℕ)
        → (verdict late h said ≡ Refused (Syntax at)) ↔ SaysNoInput said at }
    ensures misplaced { (late : Option ℕ) (h : History) (said : Said)
        → (verdict late h said ≡ Refused Batch) ↔ SaysMisplaced h said }
    ensures below { (late : Option ℕ) (h : History) (said : Said) (b : ℕ)
        → (verdict late h said ≡ Refused (Below b)) ↔ SaysBelow late h said b }
    ensures absent { (late : Option ℕ) (h : History) (said : Said)
        → (verdict late h said ≡ Refused Absent) ↔ SaysAbsent late h said }
    ensures accepted { (late : Option ℕ) (h : History) (said : Said) (input : Input)
        → (verdict late h said ≡ Accepted input) ↔ SaysFine late h said input }
{}

/// Each row of a pattern binds exactly the pattern's variables, so no condition and no head of rules that were checked reads a
/// variable that a row doesn't bind, whatever the rows of the names are. A row of a name has as many arguments as the name.
pub fn rows_bind_variables()
    ensures patterns { (named : NameArity → List Row) (p : PlainPattern) → AreOrsAlike p → AreRowsBound named p }
    ensures rules { (statements : List PlainStatement) (named : NameArity → List Row)
        → IsShaped statements → IsSound statements → Each (IsBoundBy named) (rules_of statements) }
    ensures names { (rules : List PlainRule) (events : List Event) (depth : ℕ) (n : NameArity)
        → Each (IsRowOfName n) (named_rows rules events depth n) }
{}

/// By rules to its rank or deeper a name has the same rows.
pub fn ranks_suffice()
    ensures { (rules : List PlainRule) (events : List Event) (depth : ℕ) (n : NameArity)
        → IsRanking rules (rank_of rules) → rank_of rules n ≤ depth → named_rows rules events depth n ≡ name_rows rules events n }
{}
