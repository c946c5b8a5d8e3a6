// What holds of the indexes of plans.
ghost use Rattle.std.specs.Prelude.{◌≡◌, List, []};
ghost use Rattle.std.specs.List.{flat_map};
ghost use Rattle.rule_ast.specs.Trees.{PlainStatement};
ghost use Rattle.step_meaning.specs.PlanOf.{each_once, plan_indexes, plan_steps, slots_in, slots_table, step_indexes};

/// The indexes of a plan are those by which its steps look, each once: no two steps share one.
pub fn plans_have_each_index_once()
    ensures { (statements : List PlainStatement) → plan_indexes (plan_steps statements)
        ≡ each_once (flat_map (step_indexes (slots_in (slots_table (plan_steps statements) []))) (plan_steps statements)) }
{}
