// The evaluator that works by changes.
ghost use Rattle.revision.specs.InHand.{Stands};

use crate::apart::WorkParts;
use crate::parts::{Parts, State};
use event_changes::{Changes, EventChange, Progress};
use event_model::Detection;
use row_changes::CapList;
use rule_ast::Plan;
use std::alloc::{AllocError, Global};

/// Holds the kept rows of all steps of a plan over a set of events, and takes changes of the events through the steps: each list of
/// changes by a `begin`, and then by turns until one is `Done`. A turn makes no more visits than it has units. A turn that finds no
/// memory leaves a work that is broken, which takes nothing more. Between changes a `sweep` raises the bound.
#[derive(Drop)]
pub struct Work {
    parts: Parts,
    state: State,
    ghost stands: { ∥ Stands state parts ∥₁ },
}

impl Work {
    ghost use Rattle.std.specs.Prelude.{◌≡◌, ◌+◌, ◌<◌, ◌^◌, ℕ, max, List, [], length, map, true, false, IfOk, OnOk, OnErr};
    ghost use Rattle.event_model.specs.declared.events.Event.{Event};
    ghost use Rattle.event_changes.specs.Told.{changes_left, signed};
    ghost use Rattle.event_changes.specs.declared.changes.Progress.TheVariants.{More, Done};
    ghost use Rattle.rule_ast.specs.PlainPlans.{plain_step, plain_index};
    ghost use Rattle.step_meaning.specs.PlanOf.{plan_indexes};
    ghost use Rattle.change_meaning.specs.Caps.{caps_in};
    ghost use Rattle.change_meaning.specs.Courses.{course_of};
    ghost use Rattle.change_meaning.specs.Keys.{IsWorkable};
    ghost use Rattle.change_meaning.specs.Shown.{shown_change};
    ghost use Rattle.revision.specs.Holding.{visits_to, rows_held};
    ghost use Rattle.revision.specs.Working.{steps_of, caps_of, shown_of, plan_of_work, change_of, made_of, held_of, is_working, is_broken};
    ghost use Rattle.revision.specs.Working.{work_left, SamePlanOf, WorkHolds, CanWork, WorkGoes, WorkTurned};
    ghost use Rattle.revision.specs.Apart.{parts_of, steps_apart, plan_apart, PartsHold};

    /// Over no events. The plan has the indexes for which its steps ask.
    pub fn new(alloc: Global, plan: Plan, caps: CapList) -> Result<Work, AllocError>
        requires workable { IsWorkable (map plain_step plan.steps.items) }
        requires indexes { map plain_index plan.indexes.items ≡ plan_indexes (map plain_step plan.steps.items) }
        requires few { length plan.steps.items < 2 ^ 32 }
        ensures holds { (b : ℕ) → IfOk result (λ w. WorkHolds w b []) }
        ensures steps { IfOk result (λ w. steps_of w ≡ map plain_step plan.steps.items) }
        ensures caps { IfOk result (λ w. caps_of w ≡ caps_in caps) }
        ensures shown { IfOk result (λ w. shown_of w ≡ plan.shown.items) }
        ensures change { IfOk result (λ w. change_of w ≡ record { gone = []; come = [] }) }
        ensures made { IfOk result (λ w. made_of w ≡ 0) }
    {
        let parts = Parts::new(alloc, plan, caps)?;
        Ok(Work {
            parts,
            state: State::Resting,
        })
    }

    /// Takes it apart between changes, into all that it keeps.
    pub fn apart(self) -> WorkParts
        requires resting { is_working self ≡ false }
        requires unbroken { is_broken self ≡ false }
        ensures holds { (b : ℕ) (E : List Event) → WorkHolds self b E → PartsHold result b E }
        ensures parts { result ≡ parts_of self }
        ensures plan { plan_apart result ≡ plan_of_work self }
        ensures caps { caps_in result.caps ≡ caps_of self }
    {
        let Work { parts, state: _ } = self;
        parts.apart()
    }

    /// From the parts of one, given nothing else.
    pub fn over(alloc: Global, parts: WorkParts) -> Result<Work, AllocError>
        requires { (b : ℕ) × (E : List Event) × PartsHold parts b E }
        ensures holds { (b : ℕ) (E : List Event) → PartsHold parts b E → IfOk result (λ w. WorkHolds w b E) }
        ensures parts { IfOk result (λ w. parts_of w ≡ parts) }
        ensures steps { IfOk result (λ w. steps_of w ≡ steps_apart parts) }
        ensures caps { IfOk result (λ w. caps_of w ≡ caps_in parts.caps) }
        ensures shown { IfOk result (λ w. shown_of w ≡ parts.plan.shown.items) }
        ensures change { IfOk result (λ w. change_of w ≡ record { gone = []; come = [] }) }
        ensures made { IfOk result (λ w. made_of w ≡ 0) }
    {
        let parts = Parts::over(alloc, parts)?;
        Ok(Work {
            parts,
            state: State::Resting,
        })
    }

    /// Begins the work on changes of the events. It makes no visit, and what the last changes told stays until these are done.
    pub fn begin(&mut self, changes: Vec<EventChange>)
        requires { ∥ ((b : ℕ) × (E : List Event) × (F : List Event) × CanWork self.old b E F changes.items) ∥₁ }
        ensures works { (b : ℕ) (E F : List Event) → CanWork self.old b E F changes.items
            → WorkGoes self.new b E F (visits_to (steps_of self.old) (caps_of self.old) b E F) }
        ensures change { change_of self.new ≡ change_of self.old }
        ensures plan { SamePlanOf self.old self.new }
        ensures working { is_working self.new ≡ true }
        ensures unbroken { is_broken self.new ≡ false }
    {
        self.parts.begin(changes);
        self.state = State::Working;
    }

    /// Makes so many visits, or all that are left.
    #[tactic(auto, unfolding(crate::specs::Working::is_working, crate::specs::Working::is_broken, crate::specs::Working::change_of))]
    pub fn turn(&mut self, units: u32) -> Result<Progress, AllocError>
        requires { is_working self.old ≡ true }
        ensures turned { (b : ℕ) (E F : List Event) (left : ℕ) → WorkGoes self.old b E F left
            → IfOk result (λ p. WorkTurned self.new b E F left units p) }
        ensures change { (b : ℕ) (E F : List Event) (left : ℕ) → WorkGoes self.old b E F left
            → IfOk result (λ p. p ≡ Done
            → change_of self.new ≡ shown_change (plan_of_work self.old) (course_of (steps_of self.old) (caps_of self.old) b E F)) }
        ensures kept { IfOk result (λ p. p ≡ More → change_of self.new ≡ change_of self.old) }
        ensures less { 0 < units → IfOk result (λ p. p ≡ More → work_left self.new < work_left self.old) }
        ensures resting { IfOk result (λ p. p ≡ Done → is_working self.new ≡ false) }
        ensures working { IfOk result (λ p. p ≡ More → is_working self.new ≡ true) }
        ensures ok { OnOk result (is_broken self.new ≡ false) }
        ensures err { OnErr result (is_broken self.new ≡ true) }
        ensures err_rests { OnErr result (is_working self.new ≡ false) }
        ensures plan { SamePlanOf self.old self.new }
    {
        match self.parts.turn(units) {
            Ok(Progress::More) => {
                self.state = State::Working;
                Ok(Progress::More)
            }
            Ok(Progress::Done) => {
                self.state = State::Resting;
                Ok(Progress::Done)
            }
            Err(fault) => {
                self.state = State::Broken;
                Err(fault)
            }
        }
    }

    /// Drops the rows that are not kept at a bound, with their counts. It takes no memory.
    pub fn sweep(&mut self, bound: u64)
        requires resting { is_working self.old ≡ false }
        ensures holds { (b : ℕ) (E : List Event) → WorkHolds self.old b E → WorkHolds self.new (max b bound) E }
        ensures change { change_of self.new ≡ change_of self.old }
        ensures made { made_of self.new ≡ made_of self.old }
        ensures working { is_working self.new ≡ false }
        ensures broken { is_broken self.new ≡ is_broken self.old }
        ensures plan { SamePlanOf self.old self.new }
    {
        self.parts.sweep(bound);
    }

    /// The detections that the last changes that are done have taken away, in order.
    #[tactic(auto, unfolding(crate::specs::Working::change_of))]
    pub fn gone(&self) -> &[Detection]
        ensures { result.now ≡ (change_of self.now).gone }
    {
        &self.parts.gone
    }

    /// The detections that they have brought, in order.
    #[tactic(auto, unfolding(crate::specs::Working::change_of))]
    pub fn come(&self) -> &[Detection]
        ensures { result.now ≡ (change_of self.now).come }
    {
        &self.parts.come
    }

    /// What has gone, and then what has come.
    #[tactic(auto, unfolding(crate::specs::Working::change_of))]
    pub fn changes(&self) -> Changes<'_>
        ensures { changes_left result ≡ signed (change_of self.now).gone (change_of self.now).come }
    {
        Changes::over(&self.parts.gone, &self.parts.come)
    }

    /// How many visits were made for the last changes that were begun.
    #[tactic(auto, unfolding(crate::specs::Working::made_of))]
    pub fn visits_made(&self) -> u128
        ensures { result ≡ made_of self.now }
    {
        self.parts.made
    }

    /// Whether changes were begun that are not done.
    #[tactic(auto, unfolding(crate::specs::Working::is_working))]
    pub fn working(&self) -> bool
        ensures { result ≡ is_working self.now }
    {
        match self.state {
            State::Working => true,
            State::Resting | State::Broken => false,
        }
    }

    /// Whether a turn has found no memory.
    #[tactic(auto, unfolding(crate::specs::Working::is_broken))]
    pub fn broken(&self) -> bool
        ensures { result ≡ is_broken self.now }
    {
        match self.state {
            State::Broken => true,
            State::Resting | State::Working => false,
        }
    }

    /// The number of rows of all steps. While changes are in hand it counts those that come and those that go.
    #[tactic(auto, unfolding(crate::specs::Working::held_of))]
    pub fn held_rows(&self) -> usize
        ensures number { result ≡ held_of self.now }
        ensures held { (b : ℕ) (E : List Event) → WorkHolds self.now b E
            → result ≡ rows_held (steps_of self.now) (caps_of self.now) b E }
    {
        self.parts.goals.held()
    }
}
