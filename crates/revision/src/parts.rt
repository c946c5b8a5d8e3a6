// What a work has in hand, and the work on it.
ghost use Rattle.std.specs.Prelude.{◌≡◌, ◌+◌, ◌<◌, ◌^◌, ℕ, max, List, [], length, map, IfOk, OnOk, Some};
ghost use Rattle.event_model.specs.declared.events.Event.{Event};
ghost use Rattle.event_changes.specs.declared.changes.Progress.TheVariants.{More, Done};
ghost use Rattle.rule_ast.specs.PlainPlans.{PlainStep, plain_step, plain_index};
ghost use Rattle.step_meaning.specs.PlanOf.{plan_indexes};
ghost use Rattle.step_meaning.specs.StepRows.{step_at};
ghost use Rattle.change_meaning.specs.Caps.{caps_in};
ghost use Rattle.change_meaning.specs.Courses.{Course};
ghost use Rattle.change_meaning.specs.Keys.{IsWorkable, slots_at};
ghost use Rattle.step_work.specs.Stepping.{StepWork};
ghost use Rattle.revision.specs.Works.{cap_of, Finishes, IsFurther, hand_left};
ghost use Rattle.revision.specs.Holding.{Holds, CanBegin, WorksTo, visits_to};
ghost use Rattle.revision.specs.Idle.{IsIdle};
ghost use Rattle.revision.specs.InHand.{steps_in, hand, IsReady, IsDue, Goes, IsOn, IsOver, Stays, StepGoes, AllGo, IsLess, told_in};
ghost use Rattle.revision.specs.PartsTurned.{PartsTurned, DueTurned};

use crate::applying::{apply_notes, settle_notes};
use crate::expiring::follow_changes;
use crate::idling::is_idle;
use crate::limits::cap_at;
use crate::lists::clear_rows;
use crate::making::empty_lists;
use crate::telling::tell_change;
use event_changes::{EventChange, Progress};
use event_model::Detection;
use goal_purge::{Expiries, purge};
use goal_store::GoalStore;
use row_changes::CapList;
use rule_ast::{Plan, StepId};
use std::alloc::{AllocError, Global};
use step_changes::{Delta, Pending};
use step_work::{Reading, Spot, StepWay, ways_of};
use support_table::Supports;

/// Between changes; with changes that were begun; or out of memory.
#[derive(Clone, Copy)]
pub(crate) enum State {
    Resting,
    Working,
    Broken,
}

/// The plan with its caps and ways, the rows of its steps with their counts and expiries, and how far the changes in hand have come.
#[derive(Drop)]
pub(crate) struct Parts {
    pub(crate) alloc: Global,
    pub(crate) plan: Plan,
    pub(crate) caps: CapList,
    pub(crate) ways: Vec<StepWay>,
    pub(crate) goals: GoalStore,
    pub(crate) supports: Supports,
    // Those of the rows before the changes in hand.
    pub(crate) expiries: Expiries,
    pub(crate) events: Vec<EventChange>,
    // The changed rows of each step that is finished. The lists are kept for the next changes.
    pub(crate) changed: Vec<Vec<Delta>>,
    pub(crate) finished: usize,
    pub(crate) spot: Spot,
    pub(crate) pending: Pending,
    // Empty but for a moment at the end of a step.
    pub(crate) spare: Pending,
    pub(crate) gone: Vec<Detection>,
    pub(crate) come: Vec<Detection>,
    pub(crate) made: u128,
}

impl Parts {
    /// Without rows, and without changes in hand.
    pub(crate) fn new(alloc: Global, plan: Plan, caps: CapList) -> Result<Parts, AllocError>
        requires workable { IsWorkable (map plain_step plan.steps.items) }
        requires indexes { map plain_index plan.indexes.items ≡ plan_indexes (map plain_step plan.steps.items) }
        requires few { length plan.steps.items < 2 ^ 32 }
        ensures holds { (b : ℕ) → IfOk result (λ p. Holds (hand p) b []) }
        ensures due { (b : ℕ) → IfOk result (λ p. IsDue p b []) }
        ensures ready { IfOk result (λ p. IsReady p) }
        ensures plan { IfOk result (λ p. p.plan ≡ plan) }
        ensures caps { IfOk result (λ p. p.caps ≡ caps) }
        ensures told { IfOk result (λ p. told_in p ≡ record { gone = []; come = [] }) }
        ensures made { IfOk result (λ p. p.made ≡ 0) }
    {
        let ways = ways_of(alloc, &plan, &caps)?;
        let goals = GoalStore::new(alloc, &plan)?;
        let changed = empty_lists(alloc, plan.steps.len())?;
        Ok(Parts {
            alloc,
            plan,
            caps,
            ways,
            goals,
            supports: Supports::new(alloc),
            expiries: Expiries::new(alloc),
            events: Vec::new(alloc),
            changed,
            finished: 0,
            spot: Spot::start(),
            pending: Pending::new(alloc),
            spare: Pending::new(alloc),
            gone: Vec::new(alloc),
            come: Vec::new(alloc),
            made: 0,
        })
    }

    /// Takes changes in hand.
    pub(crate) fn begin(&mut self, changes: Vec<EventChange>)
        ensures works { (b : ℕ) (E F : List Event) → CanBegin (hand self.old) b E F changes.items → IsReady self.old
            → WorksTo (hand self.new) b E F (visits_to (steps_in self.old) (caps_in self.old.caps) b E F) }
        ensures due { (b : ℕ) (E : List Event) → IsDue self.old b E → IsDue self.new b E }
        ensures ready { IsReady self.old → IsReady self.new }
        ensures plan { self.new.plan ≡ self.old.plan }
        ensures caps { self.new.caps ≡ self.old.caps }
        ensures told { told_in self.new ≡ told_in self.old }
        ensures made { self.new.made ≡ 0 }
    {
        self.events = changes;
        self.finished = 0;
        self.spot = Spot::start();
        self.pending.clear();
        self.made = 0;
    }

    // Works on the step under way, as far as the units go.
    fn work_on(&mut self, units: u32) -> Result<Option<u32>, AllocError>
        requires within { self.old.finished < length self.old.plan.steps.items }
        requires course { ∥ IsOn self.old ∥₁ }
        ensures work { (s : PlainStep) → step_at (steps_in self.old) self.old.finished ≡ Some s → IsReady self.old
            → IfOk result (λ r. StepWork (cap_of (hand self.old)) (slots_at (steps_in self.old)) s (hand self.old).view
            self.old.events.items (hand self.old).at (hand self.new).at units r) }
        ensures rest { self.new ≡ record self.old { spot = self.new.spot; pending = self.new.pending } }
    {
        let at = self.finished;
        let step = &self.plan.steps[at];
        let way = &self.ways[at];
        let cap = cap_at(&self.caps, at);
        let reading = Reading {
            goals: &self.goals,
            events: &self.events,
            changed: &self.changed,
        };
        reading.work(
            self.alloc,
            step,
            cap,
            way,
            &mut self.spot,
            &mut self.pending,
            units,
        )
    }

    // Applies what the step under way has noted, and goes on to the next.
    fn finish_step(&mut self) -> Result<(), AllocError>
        requires within { self.old.finished < length self.old.plan.steps.items }
        requires over { ∥ IsOver self.old ∥₁ }
        ensures finishes { (s : PlainStep) → step_at (steps_in self.old) self.old.finished ≡ Some s → IsReady self.old
            → OnOk result (Finishes s (hand self.old) (hand self.new)) }
        ensures ready { IsReady self.old → OnOk result (IsReady self.new) }
        ensures next { OnOk result (self.new.finished ≡ self.old.finished + 1) }
        ensures stays { Stays self.old self.new }
    {
        let at = self.finished;
        let id = at as StepId;
        let step = &self.plan.steps[at];
        settle_notes(step, id, &self.supports, &mut self.pending, &mut self.spare)?;
        apply_notes(
            &mut self.goals,
            &mut self.supports,
            &mut self.pending,
            id,
            &mut self.changed,
        )?;
        self.finished = at + 1;
        self.spot = Spot::start();
        Ok(())
    }

    // Leaves the step under way as it is, and goes on to the next.
    fn pass_step(&mut self)
        requires { self.old.finished < length self.old.plan.steps.items }
        ensures passes { (c : Course) (left units : ℕ) (s : PlainStep) → Goes self.old c left
            → step_at (steps_in self.old) self.old.finished ≡ Some s → IsIdle s self.old.changed.items
            → StepGoes self.new c left units (Some units) }
        ensures next { self.new.finished ≡ self.old.finished + 1 }
        ensures stays { Stays self.old self.new }
    {
        clear_rows(&mut self.changed, self.finished);
        self.finished += 1;
        self.spot = Spot::start();
    }

    // Works on the step under way, and finishes it where the units go so far.
    fn one_step(&mut self, units: u32) -> Result<Option<u32>, AllocError>
        requires within { self.old.finished < length self.old.plan.steps.items }
        requires course { ∥ IsOn self.old ∥₁ }
        ensures turn { (c : Course) (left : ℕ) → Goes self.old c left → IfOk result (λ r. StepGoes self.new c left units r) }
        ensures further { IfOk result (λ r. IsFurther (hand self.old) (hand self.new) units r) }
        ensures stays { Stays self.old self.new }
    {
        let step = &self.plan.steps[self.finished];
        if is_idle(step, &self.changed) {
            self.pass_step();
            return Ok(Some(units));
        }
        let Some(rest) = self.work_on(units)? else {
            return Ok(None);
        };
        self.finish_step()?;
        Ok(Some(rest))
    }

    // One step after the other, as far as the units go.
    fn all_steps(&mut self, units: u32) -> Result<Option<u32>, AllocError>
        requires { ∥ IsOn self.old ∥₁ }
        ensures turned { (c : Course) (left : ℕ) → Goes self.old c left → IfOk result (λ r. AllGo self.new c left units r) }
        ensures less { IfOk result (λ r. IsLess self.old self.new units r) }
        ensures stays { Stays self.old self.new }
    {
        let mut units = units;
        while self.finished < self.plan.steps.len() {
            match self.one_step(units)? {
                None => return Ok(None),
                Some(rest) => units = rest,
            }
        }
        Ok(Some(units))
    }

    /// Makes so many visits, or all that are left; after the last, the rows are settled and the detections told.
    pub(crate) fn turn(&mut self, units: u32) -> Result<Progress, AllocError>
        requires { ∥ IsOn self.old ∥₁ }
        ensures turned { (b : ℕ) (E F : List Event) (left : ℕ) → WorksTo (hand self.old) b E F left → IsReady self.old
            → IfOk result (λ p. PartsTurned self.old self.new b E F left units p) }
        ensures due { (b : ℕ) (E F : List Event) (left : ℕ) → WorksTo (hand self.old) b E F left → IsReady self.old → IsDue self.old b E
            → IfOk result (λ p. DueTurned self.new b E F p) }
        ensures on { IfOk result (λ p. p ≡ More → ∥ IsOn self.new ∥₁) }
        ensures kept { IfOk result (λ p. p ≡ More → told_in self.new ≡ told_in self.old) }
        ensures less { IfOk result (λ p. p ≡ More → 0 < units → hand_left (hand self.new) < hand_left (hand self.old)) }
        ensures plan { self.new.plan ≡ self.old.plan }
        ensures caps { self.new.caps ≡ self.old.caps }
    {
        match self.all_steps(units)? {
            None => {
                self.made = self.made.saturating_add(units as u128);
                Ok(Progress::More)
            }
            Some(rest) => {
                tell_change(
                    self.alloc,
                    &self.plan,
                    &self.changed,
                    &mut self.gone,
                    &mut self.come,
                )?;
                follow_changes(&mut self.expiries, &self.caps, &self.changed)?;
                self.goals.settle();
                self.made = self.made.saturating_add(units.saturating_sub(rest) as u128);
                Ok(Progress::Done)
            }
        }
    }

    /// Drops the rows that are not kept at a bound, with their counts and expiries.
    pub(crate) fn sweep(&mut self, bound: u64)
        ensures holds { (b : ℕ) (E : List Event) → Holds (hand self.old) b E → IsDue self.old b E
            → Holds (hand self.new) (max b bound) E }
        ensures due { (b : ℕ) (E : List Event) → Holds (hand self.old) b E → IsDue self.old b E → IsDue self.new (max b bound) E }
        ensures ready { IsReady self.old → IsReady self.new }
        ensures rest { self.new ≡ record self.old { goals = self.new.goals; supports = self.new.supports; expiries = self.new.expiries } }
    {
        purge(
            &mut self.goals,
            &mut self.supports,
            &mut self.expiries,
            bound,
        );
    }
}
