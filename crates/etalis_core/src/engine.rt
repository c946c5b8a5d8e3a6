// The engine.
use crate::apart::EngineParts;
use crate::faults::{EngineFault, StartFault};
use crate::held::Held;
use crate::ledger::Ledger;
use binariser::{PlanFault, binarise};
use event_changes::{Changes, Progress};
use event_model::{Detection, Input, Judgement};
use goal_purge::lengths;
use revision::Work;
use rule_check::Checked;
use std::alloc::{AllocError, Global};

/// Takes inputs one at a time, each by a `begin` and, where the input settles something, by turns until one is `Done`. It tells
/// then what changed of the detections that stand, and forgets what no later change can need: copies of events below the bound, and
/// rows that don't count any more. An input outside a batch settles itself, and a `Commit` all of its batch. A call that finds no
/// memory leaves an engine that takes nothing more.
#[derive(Drop)]
pub struct Engine {
    alloc: Global,
    rules: Checked,
    late: Option<u64>,
    ledger: Ledger,
    work: Work,
    // Whether a call has found no memory.
    spent: bool,
}

impl Engine {
    ghost use Rattle.std.specs.Prelude.{ℕ, ◌≡◌, ◌⊎◌, ◌↔◌, ◌+◌, ◌-◌, ◌<◌, ◌≤◌, [], length, true, false, IfSome, IfOk, OnOk, OnErr, IsErrOf};
    ghost use Rattle.event_model.specs.declared.events.TheConstants.{TIME_LIMIT};
    ghost use Rattle.event_model.specs.declared.inputs.Input.{Input};
    ghost use Rattle.event_model.specs.Presence.{History, no_history, settled, in_batch, extended, settles, bound, judge};
    ghost use Rattle.rule_ast.specs.Plain.{plain_rules};
    ghost use Rattle.pattern_meaning.specs.Replies.{change_by};
    ghost use Rattle.step_meaning.specs.PlanOf.{plan_of};
    ghost use Rattle.binariser.specs.declared.faults.TheConstants.{MOST_STEPS};
    ghost use Rattle.event_changes.specs.Told.{changes_left, signed};
    ghost use Rattle.event_changes.specs.declared.changes.Progress.TheVariants.{More, Done};
    ghost use Rattle.revision.specs.Holding.{counted};
    ghost use Rattle.etalis_core.specs.StandsFor.{rules_of, late_of, is_working, is_spent, last_change, visits_of, visits_by, work_left};
    ghost use Rattle.etalis_core.specs.StandsFor.{rows_kept, events_kept, StandsFor, WorksFrom, CanBegin};
    ghost use Rattle.etalis_core.specs.Apart.{parts_of, rules_apart, PartsStandFor};

    /// Before the first input. The lateness is how far the time of an event may lie behind the greatest that came; without one
    /// events raise no bound. Rules whose plan has more than 65,536 steps have no engine.
    pub fn new(alloc: Global, checked: Checked, late: Option<u64>) -> Result<Engine, StartFault>
        requires { IfSome late (λ ticks. ticks < TIME_LIMIT) }
        ensures stands { IfOk result (λ engine. StandsFor engine no_history) }
        ensures rules { IfOk result (λ engine. rules_of engine ≡ plain_rules checked) }
        ensures late { IfOk result (λ engine. late_of engine ≡ late) }
        ensures change { IfOk result (λ engine. last_change engine ≡ record { gone = []; come = [] }) }
        ensures resting { IfOk result (λ engine. is_working engine ≡ false) }
        ensures unspent { IfOk result (λ engine. is_spent engine ≡ false) }
        ensures fits { IfOk result (λ engine. length (plan_of (plain_rules checked)).steps ≤ MOST_STEPS) }
        ensures too_many { IsErrOf result StartFault.TooMany → MOST_STEPS < length (plan_of (plain_rules checked)).steps }
    {
        let plan = match binarise(alloc, &checked) {
            Ok(plan) => plan,
            Err(PlanFault::TooMany) => return Err(StartFault::TooMany),
            Err(PlanFault::Memory) => return Err(StartFault::Memory),
        };
        // Rules that are checked are shaped and sound, so there is a way to work with their plan.
        let _rules = checked.rules();
        let caps = lengths(alloc, &checked, &plan)?;
        let work = Work::new(alloc, plan, caps)?;
        Ok(Engine {
            alloc,
            rules: checked,
            late,
            ledger: Ledger::new(alloc),
            work,
            spent: false,
        })
    }

    /// Takes it apart between inputs and outside a batch, into all that it keeps.
    pub fn apart(self) -> EngineParts
        requires { (history : History) × StandsFor self history × (in_batch history ≡ false) }
        ensures stands { (history : History) → StandsFor self history → PartsStandFor result history }
        ensures parts { result ≡ parts_of self }
    {
        let Engine {
            alloc: _,
            rules,
            late,
            ledger,
            work,
            spent: _,
        } = self;
        let (bound, copies) = ledger.apart();
        EngineParts {
            checked: rules,
            late,
            bound,
            copies,
            work: work.apart(),
        }
    }

    /// From the parts of one, given nothing else.
    pub fn over(alloc: Global, parts: EngineParts) -> Result<Engine, AllocError>
        requires { (history : History) × PartsStandFor parts history }
        ensures stands { (history : History) → PartsStandFor parts history → IfOk result (λ engine. StandsFor engine history) }
        ensures rules { IfOk result (λ engine. rules_of engine ≡ rules_apart parts) }
        ensures late { IfOk result (λ engine. late_of engine ≡ parts.late) }
        ensures change { IfOk result (λ engine. last_change engine ≡ record { gone = []; come = [] }) }
        ensures resting { IfOk result (λ engine. is_working engine ≡ false) }
        ensures unspent { IfOk result (λ engine. is_spent engine ≡ false) }
    {
        let EngineParts {
            checked,
            late,
            bound,
            copies,
            work,
        } = parts;
        let work = Work::over(alloc, work)?;
        Ok(Engine {
            alloc,
            rules: checked,
            late,
            ledger: Ledger::over(alloc, bound, copies),
            work,
            spent: false,
        })
    }

    /// The rules that it was made with.
    pub fn checked(&self) -> &Checked
        ensures { plain_rules result.now ≡ rules_of self.now }
    {
        &self.rules
    }

    /// The lateness that it was made with.
    pub fn late(&self) -> Option<u64>
        ensures { result ≡ late_of self.now }
    {
        self.late
    }

    /// Below which time no event and no `Advance` comes any more. An open batch doesn't raise it before its `Commit` is done.
    pub fn bound(&self) -> u64
        ensures stands { (history : History) → StandsFor self.now history → result ≡ bound (late_of self.now) (settled history) }
        ensures works { (history : History) (input : Input) (left : ℕ) → WorksFrom self.now history input left
            → result ≡ bound (late_of self.now) (settled history) }
    {
        self.ledger.bound()
    }

    /// Whether a batch is open.
    pub fn in_batch(&self) -> bool
        ensures stands { (history : History) → StandsFor self.now history → result ≡ in_batch history }
        ensures works { (history : History) (input : Input) (left : ℕ) → WorksFrom self.now history input left → result ≡ false }
    {
        self.ledger.in_batch()
    }

    /// Whether an input was begun that settles something, and isn't done.
    pub fn working(&self) -> bool
        ensures { result ≡ is_working self.now }
    {
        !self.spent && self.work.working()
    }

    /// Whether a call has found no memory.
    pub fn spent(&self) -> bool
        ensures { result ≡ is_spent self.now }
    {
        self.spent
    }

    /// How an input is judged after those that were accepted: by the bound before an open batch, and by the copies with it.
    pub fn judge(&self, input: &Input) -> Judgement
        requires resting { is_working self.now ≡ false }
        requires unspent { is_spent self.now ≡ false }
        ensures { (history : History) → StandsFor self.now history → result ≡ judge (late_of self.now) history input.now }
    {
        self.ledger.judge(input)
    }

    /// Begins the work on an input that is judged `Fine`, or accepts it at once where it settles nothing.
    pub fn begin(&mut self, input: Input) -> Result<(), EngineFault>
        requires { (is_spent self.old ≡ true) ⊎ ((history : History) × CanBegin self.old history input) }
        ensures works { (history : History) → StandsFor self.old history → settles history input ≡ true
            → OnOk result (WorksFrom self.new history input (visits_by (rules_of self.old) (late_of self.old) history input)) }
        ensures stands { (history : History) → StandsFor self.old history → settles history input ≡ false
            → OnOk result (StandsFor self.new (extended history input)) }
        ensures working { (history : History) → CanBegin self.old history input
            → OnOk result (is_working self.new ≡ settles history input) }
        ensures change { last_change self.new ≡ last_change self.old }
        ensures spent { IsErrOf result EngineFault.Spent ↔ (is_spent self.old ≡ true) }
        ensures ok { OnOk result (is_spent self.new ≡ false) }
        ensures err { OnErr result (is_spent self.new ≡ true) }
        ensures rules { rules_of self.new ≡ rules_of self.old }
        ensures late { late_of self.new ≡ late_of self.old }
    {
        if self.spent() {
            return Err(EngineFault::Spent);
        }
        self.spent = true;
        self.ledger.follow(self.late, &input)?;
        if self.ledger.in_batch() {
            self.spent = false;
            return Ok(());
        }
        let changes = self.ledger.changes(self.alloc)?;
        self.work.begin(changes);
        self.spent = false;
        Ok(())
    }

    /// Works on the input that was begun, for at most so many visits of rows, and answers whether it is done.
    pub fn turn(&mut self, units: u32) -> Result<Progress, EngineFault>
        requires { (is_spent self.old ≡ true) ⊎ (is_working self.old ≡ true) }
        ensures done { (history : History) (input : Input) (left : ℕ) → WorksFrom self.old history input left
            → IfOk result (λ p. p ≡ Done → StandsFor self.new (extended history input)) }
        ensures change { (history : History) (input : Input) (left : ℕ) → WorksFrom self.old history input left
            → IfOk result (λ p. p ≡ Done → last_change self.new ≡ change_by (rules_of self.new) history input) }
        ensures enough { (history : History) (input : Input) (left : ℕ) → WorksFrom self.old history input left
            → IfOk result (λ p. p ≡ Done → left ≤ units) }
        ensures visits { (history : History) (input : Input) (left : ℕ) → WorksFrom self.old history input left
            → IfOk result (λ p. p ≡ Done → visits_of self.new ≡ counted (visits_by (rules_of self.old) (late_of self.old) history input)) }
        ensures more { (history : History) (input : Input) (left : ℕ) → WorksFrom self.old history input left
            → IfOk result (λ p. p ≡ More → (now : ℕ) × WorksFrom self.new history input now × (now + units ≡ left) × (0 < now)) }
        ensures less { 0 < units → IfOk result (λ p. p ≡ More → work_left self.new < work_left self.old) }
        ensures spent { IsErrOf result EngineFault.Spent ↔ (is_spent self.old ≡ true) }
        ensures ok { OnOk result (is_spent self.new ≡ false) }
        ensures resting { IfOk result (λ p. p ≡ Done → is_working self.new ≡ false) }
        ensures working { IfOk result (λ p. p ≡ More → is_working self.new ≡ true) }
        ensures err { OnErr result (is_spent self.new ≡ true) }
        ensures rules { rules_of self.new ≡ rules_of self.old }
        ensures late { late_of self.new ≡ late_of self.old }
    {
        if self.spent() {
            return Err(EngineFault::Spent);
        }
        self.spent = true;
        let progress = self.work.turn(units)?;
        match progress {
            Progress::Done => {
                self.ledger.settle();
                self.work.sweep(self.ledger.bound());
                self.spent = false;
                Ok(Progress::Done)
            }
            Progress::More => {
                self.spent = false;
                Ok(Progress::More)
            }
        }
    }

    /// How many visits of rows were made for the input for which it worked last. It stays at 2^128 - 1 once it is there.
    pub fn visits(&self) -> u128
        ensures visits { result ≡ visits_of self.now }
        ensures works { (history : History) (input : Input) (left : ℕ) → WorksFrom self.now history input left
            → result ≡ counted (visits_by (rules_of self.now) (late_of self.now) history input - left) }
    {
        self.work.visits_made()
    }

    /// How many rows and events it keeps. Rows are kept by what is settled, and events with those of an open batch.
    pub fn held(&self) -> Held
        requires resting { is_working self.now ≡ false }
        requires unspent { is_spent self.now ≡ false }
        ensures rows { (history : History) → StandsFor self.now history
            → result.rows ≡ rows_kept (rules_of self.now) (late_of self.now) history }
        ensures events { (history : History) → StandsFor self.now history
            → result.events ≡ events_kept (late_of self.now) history }
    {
        Held {
            rows: self.work.held_rows(),
            events: self.ledger.held(),
        }
    }

    /// The detections that the last input for which it worked has taken away, in order.
    pub fn gone(&self) -> &[Detection]
        requires resting { is_working self.now ≡ false }
        requires unspent { is_spent self.now ≡ false }
        ensures { result.now ≡ (last_change self.now).gone }
    {
        self.work.gone()
    }

    /// The detections that the last input for which it worked has brought, in order.
    pub fn come(&self) -> &[Detection]
        requires resting { is_working self.now ≡ false }
        requires unspent { is_spent self.now ≡ false }
        ensures { result.now ≡ (last_change self.now).come }
    {
        self.work.come()
    }

    /// What the last input for which it worked has changed: the detections that have gone, and then those that have come.
    pub fn changes(&self) -> Changes<'_>
        requires resting { is_working self.now ≡ false }
        requires unspent { is_spent self.now ≡ false }
        ensures { changes_left result ≡ signed (last_change self.now).gone (last_change self.now).come }
    {
        Changes::over(self.work.gone(), self.work.come())
    }
}
