// A watch over parcels.
ghost use Rattle.std.specs.Prelude.{◌≡◌, ◌+◌, ◌<◌, ◌≤◌, ◌^◌, ℕ, List, length, true, IfOk, OnOk, IsOkUnless};
ghost use Rattle.event_model.specs.Presence.{History, extended};
ghost use Rattle.event_model.specs.declared.inputs.Input.{Input};
ghost use Rattle.rule_ast.specs.Trees.{PlainStatement};
ghost use Rattle.rule_ast.specs.Plain.{plain_rules};
ghost use Rattle.rule_grammar.specs.Files.{Holds};
ghost use Rattle.rule_check.specs.Verdict.{IsSound};
ghost use Rattle.pattern_meaning.specs.Replies.{change_by};
ghost use Rattle.etalis_core.specs.StandsFor.{StandsFor, WorksFrom, is_working, last_change, rules_of, late_of};
ghost use Rattle.parcel_watch.specs.declared.faults.WatchFault.TheVariants.{Memory};

use crate::faults::WatchFault;
use crate::resting::Resting;
use etalis_core::{Engine, EngineFault, Held, StartFault};
use event_changes::Progress;
use event_model::{Detection, Input, Judgement};
use rule_check::{CheckFault, Checked, check};
use rule_parser::{ParseFault, parse};
use std::alloc::{AllocError, Global};

/// A day in seconds, a lateness for scans that come from depots without a line.
pub const DAY: u64 = 86_400;

// How many visits a turn may make.
const UNITS: u32 = 4096;

/// What an input comes to.
#[derive(Drop)]
pub enum Report {
    /// These detections stand no more, and those stand now.
    Changed {
        gone: Vec<Detection>,
        come: Vec<Detection>,
    },
    /// It is part of a batch, and its `Commit` tells what that changes.
    Kept,
    /// It changes nothing; `Fine` isn't why.
    Refused(Judgement),
}

/// An engine, and how many inputs came. It forgets what no later input can need.
#[derive(Drop)]
pub struct Watch {
    pub(crate) alloc: Global,
    pub(crate) engine: Engine,
    pub(crate) count: u64,
}

// The rules of a text that are sound.
fn read(alloc: Global, text: &str) -> Result<Checked, WatchFault>
    requires { length text.now < 2 ^ 32 }
    ensures rules { IfOk result (λ rules. Holds text.now (plain_rules rules) × IsSound (plain_rules rules)) }
    ensures refused { (rules : List PlainStatement) → Holds text.now rules → IsSound rules → IsOkUnless result Memory }
{
    let rules = match parse(alloc, text) {
        Ok(rules) => rules,
        Err(ParseFault::Syntax(at)) => return Err(WatchFault::Syntax(at)),
        Err(ParseFault::Limit(which, at)) => return Err(WatchFault::Limit(which, at)),
        Err(ParseFault::Memory) => return Err(WatchFault::Memory),
    };
    match check(alloc, rules) {
        Ok(checked) => Ok(checked),
        Err(fault) => match fault {
            CheckFault::Memory => Err(WatchFault::Memory),
            fault => Err(WatchFault::Unsound(fault)),
        },
    }
}

// Has the engine work until the input that was begun is done.
fn finish(engine: &mut Engine) -> Result<(), EngineFault>
    requires { is_working engine.old ≡ true }
    ensures stands { (h : History) (input : Input) (left : ℕ) → WorksFrom engine.old h input left
        → OnOk result (StandsFor engine.new (extended h input)) }
    ensures change { (h : History) (input : Input) (left : ℕ) → WorksFrom engine.old h input left
        → OnOk result (last_change engine.new ≡ change_by (rules_of engine.old) h input) }
    ensures rules { OnOk result (rules_of engine.new ≡ rules_of engine.old) }
    ensures late { OnOk result (late_of engine.new ≡ late_of engine.old) }
{
    loop {
        match engine.turn(UNITS)? {
            Progress::More => {}
            Progress::Done => return Ok(()),
        }
    }
}

// Equal detections, which share their atoms.
fn shared(alloc: Global, detections: &[Detection]) -> Result<Vec<Detection>, AllocError>
    ensures { IfOk result (λ v. v.items ≡ detections.now) }
{
    let mut list = Vec::new(alloc);
    for detection in detections {
        list.push(Detection {
            atom: detection.atom.share()?,
            span: detection.span,
        })?;
    }
    Ok(list)
}

impl Watch {
    ghost use Rattle.std.specs.Prelude.{false, IfSome};
    ghost use Rattle.event_model.specs.declared.events.TheConstants.{TIME_LIMIT};
    ghost use Rattle.event_model.specs.Presence.{no_history, in_batch};
    ghost use Rattle.step_meaning.specs.PlanOf.{plan_of};
    ghost use Rattle.binariser.specs.declared.faults.TheConstants.{MOST_STEPS};
    ghost use Rattle.pattern_meaning.specs.Replies.{standing_after};
    ghost use Rattle.etalis_core.specs.declared.present.TheConstants.{MOST_COPIES};
    ghost use Rattle.etalis_core.specs.StandsFor.{rows_kept, events_kept};
    ghost use Rattle.parcel_watch.specs.Watches.{Watches, Says, Rests, rules_in, late_in, count_in, rules_at_rest, late_at_rest, after, told_by};

    /// A watch by the rules of a text, before the first input. A scan may lie so many seconds behind the newest one.
    pub fn new(alloc: Global, text: &str, late: Option<u64>) -> Result<Watch, WatchFault>
        requires text { length text.now < 2 ^ 32 }
        requires late { IfSome late (λ seconds. seconds < TIME_LIMIT) }
        ensures rules { IfOk result (λ watch. Holds text.now (rules_in watch) × IsSound (rules_in watch)) }
        ensures late { IfOk result (λ watch. late_in watch ≡ late) }
        ensures watches { IfOk result (λ watch. Watches watch no_history) }
        ensures refused { (rules : List PlainStatement) → Holds text.now rules → IsSound rules
            → length (plan_of rules).steps ≤ MOST_STEPS → IsOkUnless result Memory }
    {
        let checked = read(alloc, text)?;
        match Engine::new(alloc, checked, late) {
            Ok(engine) => Ok(Watch {
                alloc,
                engine,
                count: 0,
            }),
            Err(StartFault::TooMany) => Err(WatchFault::TooMany),
            Err(StartFault::Memory) => Err(WatchFault::Memory),
        }
    }

    /// How many inputs were accepted.
    pub fn count(&self) -> u64
        ensures { result ≡ count_in self.now }
    {
        self.count
    }

    /// Whether a batch is open.
    pub fn in_batch(&self) -> bool
        ensures { (h : History) → Watches self.now h → result ≡ in_batch h }
    {
        self.engine.in_batch()
    }

    /// How many rows and events it keeps.
    pub fn held(&self) -> Held
        requires { (h : History) × Watches self.now h }
        ensures rows { (h : History) → Watches self.now h → result.rows ≡ rows_kept (rules_in self.now) (late_in self.now) h }
        ensures events { (h : History) → Watches self.now h → result.events ≡ events_kept (late_in self.now) h }
    {
        self.engine.held()
    }

    /// Lays it to rest outside a batch: what is left is all that it keeps, and no memory that it only works in.
    pub fn rest(self) -> Resting
        requires { (h : History) × Watches self h × (in_batch h ≡ false) }
        ensures rests { (h : History) → Watches self h → Rests result h }
        ensures rules { rules_at_rest result ≡ rules_in self }
        ensures late { late_at_rest result ≡ late_in self }
    {
        let Watch {
            alloc: _,
            engine,
            count,
        } = self;
        Resting {
            parts: engine.apart(),
            count,
        }
    }

    /// Takes an input, and reports what it changes or why it is refused. A caller that follows the reports, who drops the detections
    /// that have gone and adds those that have come, has exactly those that stand. After an `Err` the watch is of no more use.
    pub fn take(&mut self, input: Input) -> Result<Report, WatchFault>
        requires watches { (h : History) × Watches self.old h }
        requires room { count_in self.old < MOST_COPIES }
        ensures watches { (h : History) → Watches self.old h → OnOk result (Watches self.new (after (late_in self.old) h input)) }
        ensures says { (h : History) → Watches self.old h → IfOk result (λ report. Says report (rules_in self.old) (late_in self.old) h input) }
        ensures told { (h : History) → Watches self.old h → IfOk result (λ report.
            told_by (standing_after (rules_in self.old) h) report ≡ standing_after (rules_in self.old) (after (late_in self.old) h input)) }
        ensures rules { OnOk result (rules_in self.new ≡ rules_in self.old) }
        ensures late { OnOk result (late_in self.new ≡ late_in self.old) }
        ensures memory { IsOkUnless result Memory }
    {
        match self.engine.judge(&input) {
            Judgement::Fine => {}
            why => return Ok(Report::Refused(why)),
        }
        self.engine.begin(input)?;
        self.count += 1;
        if !self.engine.working() {
            return Ok(Report::Kept);
        }
        finish(&mut self.engine)?;
        Ok(Report::Changed {
            gone: shared(self.alloc, self.engine.gone())?,
            come: shared(self.alloc, self.engine.come())?,
        })
    }
}
