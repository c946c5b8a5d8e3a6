// The rows that aren't kept at a bound go.
ghost use Rattle.std.specs.Prelude.{◌≡◌, ◌<◌, ◌&&◌, ℕ, true, false, not, Some, None, if◌then◌else◌};
ghost use Rattle.ev_bind.specs.declared.rows.Row.{Row};
ghost use Rattle.support_table.specs.Supports.{count_of, Counts};
ghost use Rattle.support_table.specs.declared.kept.Supports.{Supports};
ghost use Rattle.goal_store.specs.Goals.{mark_at, AllOld, Marks, SamePlan};
ghost use Rattle.goal_store.specs.Marks.{was_old};
ghost use Rattle.goal_store.specs.declared.kept.GoalStore.{GoalStore};
ghost use Rattle.change_meaning.specs.Caps.{PlainCaps, keeps};
ghost use Rattle.goal_purge.specs.Expiring.{due, entry_count, has_goal, Follows};
ghost use Rattle.goal_purge.specs.Purging.{Purges, NoneDue};

use crate::expiries::Expiries;
use ev_bind::Row;
use goal_store::{GoalStore, Mark};
use rule_ast::StepId;
use support_table::Supports;

// The numbers of the row that went last, which the next one often has too.
#[derive(Clone, Copy)]
struct Last {
    goal: usize,
    support: usize,
}

// The goal of a step is dying from now on, where it is old; answers whether it was. The last number is tried first.
fn drop_goal(goals: &mut GoalStore, last: &mut Last, step: StepId, row: &Row) -> bool
    ensures was { result ≡ was_old (mark_at goals.old step row.now) }
    ensures dropped { result ≡ true → Marks goals.old goals.new step row.now (Some Mark.Dying) }
    ensures plan { SamePlan goals.old goals.new }
{
    match goals.near(last.goal, row) {
        None => false,
        Some(number) => {
            last.goal = number;
            goals.drop_at(number, step)
        }
    }
}

// A step has a row no more. The last number is tried first.
fn forget(supports: &mut Supports, last: &mut Last, step: StepId, row: &Row)
    ensures { Counts supports.old supports.new step row.now 0 }
{
    match supports.near(last.support, row) {
        None => {}
        Some(number) => {
            last.support = number;
            supports.forget_at(number, step);
            supports.release(number);
        }
    }
}

// The first row goes, where it isn't kept at the bound: its goal is dying, and it has no support. Answers whether there was one.
fn drop_first(
    goals: &mut GoalStore,
    supports: &mut Supports,
    expiries: &mut Expiries,
    last: &mut Last,
    bound: u64,
) -> bool
    ensures purges { (caps : PlainCaps) (g : GoalStore) (u : Supports)
        → Purges caps bound g u goals.old supports.old expiries.old → Purges caps bound g u goals.new supports.new expiries.new }
    ensures none { result ≡ false → NoneDue bound expiries.new }
    ensures fewer { result ≡ true → entry_count expiries.new < entry_count expiries.old }
    ensures plan { SamePlan goals.old goals.new }
{
    match expiries.pop(bound) {
        None => false,
        Some(expiry) => {
            drop_goal(goals, last, expiry.step, &expiry.row);
            forget(supports, last, expiry.step, &expiry.row);
            true
        }
    }
}

/// The goals whose rows aren't kept at a bound go, with their supports. It takes no memory.
pub fn purge(goals: &mut GoalStore, supports: &mut Supports, expiries: &mut Expiries, bound: u64)
    ensures marks { (caps : PlainCaps) → AllOld goals.old → Follows caps (has_goal goals.old) expiries.old → (s : ℕ) (r : Row)
        → mark_at goals.new s r ≡ (if keeps caps bound s r then mark_at goals.old s r else None) }
    ensures counts { (caps : PlainCaps) → AllOld goals.old → Follows caps (has_goal goals.old) expiries.old → (s : ℕ) (r : Row)
        → count_of supports.new s r ≡ (if has_goal goals.old s r && not (keeps caps bound s r) then 0 else count_of supports.old s r) }
    ensures follows { (caps : PlainCaps) → AllOld goals.old → Follows caps (has_goal goals.old) expiries.old
        → Follows caps (has_goal goals.new) expiries.new }
    ensures plan { SamePlan goals.old goals.new }
{
    let mut last = Last {
        goal: 0,
        support: 0,
    };
    while drop_first(goals, supports, expiries, &mut last, bound) {}
    goals.settle();
}
