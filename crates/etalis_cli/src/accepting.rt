// Rule files to engines.
ghost use Rattle.std.specs.Prelude.{◌≡◌, ◌<◌, ℕ, List, IfOk, IfSome};
ghost use Rattle.event_model.specs.Presence.{no_history};
ghost use Rattle.event_model.specs.declared.events.TheConstants.{TIME_LIMIT};
ghost use Rattle.rule_ast.specs.Trees.{PlainStatement};
ghost use Rattle.etalis_core.specs.StandsFor.{StandsFor, late_of};
ghost use Rattle.etalis_cli.specs.Rules.{Accepted, IsRead, IsJudged};

use crate::refusals::FileRefusal;
use etalis_core::{Engine, StartFault};
use rule_check::{CheckFault, Checked, check};
use rule_parser::{ParseFault, parse};
use std::alloc::Global;

/// The most bytes of a rule file.
pub const MOST_FILE_BYTES: usize = 1_048_576;

/// Why no engine was made of a file.
pub enum AcceptFault {
    Refused(FileRefusal),
    Memory,
}

// The sound rules that a file holds.
fn read_sound(alloc: Global, file: &[u8]) -> Result<Checked, AcceptFault>
    ensures { IsRead file.now result }
{
    if file.len() > MOST_FILE_BYTES {
        return Err(AcceptFault::Refused(FileRefusal::TooLong));
    }
    let text = match str::from_utf8(file) {
        Ok(text) => text,
        Err(error) => return Err(AcceptFault::Refused(FileRefusal::NotUtf8(error.valid_up_to()))),
    };
    let rules = match parse(alloc, text) {
        Ok(rules) => rules,
        Err(ParseFault::Syntax(at)) => return Err(AcceptFault::Refused(FileRefusal::Syntax(at))),
        Err(ParseFault::Limit(which, at)) => {
            return Err(AcceptFault::Refused(FileRefusal::Limit(which, at)));
        }
        Err(ParseFault::Memory) => return Err(AcceptFault::Memory),
    };
    match check(alloc, rules) {
        Ok(checked) => Ok(checked),
        Err(fault) => match fault {
            CheckFault::Memory => Err(AcceptFault::Memory),
            fault => Err(AcceptFault::Refused(FileRefusal::Unsound(fault))),
        },
    }
}

/// An engine of the rules that a file is accepted as, before the first input.
pub fn accept(alloc: Global, file: &[u8], late: Option<u64>) -> Result<Engine, AcceptFault>
    requires { IfSome late (λ l. l < TIME_LIMIT) }
    ensures judged { IsJudged file.now result }
    ensures stands { IfOk result (λ engine. StandsFor engine no_history) }
    ensures late { IfOk result (λ engine. late_of engine ≡ late) }
{
    let rules = read_sound(alloc, file)?;
    match Engine::new(alloc, rules, late) {
        Ok(engine) => Ok(engine),
        Err(StartFault::TooMany) => Err(AcceptFault::Refused(FileRefusal::TooManySteps)),
        Err(StartFault::Memory) => Err(AcceptFault::Memory),
    }
}

/// No file is accepted as two lists of rules.
pub fn files_have_one_meaning()
    ensures { (file : List ℕ) (rules others : List PlainStatement) → Accepted file rules → Accepted file others → rules ≡ others }
{}
