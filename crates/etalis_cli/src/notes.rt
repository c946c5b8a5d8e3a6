// What is told where a run wasn't done.
ghost use Rattle.std.specs.Prelude.{◌≡◌, OnOk, OnErr};
ghost use Rattle.flow_ports.specs.Flow.{CountsFaults, Rose, Gives, GivesPart};
ghost use Rattle.etalis_cli.specs.Rules.{numbered, placed, named, limit_words, fault_note, refusal_note};
ghost use Rattle.etalis_cli.specs.Run.{note_of, Told};

use crate::refusals::FileRefusal;
use crate::status::Cause;
use event_model::Name;
use flow_ports::{Failed, Sink, write_whole};
use itoa::Buffer;
use rule_check::CheckFault;
use rule_grammar::Which;

// Writes a number in decimal between words.
fn write_numbered<N: Sink>(
    notes: &mut N,
    front: &[u8],
    number: u64,
    back: &[u8],
) -> Result<(), Failed>
    ensures ok { OnOk result (Gives (N.got notes.old) (N.got notes.new) (numbered front.now number back.now)) }
    ensures err { OnErr result (GivesPart (N.got notes.old) (N.got notes.new) (numbered front.now number back.now)) }
    ensures count { CountsFaults (N.faults notes.old) (N.faults notes.new) result }
{
    let mut buffer = Buffer::new();
    write_whole(notes, front)?;
    write_whole(notes, buffer.format(number).as_bytes())?;
    write_whole(notes, back)
}

// Writes a fault of a rule, with the name of a variable.
fn write_named<N: Sink>(notes: &mut N, number: u64, words: &[u8], name: &Name) -> Result<(), Failed>
    ensures ok { OnOk result (Gives (N.got notes.old) (N.got notes.new) (named number words.now name.now)) }
    ensures err { OnErr result (GivesPart (N.got notes.old) (N.got notes.new) (named number words.now name.now)) }
    ensures count { CountsFaults (N.faults notes.old) (N.faults notes.new) result }
{
    write_numbered(notes, b"etalis: rules: rule ", number, words)?;
    write_whole(notes, name.as_str().as_bytes())?;
    write_whole(notes, b"\n")
}

fn limit_words(which: Which) -> &'static [u8]
    ensures { result.now ≡ limit_words which }
{
    match which {
        Which::Statements => b"etalis: rules: limit statements at ",
        Which::Parts => b"etalis: rules: limit parts at ",
        Which::Depth => b"etalis: rules: limit depth at ",
        Which::Variables => b"etalis: rules: limit variables at ",
        Which::TermDepth => b"etalis: rules: limit term depth at ",
        Which::TermWidth => b"etalis: rules: limit term width at ",
        Which::Length => b"etalis: rules: limit length at ",
    }
}

fn tell_words<N: Sink>(notes: &mut N, words: &[u8])
    ensures { Told (N.got notes.old) (N.got notes.new) (Rose (N.faults notes.old) (N.faults notes.new)) words.now }
{
    match write_whole(notes, words) {
        Ok(()) => {}
        Err(Failed) => {}
    }
}

fn tell_numbered<N: Sink>(notes: &mut N, front: &[u8], number: u64, back: &[u8])
    ensures { Told (N.got notes.old) (N.got notes.new) (Rose (N.faults notes.old) (N.faults notes.new))
        (numbered front.now number back.now) }
{
    match write_numbered(notes, front, number, back) {
        Ok(()) => {}
        Err(Failed) => {}
    }
}

fn tell_placed<N: Sink>(notes: &mut N, words: &[u8], at: usize)
    ensures { Told (N.got notes.old) (N.got notes.new) (Rose (N.faults notes.old) (N.faults notes.new)) (placed words.now at) }
{
    tell_numbered(notes, words, at as u64, b"\n");
}

fn tell_named<N: Sink>(notes: &mut N, number: u32, words: &[u8], name: &Name)
    ensures { Told (N.got notes.old) (N.got notes.new) (Rose (N.faults notes.old) (N.faults notes.new)) (named number words.now name.now) }
{
    match write_named(notes, u64::from(number), words, name) {
        Ok(()) => {}
        Err(Failed) => {}
    }
}

// Writes why rules are refused.
fn tell_fault<N: Sink>(notes: &mut N, fault: &CheckFault)
    ensures { Told (N.got notes.old) (N.got notes.new) (Rose (N.faults notes.old) (N.faults notes.new)) (fault_note fault.now) }
{
    match fault {
        CheckFault::HeadUnbound(number, name) => tell_named(notes, *number, b": head ", name),
        CheckFault::WhereUnbound(number, name) => tell_named(notes, *number, b": where ", name),
        CheckFault::OrVariables(number, name) => tell_named(notes, *number, b": or ", name),
        CheckFault::NotVariables(number, name) => tell_named(notes, *number, b": not ", name),
        CheckFault::ShowUnknown(number) => {
            tell_numbered(
                notes,
                b"etalis: rules: show ",
                u64::from(*number),
                b": unknown\n",
            );
        }
        CheckFault::Cycle(number) => {
            tell_numbered(
                notes,
                b"etalis: rules: rule ",
                u64::from(*number),
                b": cycle\n",
            );
        }
        CheckFault::Memory => tell_words(notes, b"etalis: out of memory\n"),
    }
}

// Writes why a rule file is refused.
fn tell_refusal<N: Sink>(notes: &mut N, refusal: &FileRefusal)
    ensures { Told (N.got notes.old) (N.got notes.new) (Rose (N.faults notes.old) (N.faults notes.new)) (refusal_note refusal.now) }
{
    match refusal {
        FileRefusal::TooLong => tell_words(notes, b"etalis: rules: over 1048576 bytes\n"),
        FileRefusal::NotUtf8(at) => tell_placed(notes, b"etalis: rules: not utf-8 at ", *at),
        FileRefusal::Syntax(at) => tell_placed(notes, b"etalis: rules: syntax at ", *at),
        FileRefusal::Limit(which, at) => tell_placed(notes, limit_words(*which), *at),
        FileRefusal::Unsound(fault) => tell_fault(notes, fault),
        FileRefusal::TooManySteps => tell_words(notes, b"etalis: rules: over 65536 steps\n"),
    }
}

/// Writes the note of a cause. A failure is dropped.
pub fn tell<N: Sink>(notes: &mut N, cause: &Cause)
    ensures { Told (N.got notes.old) (N.got notes.new) (Rose (N.faults notes.old) (N.faults notes.new)) (note_of cause.now) }
{
    match cause {
        Cause::Done => {}
        Cause::Usage => tell_words(
            notes,
            b"etalis: usage: etalis MODE RULES [--late N] [--seed N] [--lines N]\n",
        ),
        Cause::RulesRefused(refusal) => tell_refusal(notes, refusal),
        Cause::RulesUnread => tell_words(notes, b"etalis: cannot read rules\n"),
        Cause::InputUnread => tell_words(notes, b"etalis: cannot read input\n"),
        Cause::WriteFault => tell_words(notes, b"etalis: cannot write\n"),
        Cause::Memory => tell_words(notes, b"etalis: out of memory\n"),
        Cause::TooLong => tell_words(notes, b"etalis: input too long\n"),
    }
}
