// How a run ends.
ghost use Rattle.std.specs.Prelude.{◌≡◌};
ghost use Rattle.etalis_cli.specs.Run.{status_of, exit_code};

use crate::refusals::FileRefusal;

/// How a run ends.
#[derive(Clone, Copy, Debug, PartialEq, Eq)]
pub enum Status {
    Done,
    Usage,
    RulesRefused,
    ReadFault,
    WriteFault,
    Memory,
    TooLong,
}

/// Why a run ended: a status, of which the read fault has two notes.
#[derive(Debug, Drop)]
pub enum Cause {
    Done,
    Usage,
    RulesRefused(FileRefusal),
    RulesUnread,
    InputUnread,
    WriteFault,
    Memory,
    TooLong,
}

/// The exit status of the program.
pub fn exit_code(status: Status) -> u8
    ensures { result ≡ exit_code status }
{
    match status {
        Status::Done => 0,
        Status::Usage => 1,
        Status::RulesRefused => 2,
        Status::ReadFault => 3,
        Status::WriteFault => 4,
        Status::Memory => 5,
        Status::TooLong => 6,
    }
}

/// The status that a cause is told by.
pub fn status_of(cause: &Cause) -> Status
    ensures { result ≡ status_of cause.now }
{
    match cause {
        Cause::Done => Status::Done,
        Cause::Usage => Status::Usage,
        Cause::RulesRefused(_) => Status::RulesRefused,
        Cause::RulesUnread | Cause::InputUnread => Status::ReadFault,
        Cause::WriteFault => Status::WriteFault,
        Cause::Memory => Status::Memory,
        Cause::TooLong => Status::TooLong,
    }
}
