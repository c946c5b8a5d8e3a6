// The paths by which callers of the library name its parts.

pub use detect_writer::{
    Refusal, change_text, drill_text, end_text, held_text, ok_text, refusal_text,
};
pub use etalis_cli::{Job, Mode, Status, WordsFault, exit_code, run, run_words};
pub use etalis_core::{Engine, EngineFault, StartFault};
pub use ev_bind::{Binding, Row, cmp_rows, match_atom};
pub use ev_term::{
    Atom, Detection, Edge, Event, Name, NameArity, Op, Pat, PatAtom, Pats, Slot, Slots, Span, Term,
    TermFault, Terms, atom_text, cmp_detections, cmp_terms, read_atom, read_ground, term_text,
};
pub use event_reader::{Input, Judgement, Line, LineFault, LineReader, parse_line};
pub use flow_ports::{
    Failed, FileShelf, FromReader, MemShelf, MemSink, MemSource, Shelf, Sink, Source, ToWriter,
    WholeFault, read_whole, write_whole,
};
pub use interval_ops::{Range, Side, in_range, pair, partner_range};
pub use pattern_meaning::scratch;
pub use revision::{Changed, Changes, EventChange, Progress, Sign};
pub use rule_ast::{Calc, Cmp, Cond, Pattern, Rule, RuleSet, Statement, vars_of};
pub use rule_check::{CheckFault, Checked, check};
pub use rule_lexer::{LexFault, LexKind, Mark, Token, TokenKind, Word, next_token};
pub use rule_parser::{ParseFault, Which, parse, rules_text};
pub use term_eval::{Value, holds, value_of};
