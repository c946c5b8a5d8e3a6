// The terminals that words and signs stand for.
ghost use Rattle.std.specs.Prelude.{◌≡◌};
ghost use Rattle.rule_lexer.specs.Lexing.{word_terminal, mark_terminal};

use crate::terminals::Terminal;
use crate::tokens::{Mark, Word};
use event_model::Op;
use rule_ast::Cmp;

pub(crate) fn word_terminal(word: Word) -> Terminal
    ensures { result ≡ word_terminal word }
{
    match word {
        Word::Seq => Terminal::Op(Op::Seq),
        Word::And => Terminal::Op(Op::And),
        Word::Par => Terminal::Op(Op::Par),
        Word::Or => Terminal::Or,
        Word::Equals => Terminal::Op(Op::Equals),
        Word::Meets => Terminal::Op(Op::Meets),
        Word::During => Terminal::Op(Op::During),
        Word::Starts => Terminal::Op(Op::Starts),
        Word::Finishes => Terminal::Op(Op::Finishes),
        Word::Not => Terminal::Not,
        Word::Where => Terminal::Where,
        Word::Within => Terminal::Within,
        Word::Show => Terminal::Show,
    }
}

pub(crate) fn mark_terminal(mark: Mark) -> Terminal
    ensures { result ≡ mark_terminal mark }
{
    match mark {
        Mark::OpenRound => Terminal::Open,
        Mark::CloseRound => Terminal::Close,
        Mark::OpenSquare => Terminal::Stray,
        Mark::CloseSquare => Terminal::Square,
        Mark::Comma => Terminal::Comma,
        Mark::Arrow => Terminal::Arrow,
        Mark::Plus => Terminal::Plus,
        Mark::Minus => Terminal::Minus,
        Mark::Star => Terminal::Star,
        Mark::Slash => Terminal::Slash,
        Mark::Percent => Terminal::Percent,
        Mark::Equal => Terminal::Compare(Cmp::Eq),
        Mark::NotEqual => Terminal::Compare(Cmp::Ne),
        Mark::Less => Terminal::Compare(Cmp::Lt),
        Mark::LessEqual => Terminal::Compare(Cmp::Le),
        Mark::Greater => Terminal::Compare(Cmp::Gt),
        Mark::GreaterEqual => Terminal::Compare(Cmp::Ge),
        Mark::Both => Terminal::Both,
        Mark::Either => Terminal::Either,
        Mark::Bang => Terminal::Bang,
        Mark::Limits => Terminal::Limits,
        Mark::Length => Terminal::Length,
        Mark::End => Terminal::End,
    }
}
