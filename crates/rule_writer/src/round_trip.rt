// Canonical text is read back.
ghost use Rattle.std.specs.Prelude.{ℕ, List, IsUtf8};
ghost use Rattle.rule_ast.specs.Trees.{PlainStatement};
ghost use Rattle.rule_grammar.specs.Files.{Holds};
ghost use Rattle.rule_writer.specs.Canonical.{canonical};

use rule_lexer::{terminals_are_proper, written_is_read};

/// The canonical text of the rules that a text holds, holds them too, and is UTF-8.
pub fn rule_files_are_read_back()
    ensures held { (text : List ℕ) (rules : List PlainStatement) → Holds text rules → Holds (canonical rules) rules }
    ensures utf8 { (text : List ℕ) (rules : List PlainStatement) → IsUtf8 text → Holds text rules → IsUtf8 (canonical rules) }
{
    terminals_are_proper();
    written_is_read();
}
