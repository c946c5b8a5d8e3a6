// What a text within the limits says.
ghost use Rattle.std.specs.Prelude.{◌≤◌, length};
ghost use Rattle.rule_ast.specs.Shaped.{IsShaped};
ghost use Rattle.rule_ast.specs.Shown.{shown_names};
ghost use Rattle.rule_grammar.specs.Trees.{Statements};
ghost use Rattle.rule_grammar.specs.Marks.{nothing_counted};
ghost use Rattle.rule_grammar.specs.Tokens.{text, bare};
ghost use Rattle.rule_grammar.specs.Values.{text_value};
ghost use Rattle.rule_grammar.specs.Texts.{IsWithin};

/// A text within the limits says rules that are shaped, and a text shows no more names than it has tokens.
pub fn texts_are_shaped()
    ensures shaped { (ss : Statements) → IsWithin nothing_counted (text ss) → IsShaped (text_value ss) }
    ensures few_shown { (ss : Statements) → length (shown_names (text_value ss)) ≤ length (bare (text ss)) }
{}
