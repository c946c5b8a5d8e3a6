// What the words of the top call come to.
ghost use Rattle.std.specs.Prelude.{ℕ, Option, List};
ghost use Rattle.rule_ast.specs.Trees.{PlainStatement};
ghost use Rattle.etalis_cli.specs.Headline.{IsWritten, IsHeld, IsScratched, IsDrilled, FirstReplies, LeavesWhatStands};
ghost use Rattle.etalis_cli.specs.Output.{Setting};

/// What is written for an input is the text of a reply for each of its lines, and the end. Where it is told what is held, this stands
/// behind each reply that says that its line is accepted. Where only refusals are told it is these, and what stands behind the last
/// line, and the end; and where answers are counted it is how many detections the replies tell and withdraw, how many visits of rows
/// are made for them, and the most rows that are held behind one. The replies to the first lines of an input are the first replies.
/// What these leave, each taking its detections away and adding its own, is what stands after these lines: over the events that are
/// present, but for those of an open batch.
pub fn what_is_written_stands()
    ensures written { (rules : List PlainStatement) (late : Option ℕ) (bytes : List ℕ) → IsWritten rules late bytes }
    ensures held { (rules : List PlainStatement) (late : Option ℕ) (bytes : List ℕ) → IsHeld rules late bytes }
    ensures scratched { (rules : List PlainStatement) (late : Option ℕ) (bytes : List ℕ) → IsScratched rules late bytes }
    ensures drilled { (rules : List PlainStatement) (late : Option ℕ) (bytes : List ℕ) → IsDrilled rules late bytes }
    ensures first { (w : Setting) (n : ℕ) (lines : List (List ℕ)) → FirstReplies w n lines }
    ensures left { (w : Setting) (lines : List (List ℕ)) → LeavesWhatStands w lines }
{}
