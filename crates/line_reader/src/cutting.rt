// Laws of lines that are cut from bytes.
ghost use Rattle.std.specs.Prelude.{◌≡◌, ℕ, List, [], ◌∷◌, ◌++◌, map};
ghost use Rattle.event_model.specs.Bytes.{feed};
ghost use Rattle.event_model.specs.Lines.{without_cr, ended_from, rest_from, ended, rest, last_line, lines_of};
ghost use Rattle.line_reader.specs.Cutting.{NoFeed, AreLines, with_feeds};

/// The first line and those behind it, bytes without a line feed, and a part that came before.
pub fn first_lines_are_cut_off()
    ensures first { (raw more : List ℕ) → NoFeed raw → ended (raw ++ feed ∷ more) ≡ without_cr raw ∷ ended more }
    ensures behind { (raw more : List ℕ) → NoFeed raw → rest (raw ++ feed ∷ more) ≡ rest more }
    ensures none { (bytes : List ℕ) → NoFeed bytes → ended bytes ≡ [] }
    ensures all { (bytes : List ℕ) → NoFeed bytes → rest bytes ≡ bytes }
    ensures part { (part piece : List ℕ) → NoFeed part → ended_from part piece ≡ ended (part ++ piece) }
    ensures left { (part piece : List ℕ) → NoFeed part → rest_from part piece ≡ rest (part ++ piece) }
    ensures plain { (bytes : List ℕ) → NoFeed (rest bytes) }
{}

/// Lines that were given, each with its line feed, and then an open line are what was fed, however
/// it came in pieces: so they are its lines.
pub fn given_lines_are_the_lines()
    ensures { (raws : List (List ℕ)) (left : List ℕ) → AreLines raws → NoFeed left
        → lines_of (with_feeds raws ++ left) ≡ map without_cr raws ++ last_line left }
{}
