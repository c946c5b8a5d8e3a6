// Random rule files and lines: what a run writes is what the plain evaluator finds before and after each line.
use crate::fixtures::writes;
use crate::modes::{follow, next_input};
use detect_writer::{change_text, end_text, ok_text};
use ev_term::Detection;
use event_changes::Sign;
use event_reader::{Input, LineReader};
use pattern_meaning::scratch;
use rand::SeedableRng;
use rand::rngs::SmallRng;
use rand_core::Rng;
use rule_check::{Checked, check};
use rule_parser::parse;
use std::alloc::{AllocError, Global};
use std::test::Fail;

const FILES: u64 = 40;

const LINES: usize = 16;

const OPERATORS: [&[u8]; 8] = [
    b" SEQ ",
    b" AND ",
    b" PAR ",
    b" EQUALS ",
    b" MEETS ",
    b" DURING ",
    b" STARTS ",
    b" FINISHES ",
];

// A part of a pattern that is still to be drawn.
#[derive(Clone, Copy)]
enum Part {
    Text(&'static [u8]),
    Digit(u32),
    // Of operators up to this depth; it binds X, or binds nothing.
    Pattern { depth: u32, binds: bool },
}

// A pattern of a lower depth than this one.
fn inner(depth: u32, binds: bool) -> Part {
    Part::Pattern {
        depth: depth.saturating_sub(1),
        binds,
    }
}

// These parts come next.
fn put(parts: &mut Vec<Part>, pieces: &[Part]) -> Result<(), AllocError> {
    for piece in pieces.iter().rev() {
        parts.push(*piece)?;
    }
    Ok(())
}

// Text that is drawn at random.
#[derive(Drop)]
struct Draft {
    alloc: Global,
    rng: SmallRng,
    text: Vec<u8>,
}

impl Draft {
    fn new(alloc: Global, seed: u64) -> Draft {
        Draft {
            alloc,
            rng: SmallRng::seed_from_u64(seed),
            text: Vec::new(alloc),
        }
    }

    // A number below this one; 0 where it is 0.
    fn below(&mut self, many: u32) -> u32 {
        if many == 0 {
            return 0;
        }
        self.rng.next_u32() % many
    }

    fn push(&mut self, bytes: &[u8]) -> Result<(), AllocError> {
        self.text.extend_from_slice(bytes)
    }

    fn push_digit(&mut self, many: u32) -> Result<(), AllocError> {
        let digit = self.below(many) % 10;
        self.text.push(b'0' + digit as u8)?;
        Ok(())
    }

    // An atom that binds X, or binds nothing; of the first rules' names too.
    fn push_atom(&mut self, rules: u32, binds: bool) -> Result<(), AllocError> {
        const NAMES: [&[u8]; 6] = [b"a(", b"b(", b"c(", b"d(1,", b"r(", b"s("];
        let many = match rules {
            0 => 4,
            1 => 5,
            _ => 6,
        };
        let name = self.below(many) as usize % 6;
        self.push(NAMES[name])?;
        self.push(if binds { b"X)" } else { b"_)" })
    }

    // The parts of a pattern.
    fn open(
        &mut self,
        depth: u32,
        rules: u32,
        binds: bool,
        parts: &mut Vec<Part>,
    ) -> Result<(), AllocError> {
        const COMPARES: [&[u8]; 3] = [b" WHERE X > ", b" WHERE X <= ", b" WHERE X != "];
        if depth == 0 {
            return self.push_atom(rules, binds);
        }
        let left = binds && self.below(3) > 0;
        let right = binds && (!left || self.below(2) > 0);
        let operator = OPERATORS[self.below(8) as usize % 8];
        let compare = COMPARES[self.below(3) as usize % 3];
        let inside = binds && self.below(2) > 0;
        match self.below(10) {
            0 => self.push_atom(rules, binds),
            1 => put(
                parts,
                &[
                    Part::Text(b"("),
                    inner(depth, binds),
                    Part::Text(b" OR "),
                    inner(depth, binds),
                    Part::Text(b")"),
                ],
            ),
            2 | 3 => put(
                parts,
                &[
                    Part::Text(b"NOT("),
                    inner(depth, inside),
                    Part::Text(b").["),
                    inner(depth, left),
                    Part::Text(b","),
                    inner(depth, right),
                    Part::Text(b"]"),
                ],
            ),
            4 => put(
                parts,
                &[
                    Part::Text(b"("),
                    inner(depth, binds),
                    Part::Text(b")."),
                    Part::Digit(6),
                ],
            ),
            5 => put(
                parts,
                &[
                    Part::Text(b"("),
                    inner(depth, binds),
                    Part::Text(b") WITHIN "),
                    Part::Digit(8),
                ],
            ),
            6 if binds => put(
                parts,
                &[
                    Part::Text(b"("),
                    inner(depth, true),
                    Part::Text(compare),
                    Part::Digit(3),
                    Part::Text(b")"),
                ],
            ),
            _ => put(
                parts,
                &[
                    Part::Text(b"("),
                    inner(depth, left),
                    Part::Text(operator),
                    inner(depth, right),
                    Part::Text(b")"),
                ],
            ),
        }
    }

    // A pattern of operators up to this depth.
    fn push_pattern(&mut self, depth: u32, rules: u32, binds: bool) -> Result<(), AllocError> {
        let mut parts = Vec::new(self.alloc);
        parts.push(Part::Pattern { depth, binds })?;
        for _part in 0..10_000 {
            let Some(part) = parts.pop() else {
                return Ok(());
            };
            match part {
                Part::Text(text) => self.push(text)?,
                Part::Digit(many) => self.push_digit(many)?,
                Part::Pattern { depth, binds } => self.open(depth, rules, binds, &mut parts)?,
            }
        }
        Ok(())
    }

    fn push_rule(&mut self, head: &[u8], rules: u32, binds: bool) -> Result<(), AllocError> {
        self.push(head)?;
        self.push(b" <- ")?;
        self.push_pattern(3, rules, binds)?;
        self.push(b".\n")
    }

    // Three names, the later ones over the earlier ones.
    fn push_rules(&mut self) -> Result<(), AllocError> {
        self.push_rule(b"r(X)", 0, true)?;
        self.push_rule(b"r(X)", 0, true)?;
        self.push_rule(b"s(X)", 1, true)?;
        self.push_rule(b"t", 2, false)?;
        self.push_rule(b"u(X,X)", 2, true)
    }

    // One of few events, at a time or from a time to another.
    fn push_event(&mut self) -> Result<(), AllocError> {
        const NAMES: [&[u8]; 5] = [b"a(", b"b(", b"c(", b"d(1,", b"r("];
        self.push_digit(5)?;
        if self.below(2) > 0 {
            self.push(b"..")?;
            let digit = self.below(4) % 5;
            self.text.push(b'5' + digit as u8)?;
        }
        let name = self.below(5) as usize % 5;
        self.push(b" ")?;
        self.push(NAMES[name])?;
        self.push_digit(2)?;
        self.push(b")\n")
    }
}

// The rules of a seed.
fn drawn_rules(alloc: Global, seed: u64) -> Result<Vec<u8>, AllocError> {
    let mut draft = Draft::new(alloc, seed);
    draft.push_rules()?;
    Ok(draft.text)
}

// The lines of a seed: events come, and those that came go again; some in batches.
fn drawn_lines(alloc: Global, seed: u64) -> Result<Vec<u8>, AllocError> {
    let mut events = Draft::new(alloc, seed);
    let mut came = Vec::new(alloc);
    let mut in_batch = false;
    let mut text = Vec::new(alloc);
    for _line in 0..LINES {
        if events.below(6) == 0 {
            text.extend_from_slice(if in_batch { b"commit\n" } else { b"begin\n" })?;
            in_batch = !in_batch;
        }
        let place = events.below(24) as usize;
        if place < came.len() {
            let gone: Vec<u8> = came.swap_remove(place);
            text.extend_from_slice(b"- ")?;
            text.extend_from_slice(&gone)?;
        } else {
            events.text.clear();
            events.push_event()?;
            text.extend_from_slice(b"+ ")?;
            text.extend_from_slice(&events.text)?;
            came.push(events.text.to_vec(alloc)?)?;
        }
    }
    Ok(text)
}

// Appends a line for each of these that isn't among the others.
fn push_missing(
    sign: Sign,
    these: &[Detection],
    others: &[Detection],
    text: &mut Vec<u8>,
) -> Result<(), AllocError> {
    for one in these {
        if !others.contains(one) {
            change_text(sign, one, text)?;
        }
    }
    Ok(())
}

// What the plain evaluator has written over these lines, all of which are accepted.
fn found(alloc: Global, rules: &Checked, lines: &[u8]) -> Result<Vec<u8>, Fail> {
    let mut reader = LineReader::new(alloc);
    reader.feed(lines)?;
    let mut events = Vec::new(alloc);
    let mut before = Vec::new(alloc);
    let mut in_batch = false;
    let mut text = Vec::new(alloc);
    let mut count: u64 = 0;
    for _line in 0..lines.iter().filter(|byte| **byte == b'\n').count() {
        let input = next_input(alloc, &mut reader)?;
        count = count.saturating_add(1);
        match &input {
            Input::Begin => in_batch = true,
            Input::Commit => in_batch = false,
            _ => {}
        }
        follow(&mut events, input)?;
        if !in_batch {
            let after = scratch(alloc, rules, &events)?;
            push_missing(Sign::Minus, &before, &after, &mut text)?;
            push_missing(Sign::Plus, &after, &before, &mut text)?;
            ok_text(count, &mut text)?;
            before = after;
        }
    }
    end_text(count, in_batch, &mut text)?;
    Ok(text)
}

#[test]
fn runs_agree_with_the_plain_evaluator(rt: HostRuntime) -> Result<(), Fail> {
    for seed in 0..FILES {
        let rules = drawn_rules(rt.alloc(), seed)?;
        let lines = drawn_lines(rt.alloc(), seed)?;
        let Ok(text) = str::from_utf8(&rules) else {
            return Err(Fail::new("no text"));
        };
        if text.len() > 1_000_000 {
            return Err(Fail::new("a long text"));
        }
        let Ok(parsed) = parse(rt.alloc(), text) else {
            return Err(Fail::new("no rules"));
        };
        let Ok(checked) = check(rt.alloc(), parsed) else {
            return Err(Fail::new("no sound rules"));
        };
        let wanted = found(rt.alloc(), &checked, &lines)?;
        writes(&rt, &["run", "r"], &rules, &lines, &wanted)?;
    }
    Ok(())
}
