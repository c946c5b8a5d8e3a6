// Whole runs: what is written, and the status, for an input in pieces and with calls that fail.
use crate::fixtures::{AB, CALM, Setting, run_over, writes};
use etalis_cli::Status;
use std::test::Fail;

const ABSENT: &[u8] = b"n(X) <- NOT(c(X)).[a(X),b(X)].";

#[test]
fn documented_outputs(rt: HostRuntime) -> Result<(), Fail> {
    let rows: [(&[u8], &[u8], &[u8]); 7] = [
        (
            AB,
            b"+ 1 a(7)\n+ 2 b(7)\n",
            b"ok 1\n+ 1 2 ab(7)\nok 2\nend 2\n",
        ),
        (AB, b"+ 1 a(7)\n+ 1 b(7)\n", b"ok 1\nok 2\nend 2\n"),
        (
            AB,
            b"+ 5 ab(9)\n+ 5 ab(9)\n",
            b"+ 5 5 ab(9)\nok 1\nok 2\nend 2\n",
        ),
        (AB, b"", b"end 0\n"),
        (
            AB,
            b"+ 1 a(\"x,\\n\")\n+ 2 a(f(g,-2))\n+ 3 b(\"x,\\n\")\n+ 3 b(f(g, -2))\n+ 4 b(f(g,-2))\n",
            b"ok 1\nok 2\n+ 1 3 ab(\"x,\\n\")\nok 3\n+ 2 3 ab(f(g,-2))\nok 4\n+ 2 4 ab(f(g,-2))\nok 5\nend 5\n",
        ),
        (
            AB,
            b"+ 1 a(7)\n- 1 a(7)\n+ 1 a(7)\r\n+ 2 b(7)",
            b"ok 1\nok 2\nok 3\n+ 1 2 ab(7)\nok 4\nend 4\n",
        ),
        (
            b"h <- a(_) SEQ b(\"x\").",
            b"+ 1 a(f(2))\n+ 3 b(\"x\")\n",
            b"ok 1\n+ 1 3 h\nok 2\nend 2\n",
        ),
    ];
    for row in rows {
        writes(&rt, &["run", "r"], row.0, row.1, row.2)?;
    }
    Ok(())
}

// Late events, retractions, the bound, and lines that are refused.
#[test]
fn lines_are_accepted_or_refused(rt: HostRuntime) -> Result<(), Fail> {
    let plain: &[&str] = &["run", "r"];
    let rows: [(&[&str], &[u8], &[u8], &[u8]); 13] = [
        (
            &["run", "r", "--late", "10"],
            AB,
            b"+ 5 b(7)\n+ 3 a(7)\n",
            b"ok 1\n+ 3 5 ab(7)\nok 2\nend 2\n",
        ),
        (
            &["run", "r", "--late", "2"],
            AB,
            b"+ 10 a(1)\n+ 7 b(1)\n+ 8 b(1)\n",
            b"ok 1\nno 2 below 8\nok 3\nend 3\n",
        ),
        (
            plain,
            AB,
            b"+ 1 a(7)\n+ 1 a(7)\n+ 2 b(7)\n- 1 a(7)\n- 1 a(7)\n",
            b"ok 1\nok 2\n+ 1 2 ab(7)\nok 3\nok 4\n- 1 2 ab(7)\nok 5\nend 5\n",
        ),
        (
            plain,
            AB,
            b"+ 1 a(7)\n- 1 a(8)\n",
            b"ok 1\nno 2 absent\nend 2\n",
        ),
        (
            plain,
            ABSENT,
            b"+ 1 a(7)\n+ 5 b(7)\n+ 3 c(7)\n- 3 c(7)\n",
            b"ok 1\n+ 1 5 n(7)\nok 2\n- 1 5 n(7)\nok 3\n+ 1 5 n(7)\nok 4\nend 4\n",
        ),
        (
            plain,
            b"show n/0. s <- a SEQ m. n <- NOT(c).[s,b].",
            b"+ 1 a\n+ 2 m\n+ 5 m\n+ 3 c\n+ 6 b\n- 2 m\n",
            b"ok 1\nok 2\nok 3\nok 4\nok 5\n+ 1 6 n\nok 6\nend 6\n",
        ),
        (
            plain,
            b"e <- a OR b.",
            b"+ 4 a\n+ 4 b\n- 4 a\n- 4 b\n",
            b"+ 4 4 e\nok 1\nok 2\nok 3\n- 4 4 e\nok 4\nend 4\n",
        ),
        (
            &["run", "r", "--late", "5"],
            AB,
            b"+ 4611686018427387903 a(1)\n+ 1 b(1)\n",
            b"ok 1\nno 2 below 4611686018427387898\nend 2\n",
        ),
        (plain, AB, b"# note", b"end 1\n"),
        (
            &["run", "r", "--late", "30"],
            b"alarm(Id) <- (NOT(ack(Id,_)).[open(Id), due(Id)]) WITHIN 300.",
            b"+ 100 open(\"O-1\")\n+ 220 due(\"O-1\")\n+ 200 ack(\"O-1\",ann)\n",
            b"ok 1\n+ 100 220 alarm(\"O-1\")\nok 2\n- 100 220 alarm(\"O-1\")\nok 3\nend 3\n",
        ),
        (
            plain,
            AB,
            b"+ 1 a(7\n* 1 a(7)\n+ 4611686018427387904 a\n+ 1 a(f(1,))\n- 5 b(\"x)\n# note\n\n+ 1 a(7)\n",
            b"no 1 syntax 7\nno 2 syntax 0\nno 3 syntax 20\nno 4 syntax 10\nno 5 syntax 9\nok 8\nend 8\n",
        ),
        (
            plain,
            b"show p/0. x <- a SEQ b. y <- c SEQ d. p <- x PAR y.",
            b"+ 1 a\n+ 3 c\n+ 5 b\n+ 9 d\n- 5 b\n+ 3 b\n",
            b"ok 1\nok 2\nok 3\n+ 1 9 p\nok 4\n- 1 9 p\nok 5\nok 6\nend 6\n",
        ),
        (
            plain,
            AB,
            b"! 5\n+ 4 a(7)\n- 4 a(7)\n! 4\n+ 5 a(7)\n- 5 a(7)\n+ 5 b(7)\n",
            b"ok 1\nno 2 below 5\nno 3 below 5\nno 4 below 5\nok 5\nok 6\nok 7\nend 7\n",
        ),
    ];
    for row in rows {
        writes(&rt, row.0, row.1, row.2, row.3)?;
    }
    Ok(())
}

// Events that last: their rows, the times that count, and where a span goes wrong.
#[test]
fn events_last(rt: HostRuntime) -> Result<(), Fail> {
    let rows: [(&[&str], &[u8], &[u8], &[u8]); 3] = [
        (
            &["run", "r"],
            b"p <- x DURING i.",
            b"+ 1..9 i\n+ 3..5 x\n- 1..9 i\n",
            b"ok 1\n+ 1 9 p\nok 2\n- 1 9 p\nok 3\nend 3\n",
        ),
        (
            &["run", "r", "--late", "5"],
            AB,
            b"+ 1..20 a(7)\n+ 10..15 a(8)\n+ 10..14 a(9)\n",
            b"ok 1\nok 2\nno 3 below 15\nend 3\n",
        ),
        (
            &["run", "r"],
            AB,
            b"+ 5..3 a\n+ 5.3 a\n+ 5 a(1)\n- 5..5 a(1)\n+ 5..\n! 3..4\n+ 5..7\n",
            b"no 1 syntax 5\nno 2 syntax 4\nok 3\nok 4\nno 5 syntax 5\nno 6 syntax 3\nno 7 syntax 6\nend 7\n",
        ),
    ];
    for row in rows {
        writes(&rt, row.0, row.1, row.2, row.3)?;
    }
    Ok(())
}

// Batches: one that cancels itself, one that comes in any order and raises the bound at its end, words that are misplaced, one that is
// dropped, and the net change of one that takes back and brings.
#[test]
fn batches_are_one_step(rt: HostRuntime) -> Result<(), Fail> {
    let rows: [(&[&str], &[u8], &[u8], &[u8]); 5] = [
        (
            &["run", "r"],
            AB,
            b"begin\n+ 1 a(7)\n+ 2 b(7)\n- 1 a(7)\ncommit\n",
            b"ok 5\nend 5\n",
        ),
        (
            &["run", "r", "--late", "0"],
            AB,
            b"begin\n+ 10 b(7)\n+ 5 a(7)\ncommit\n+ 9 a(7)\n",
            b"+ 5 10 ab(7)\nok 4\nno 5 below 10\nend 5\n",
        ),
        (
            &["run", "r"],
            AB,
            b"commit\nbegin\n begin \n- 1 a(7)\n+ 1 a(7)\n",
            b"no 1 batch\nno 3 batch\nno 4 absent\nend 5 open\n",
        ),
        (
            &["run", "r"],
            AB,
            b"+ 1 a(7)\n+ 3 b(7)\nbegin\n- 3 b(7)\n+ 4 b(7)\n- 4 b(8)\n+ 5 b(9)\n- 5 b(9)\n\ncommit",
            b"ok 1\n+ 1 3 ab(7)\nok 2\nno 6 absent\n- 1 3 ab(7)\n+ 1 4 ab(7)\nok 10\nend 10\n",
        ),
        (
            &["run", "r"],
            AB,
            b"begin\n! 5\n+ 4 a(7)\ncommit\n+ 4 b(7)\nbeginx\nbe\ncomit\n",
            b"ok 4\nno 5 below 5\nno 6 syntax 5\nno 7 syntax 2\nno 8 syntax 3\nend 8\n",
        ),
    ];
    for row in rows {
        writes(&rt, row.0, row.1, row.2, row.3)?;
    }
    Ok(())
}

#[test]
fn bytes_come_one_at_a_time(rt: HostRuntime) -> Result<(), Fail> {
    let setting = Setting {
        pieces: &[1; 48],
        ..CALM
    };
    let input = b"+ 1 a(7)\n+ 5 b(7)\n+ 3 c(7)\n- 3 c(7)";
    let ran = run_over(rt.alloc(), &["run", "r"], ABSENT, input, setting)?;
    assert_eq!(rt; ran.status, Status::Done);
    assert_eq!(rt;
        ran.out.bytes(),
        b"ok 1\n+ 1 5 n(7)\nok 2\n- 1 5 n(7)\nok 3\n+ 1 5 n(7)\nok 4\nend 4\n".as_slice()
    );
    Ok(())
}

// Each pattern, over added events.
#[test]
fn patterns_find_what_the_table_says(rt: HostRuntime) -> Result<(), Fail> {
    let rows: [(&[u8], &[u8], &[u8]); 7] = [
        (
            b"d <- a(X) AND a(X).",
            b"+ 4 a(1)\n",
            b"+ 4 4 d\nok 1\nend 1\n",
        ),
        (
            b"show p/0. i <- a SEQ b. p <- x DURING i.",
            b"+ 1 a\n+ 9 b\n+ 5 x\n",
            b"ok 1\nok 2\nok 3\nend 3\n",
        ),
        (
            b"f <- (a SEQ b).4.",
            b"+ 1 a\n+ 5 b\n+ 6 b\n",
            b"ok 1\n+ 1 5 f\nok 2\nok 3\nend 3\n",
        ),
        (
            b"g <- (a(X) SEQ b(Y)) WHERE X * Y > 0.",
            b"+ 1 a(9223372036854775807)\n+ 2 b(2)\n",
            b"ok 1\nok 2\nend 2\n",
        ),
        (b"", b"+ 1 a\n", b"ok 1\nend 1\n"),
        (
            b"q(X) <- c SEQ a(X).",
            b"+ 5 a(10)\n+ 5 a(2)\n+ 6 a(x)\n+ 6 a(\"x\")\n+ 1 c\n",
            b"ok 1\nok 2\nok 3\nok 4\n+ 1 5 q(2)\n+ 1 5 q(10)\n+ 1 6 q(x)\n+ 1 6 q(\"x\")\nok 5\nend 5\n",
        ),
        (
            b"n(X) <- NOT(c(X)).[a(X),b(X)]. m(X) <- a(X) SEQ c(X).",
            b"+ 1 a(7)\n+ 5 b(7)\n+ 3 c(7)\n",
            b"ok 1\n+ 1 5 n(7)\nok 2\n- 1 5 n(7)\n+ 1 3 m(7)\nok 3\nend 3\n",
        ),
    ];
    for row in rows {
        writes(&rt, &["run", "r"], row.0, row.1, row.2)?;
    }
    Ok(())
}

// The operators that ask for equal starts or ends, over spans of which one pair fits and the others miss by one condition.
#[test]
fn operators_compare_starts_and_ends(rt: HostRuntime) -> Result<(), Fail> {
    let rows: [(&[u8], &[u8], &[u8]); 4] = [
        (
            b"show p/0. x <- a SEQ b. y <- c SEQ d. p <- x EQUALS y.",
            b"+ 1 a\n+ 2 c\n+ 5 b\n+ 5 d\n+ 1 c\n+ 6 d\n",
            b"ok 1\nok 2\nok 3\nok 4\n+ 1 5 p\nok 5\nok 6\nend 6\n",
        ),
        (
            b"show p/0. x <- a SEQ b. y <- c SEQ d. p <- x MEETS y.",
            b"+ 1 a\n+ 3 b\n+ 3 c\n+ 7 d\n+ 4 c\n+ 7 a\n+ 9 b\n",
            b"ok 1\nok 2\nok 3\n+ 1 7 p\nok 4\nok 5\nok 6\nok 7\nend 7\n",
        ),
        (
            b"show p/0. x <- a SEQ b. y <- c SEQ d. p <- x STARTS y.",
            b"+ 1 a\n+ 1 c\n+ 3 b\n+ 3 d\n+ 7 d\n+ 2 c\n+ 9 b\n",
            b"ok 1\nok 2\nok 3\nok 4\n+ 1 7 p\nok 5\nok 6\nok 7\nend 7\n",
        ),
        (
            b"show p/0. x <- a SEQ b. y <- c SEQ d. p <- x FINISHES y.",
            b"+ 3 a\n+ 7 b\n+ 3 c\n+ 7 d\n+ 1 c\n+ 8 d\n+ 1 a\n",
            b"ok 1\nok 2\nok 3\nok 4\n+ 1 7 p\nok 5\nok 6\nok 7\nend 7\n",
        ),
    ];
    for row in rows {
        writes(&rt, &["run", "r"], row.0, row.1, row.2)?;
    }
    Ok(())
}

#[test]
fn pieces_make_no_difference(rt: HostRuntime) -> Result<(), Fail> {
    let setting = Setting {
        pieces: &[1, 3, 1, 7, 2, 1, 1],
        ..CALM
    };
    let input = b"+ 1 a(7)\r\n+ 4 a(-3)\n\n+ 2 b(7)";
    let ran = run_over(rt.alloc(), &["run", "r"], AB, input, setting)?;
    assert_eq!(rt; ran.status, Status::Done);
    assert_eq!(rt;
        ran.out.bytes(),
        b"ok 1\nok 2\n+ 1 2 ab(7)\nok 4\nend 4\n".as_slice()
    );
    Ok(())
}

// The first run above, with a source, an output, a shelf or notes of which one call fails.
#[test]
fn each_fault_has_its_status_and_note(rt: HostRuntime) -> Result<(), Fail> {
    let rows: [(u64, u64, u64, Status, &[u8], &[u8]); 8] = [
        (
            1,
            0,
            0,
            Status::ReadFault,
            b"",
            b"etalis: cannot read rules\n",
        ),
        (
            2,
            0,
            0,
            Status::ReadFault,
            b"",
            b"etalis: cannot read rules\n",
        ),
        (
            0,
            1,
            0,
            Status::ReadFault,
            b"",
            b"etalis: cannot read input\n",
        ),
        (
            0,
            2,
            0,
            Status::ReadFault,
            b"ok 1\n",
            b"etalis: cannot read input\n",
        ),
        (
            0,
            3,
            0,
            Status::ReadFault,
            b"ok 1\n+ 1 2 ab(7)\nok 2\n",
            b"etalis: cannot read input\n",
        ),
        (0, 0, 1, Status::WriteFault, b"", b"etalis: cannot write\n"),
        (
            0,
            0,
            2,
            Status::WriteFault,
            b"ok 1\n",
            b"etalis: cannot write\n",
        ),
        (
            0,
            0,
            3,
            Status::WriteFault,
            b"ok 1\n+ 1 2 ab(7)\nok 2\n",
            b"etalis: cannot write\n",
        ),
    ];
    for row in rows {
        let setting = Setting {
            pieces: &[9, 9],
            shelf_fails: row.0,
            input_fails: row.1,
            out_fails: row.2,
            ..CALM
        };
        let input = b"+ 1 a(7)\n+ 2 b(7)\n";
        let ran = run_over(rt.alloc(), &["run", "r"], AB, input, setting)?;
        assert_eq!(rt; ran.status, row.3);
        assert_eq!(rt; ran.out.bytes(), row.4);
        assert_eq!(rt; ran.notes.bytes(), row.5);
    }
    Ok(())
}

#[test]
fn refusals_write_nothing_but_their_note(rt: HostRuntime) -> Result<(), Fail> {
    let usage: &[u8] = b"etalis: usage: etalis MODE RULES [--late N] [--seed N] [--lines N]\n";
    let refused = Status::RulesRefused;
    let words: &[&str] = &["run", "r"];
    let rows: [(&[&str], &[u8], Status, &[u8]); 24] = [
        (&["walk", "r"], AB, Status::Usage, usage),
        (&["held", "r", "--seed", "1"], AB, Status::Usage, usage),
        (&["check", "r", "--late", "5"], AB, Status::Usage, usage),
        (&["run", "r", "--seed", "1"], AB, Status::Usage, usage),
        (
            &["run", "r", "--late", "1", "--late", "2"],
            AB,
            Status::Usage,
            usage,
        ),
        (&["run"], AB, Status::Usage, usage),
        (&["run", "-r"], AB, Status::Usage, usage),
        (&["run", "r", "s"], AB, Status::Usage, usage),
        (&["run", "r", "--late"], AB, Status::Usage, usage),
        (&["run", "r", "--late", "-1"], AB, Status::Usage, usage),
        (
            &["run", "r", "--late", "4611686018427387904"],
            AB,
            Status::Usage,
            usage,
        ),
        (&["run", "r", "--later", "1"], AB, Status::Usage, usage),
        (
            words,
            b"ab(X) <- a(Y) SEQ b(Y).\n",
            refused,
            b"etalis: rules: rule 1: head X\n",
        ),
        (
            words,
            b"h <- a. x <- a(X) WHERE Y > X.",
            refused,
            b"etalis: rules: rule 2: where Y\n",
        ),
        (
            words,
            b"x <- a(X) OR b(Y).",
            refused,
            b"etalis: rules: rule 1: or X\n",
        ),
        (
            words,
            b"k <- NOT(c(Z)).[a,b].",
            refused,
            b"etalis: rules: rule 1: not Z\n",
        ),
        (
            words,
            b"show z/0. x <- a.",
            refused,
            b"etalis: rules: show 1: unknown\n",
        ),
        (
            words,
            b"x <- y. y <- x.",
            refused,
            b"etalis: rules: rule 1: cycle\n",
        ),
        (
            words,
            b"r(X) <- r(X) SEQ a(X).",
            refused,
            b"etalis: rules: rule 1: cycle\n",
        ),
        (
            words,
            b"h <- a SEQ.",
            refused,
            b"etalis: rules: syntax at 10\n",
        ),
        (words, b"a <- b", refused, b"etalis: rules: syntax at 6\n"),
        (
            words,
            b"ab \xff",
            refused,
            b"etalis: rules: not utf-8 at 3\n",
        ),
        (
            words,
            b"h <- a(1,2,3,4,5,6,7,8,9,1,2,3,4,5,6,7,8) SEQ b.",
            refused,
            b"etalis: rules: limit term width at 38\n",
        ),
        (
            &["run", "s"],
            AB,
            Status::ReadFault,
            b"etalis: cannot read rules\n",
        ),
    ];
    for row in rows {
        let ran = run_over(rt.alloc(), row.0, row.1, b"+ 1 a(7)\n", CALM)?;
        assert_eq!(rt; ran.status, row.2);
        assert_eq!(rt; ran.out.bytes(), b"".as_slice());
        assert_eq!(rt; ran.notes.bytes(), row.3);
    }
    Ok(())
}
