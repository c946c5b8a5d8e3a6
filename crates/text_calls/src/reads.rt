// Lines of the input.
use event_model::{Input, MOST_LINE_BYTES};
use event_reader::{Line, LineFault, LineReader, parse_line};
use std::alloc::Global;
use std::test::Fail;

// Whether a line was given with these bytes.
fn is(line: Option<Line<'_>>, bytes: &[u8]) -> bool {
    match line {
        Some(Line::Bytes(line)) => line == bytes,
        Some(Line::Long) => false,
        None => false,
    }
}

#[test]
fn lines_are_given_one_by_one(rt: HostRuntime) -> Result<(), Fail> {
    let mut reader = LineReader::new(rt.alloc());
    reader.feed(b"a\r\nb")?;
    assert!(rt; is(reader.next_line(), b"a"));
    assert!(rt; reader.next_line().is_none());
    assert!(rt; is(reader.finish(), b"b"));
    assert!(rt; reader.finish().is_none());
    Ok(())
}

// What a line gives, without an event's atom.
#[derive(Clone, Copy, Debug, PartialEq)]
enum Given {
    Added(u64, u64),
    Retracted(u64, u64),
    Time(u64),
    Nothing,
    Begun,
    Whole,
    Fault(usize),
    Refused,
}

fn read(alloc: Global, line: &[u8]) -> Given {
    if line.len() > MOST_LINE_BYTES {
        return Given::Refused;
    }
    match parse_line(alloc, line) {
        Ok(Input::Add(event)) => Given::Added(event.span.start(), event.span.end()),
        Ok(Input::Take(event)) => Given::Retracted(event.span.start(), event.span.end()),
        Ok(Input::Advance(time)) => Given::Time(time),
        Ok(Input::Nothing) => Given::Nothing,
        Ok(Input::Begin) => Given::Begun,
        Ok(Input::Commit) => Given::Whole,
        Err(LineFault::Syntax(at)) => Given::Fault(at),
        Err(LineFault::Memory) => Given::Refused,
    }
}

#[test]
fn lines_give_inputs_and_places(rt: HostRuntime) {
    let rows = [
        ("", Given::Nothing),
        (" \t", Given::Nothing),
        ("# note", Given::Nothing),
        (" +\t007  a(f(1, b) , \"é\") \t", Given::Added(7, 7)),
        (
            "- 1..4611686018427387903 a",
            Given::Retracted(1, 4611686018427387903),
        ),
        (" begin\t", Given::Begun),
        ("commit", Given::Whole),
        ("+ 5..3 a", Given::Fault(5)),
        ("+ 5.3 a", Given::Fault(4)),
        ("+ 5..", Given::Fault(5)),
        ("+ 5..7", Given::Fault(6)),
        ("! 3..4", Given::Fault(3)),
        ("beginning", Given::Fault(5)),
        ("comit", Given::Fault(3)),
        ("! 5", Given::Time(5)),
        ("+", Given::Fault(1)),
        ("+ 1", Given::Fault(3)),
        ("+ 1 ", Given::Fault(4)),
        ("+ 1 a(7", Given::Fault(7)),
        ("* 1 a(7)", Given::Fault(0)),
        ("+ 4611686018427387904 a", Given::Fault(20)),
        ("+ 1 a(f(1,))", Given::Fault(10)),
        ("- 5 b(\"x)", Given::Fault(9)),
        ("! 5 x", Given::Fault(4)),
    ];
    for (line, wanted) in rows {
        assert_eq!(rt; read(rt.alloc(), line.as_bytes()), wanted, "{line}");
    }
}
