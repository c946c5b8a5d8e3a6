// Terms and atoms: as they are read, as they are written, and their orders.
use crate::fixtures::{atom, event};
use ev_term::{
    Detection, Name, Span, Term, TermFault, atom_text, cmp_detections, cmp_terms, read_atom,
    read_ground, term_text,
};
use event_model::{cmp_atoms, cmp_events, cmp_spans};
use std::alloc::{AllocError, Global};
use std::test::Fail;

// Writes the word of a fault, and answers its place.
fn fault(fault: TermFault, out: &mut Vec<u8>) -> Result<usize, AllocError> {
    let (word, at) = match fault {
        TermFault::Syntax(at) => ("syntax", at),
        TermFault::TooDeep(at) => ("too deep", at),
        TermFault::TooWide(at) => ("too wide", at),
        TermFault::NumberRange(at) => ("number", at),
        TermFault::Memory => ("memory", 0),
    };
    out.extend_from_slice(word.as_bytes())?;
    Ok(at)
}

// Writes the canonical text of the term that is read, and answers where it ends; or the fault and its place.
fn term(alloc: Global, text: &str, out: &mut Vec<u8>) -> Result<usize, AllocError> {
    match read_ground(alloc, text.as_bytes(), 0) {
        Ok((term, end)) => {
            term_text(&term, out)?;
            Ok(end)
        }
        Err(why) => fault(why, out),
    }
}

// The same of an atom.
fn atom_read(alloc: Global, text: &str, out: &mut Vec<u8>) -> Result<usize, AllocError> {
    match read_atom(alloc, text.as_bytes(), 0) {
        Ok((atom, end)) => {
            atom_text(&atom, out)?;
            Ok(end)
        }
        Err(why) => fault(why, out),
    }
}

#[test]
fn terms_are_read_and_written(rt: HostRuntime) -> Result<(), Fail> {
    let terms = [
        ("f(1,x)", "f(1,x)", 6),
        ("f( 01 ,-0)", "f(1,0)", 10),
        ("\"a\\\"b\"", "\"a\\\"b\"", 6),
        ("f(1,)", "syntax", 4),
        ("f(1,2,3,4,5,6,7,8,9,1,2,3,4,5,6,7,8)", "too wide", 33),
    ];
    for (text, wanted, place) in terms {
        let mut out = Vec::new(rt.alloc());
        assert_eq!(rt; term(rt.alloc(), text, &mut out)?, place);
        assert_eq!(rt; out.as_slice(), wanted.as_bytes());
    }
    let atoms = [
        ("a(7)", "a(7)", 4),
        ("a", "a", 1),
        ("a(9223372036854775808)", "number", 20),
    ];
    for (text, wanted, place) in atoms {
        let mut out = Vec::new(rt.alloc());
        assert_eq!(rt; atom_read(rt.alloc(), text, &mut out)?, place);
        assert_eq!(rt; out.as_slice(), wanted.as_bytes());
    }
    Ok(())
}

// Events and detections come by atom first, and then by span.
#[test]
fn values_are_shared_and_have_orders(rt: HostRuntime) -> Result<(), Fail> {
    let alloc = rt.alloc();
    let one = atom(alloc, "a", &[7])?;
    let same = one.share()?;
    assert!(rt; cmp_atoms(&same, &one).is_eq() && same.name == one.name);
    assert!(rt; matches!(same.args.as_slice(), [Term::Num(7)]));
    let word = Term::Sym(Name::new(alloc, "x")?);
    assert!(rt; cmp_terms(&Term::Num(2), &Term::Num(10)).is_lt());
    assert!(rt; cmp_terms(&Term::Num(2), &word).is_lt());
    assert!(rt; cmp_spans(Span::new(1, 3), Span::new(1, 2)).is_gt());
    let first = event(alloc, "a", &[], 3, 4)?;
    let second = event(alloc, "b", &[], 1, 2)?;
    assert!(rt; cmp_events(&first, &second).is_lt() && first.time() == 4);
    let found = Detection {
        atom: first.atom,
        span: first.span,
    };
    let other = Detection {
        atom: second.atom,
        span: second.span,
    };
    assert!(rt; cmp_detections(&found, &other).is_lt());
    Ok(())
}
