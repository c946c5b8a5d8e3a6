// Rules as their canonical text.
use rule_parser::{parse, rules_text};
use std::test::Fail;

// Bounds, a negated pattern, brackets round a right operand, and each level of a condition, with brackets and without.
#[test]
fn brackets_stand_where_they_must(rt: HostRuntime) -> Result<(), Fail> {
    let table = [
        ("ab( X )<-a(X) SEQ b(X).", "ab(X) <- a(X) SEQ b(X).\n"),
        (
            "c<-((((a).3).4 WITHIN 5) OR NOT((a)).[b,(c SEQ d)]) AND (b AND c).",
            "c <- (a).3.4 WITHIN 5 OR NOT(a).[b,c SEQ d] AND (b AND c).\n",
        ),
        (
            "d(Y,-7)<-e DURING (a(X,Y,_) WHERE ((((X+1)*(-2))<(Y-(X-Y)))&(!(X=\"q\\n\")))|((X!=Y)|(f(X,g)>=X))).",
            "d(Y,-7) <- e DURING (a(X,Y,_) WHERE (X + 1) * -2 < Y - (X - Y) & !X = \"q\\n\" | (X != Y | f(X,g) >= X)).\n",
        ),
        ("show ab/1,c/0 .", "show ab/1, c/0.\n"),
    ];
    for (given, wanted) in table {
        let rules = parse(rt.alloc(), given)?;
        let text = rules_text(rt.alloc(), &rules)?;
        assert_eq!(rt; text.as_slice(), wanted.as_bytes(), "{given}");
    }
    Ok(())
}
