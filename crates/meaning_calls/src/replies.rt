// The lines of replies.
use detect_writer::{drill_text, end_text, held_text, ok_text, refusal_text};
use event_model::Refusal;
use std::test::Fail;

#[test]
fn replies_have_their_lines(rt: HostRuntime) -> Result<(), Fail> {
    let mut out = Vec::new(rt.alloc());
    ok_text(1, &mut out)?;
    for refusal in [
        Refusal::Below(8),
        Refusal::Syntax(20),
        Refusal::Absent,
        Refusal::Batch,
    ] {
        refusal_text(2, refusal, &mut out)?;
    }
    held_text(2, 1, &mut out)?;
    drill_text(1, 0, 5, 7, &mut out)?;
    end_text(4, false, &mut out)?;
    end_text(4, true, &mut out)?;
    assert_eq!(rt;
        out.as_slice(),
        b"ok 1\nno 2 below 8\nno 2 syntax 20\nno 2 absent\nno 2 batch\nheld 2 1\ndrill 1 0 5 7\nend 4\nend 4 open\n".as_slice()
    );
    Ok(())
}
