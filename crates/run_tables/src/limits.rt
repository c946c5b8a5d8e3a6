// Limits of lines and of rule files: what is just within one, and what passes it.
use crate::fixtures::{AB, CALM, run_over, writes};
use etalis_cli::Status;
use std::alloc::{AllocError, Global};
use std::test::Fail;

// A part so many times, between a front and a back.
fn repeated(
    alloc: Global,
    front: &[u8],
    part: &[u8],
    count: usize,
    back: &[u8],
) -> Result<Vec<u8>, AllocError> {
    let mut bytes = Vec::new(alloc);
    bytes.extend_from_slice(front)?;
    for _ in 0..count {
        bytes.extend_from_slice(part)?;
    }
    bytes.extend_from_slice(back)?;
    Ok(bytes)
}

#[test]
fn lines_have_limits(rt: HostRuntime) -> Result<(), Fail> {
    let rows: [(&[u8], &[u8], usize, &[u8], &[u8]); 13] = [
        // Bytes.
        (b"+ 1 a", b" ", 65_531, b"\n", b"ok 1\nend 1\n"),
        (b"+ 1 a", b" ", 65_531, b"\r\n", b"ok 1\nend 1\n"),
        (b"+ 1 a", b" ", 65_532, b"\n", b"no 1 syntax 65536\nend 1\n"),
        (
            b"#",
            b"#",
            65_536,
            b"\n+ 1 a(7)\n",
            b"no 1 syntax 65536\nok 2\nend 2\n",
        ),
        // Characters that end too early.
        (b"+ 1 a(\"\xff", b"", 0, b"\n", b"no 1 syntax 7\nend 1\n"),
        (b"+ 1 a(\"\xe2(", b"", 0, b"\n", b"no 1 syntax 8\nend 1\n"),
        // The depth of a term, and the number of arguments.
        (
            b"+ 1 a(",
            b"f(",
            15,
            b"1))))))))))))))))\n",
            b"ok 1\nend 1\n",
        ),
        (b"+ 1 a(", b"f(", 16, b"\n", b"no 1 syntax 37\nend 1\n"),
        (b"+ 1 a(1", b",1", 15, b")\n", b"ok 1\nend 1\n"),
        (b"+ 1 a(1", b",1", 16, b")\n", b"no 1 syntax 37\nend 1\n"),
        // Numbers and times.
        (
            b"+ 1 a(9223372036854775808)",
            b"",
            0,
            b"\n",
            b"no 1 syntax 24\nend 1\n",
        ),
        (
            b"+ 1 a(-9223372036854775808)\n",
            b"",
            0,
            b"! 4611686018427387903\n",
            b"ok 1\nok 2\nend 2\n",
        ),
        (
            b"! 4611686018427387904",
            b"",
            0,
            b"\n",
            b"no 1 syntax 20\nend 1\n",
        ),
    ];
    for row in rows {
        let input = repeated(rt.alloc(), row.0, row.1, row.2, row.3)?;
        writes(&rt, &["run", "r"], AB, &input, row.4)?;
    }
    Ok(())
}

// A file that is accepted has no note.
#[test]
fn rule_files_have_limits(rt: HostRuntime) -> Result<(), Fail> {
    let rows: [(&[u8], &[u8], usize, &[u8], &[u8]); 13] = [
        (b"", b" ", 1_048_576, b"", b""),
        (
            b"",
            b" ",
            1_048_577,
            b"",
            b"etalis: rules: over 1048576 bytes\n",
        ),
        (b"", b"h<-a.", 1024, b"", b""),
        (
            b"",
            b"h<-a.",
            1025,
            b"",
            b"etalis: rules: limit statements at 5120\n",
        ),
        (b"h <- a", b" AND a", 127, b".", b""),
        (
            b"h <- a",
            b" AND a",
            128,
            b".",
            b"etalis: rules: limit parts at 773\n",
        ),
        (
            b"h <- ",
            b"(",
            32,
            b"a)))))))))))))))))))))))))))))))).",
            b"",
        ),
        (
            b"h <- ",
            b"(",
            33,
            b"",
            b"etalis: rules: limit depth at 37\n",
        ),
        (
            b"h <- a(",
            b"f(",
            16,
            b"x",
            b"etalis: rules: limit term depth at 38\n",
        ),
        (b"h <- (a).4611686018427387904.", b"", 0, b"", b""),
        (
            b"h <- (a).4611686018427387905.",
            b"",
            0,
            b"",
            b"etalis: rules: limit length at 9\n",
        ),
        // Sixty-four variables, and one more.
        (
            b"h <- a(A,B,C,D,E,F,G,H,I,J,K,L,M,N,O,P) AND a(Q,R,S,T,U,V,W,X,Y,Z,A1,B1,C1,D1,E1,F1)",
            b"",
            0,
            b" AND a(G1,H1,I1,J1,K1,L1,M1,N1,O1,P1,Q1,R1,S1,T1,U1,V1) AND a(W1,X1,Y1,Z1,A2,B2,C2,D2,E2,F2,G2,H2,I2,J2,K2,L2).",
            b"",
        ),
        (
            b"h <- a(A,B,C,D,E,F,G,H,I,J,K,L,M,N,O,P) AND a(Q,R,S,T,U,V,W,X,Y,Z,A1,B1,C1,D1,E1,F1)",
            b" AND a(G1,H1,I1,J1,K1,L1,M1,N1,O1,P1,Q1,R1,S1,T1,U1,V1)",
            1,
            b" AND a(W1,X1,Y1,Z1,A2,B2,C2,D2,E2,F2,G2,H2,I2,J2,K2,L2) AND a(M2).",
            b"etalis: rules: limit variables at 201\n",
        ),
    ];
    for row in rows {
        let file = repeated(rt.alloc(), row.0, row.1, row.2, row.3)?;
        let ran = run_over(rt.alloc(), &["run", "r"], &file, b"", CALM)?;
        assert_eq!(rt; ran.notes.bytes(), row.4);
        if row.4.is_empty() {
            assert_eq!(rt; ran.status, Status::Done);
            assert_eq!(rt; ran.out.bytes(), b"end 0\n".as_slice());
        } else {
            assert_eq!(rt; ran.status, Status::RulesRefused);
            assert_eq!(rt; ran.out.bytes(), b"".as_slice());
        }
    }
    Ok(())
}
