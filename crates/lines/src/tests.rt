use crate::{Line, put};
use refusals::refusal::*;
use std::test::Fail;

#[test]
fn lines_follow_one_another(rt: HostRuntime) -> Result<(), Fail> {
    let mut out = [b'.'; 32];
    let heading = put(&mut out, 0, b"board\n")?;
    let one = put(&mut out, heading, Line::new(7, &[]))?;
    let two = put(&mut out, one, Line::new(0, &[10, 4294967295]))?;
    assert_eq!(rt; two, 24);
    assert!(rt; out == *b"board\n7\n0 10 4294967295\n........");
    Ok(())
}

#[test]
fn a_line_is_written_whole_or_not_at_all(rt: HostRuntime) {
    let mut out = [b'.'; 6];
    assert_eq!(rt;
        put(&mut out, 1, Line::new(12, &[34])),
        Err(Refusal::OutputFull)
    );
    assert_eq!(rt;
        put(&mut out, 7, Line::new(1, &[])),
        Err(Refusal::OutputFull)
    );
    assert!(rt; out == *b"......");
    assert_eq!(rt; put(&mut out, 0, Line::new(12, &[34])), Ok(6));
    assert!(rt; out == *b"12 34\n");
    assert_eq!(rt; put(&mut out, 6, b""), Ok(6));
}
