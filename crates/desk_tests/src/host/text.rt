//! Tests of what no file can give to the readers of fields, and of what is written.

use desk_text::{Cause, Minute, ReadFault, day_of, inbound, number, push_moment, push_number};
use std::test::Fail;

#[test]
fn fields_that_no_file_has_are_refused(rt: HostRuntime) {
    assert_eq!(rt; inbound(b""), Err(Cause::Word));
    assert_eq!(rt; number(b"", 0, u32::MAX), Err(Cause::Number));
    assert_eq!(rt; number(b"1000000000", 0, u32::MAX), Err(Cause::Number));
    assert_eq!(rt; day_of(300, 1, 0), None);
    assert_eq!(rt; day_of(1, 300, 0), None);
}

#[test]
fn faults_are_printed(rt: HostRuntime) -> Result<(), Fail> {
    let fault = ReadFault::Refused {
        line: 12,
        cause: Cause::NoDistance,
    };
    let text = format!(in rt.alloc(); "{fault}; {}", ReadFault::Memory)?;
    assert_eq!(rt;
        text.as_str(),
        "line 12 is refused: NoDistance; out of memory"
    );
    Ok(())
}

#[test]
fn moments_and_numbers(rt: HostRuntime) -> Result<(), Fail> {
    let mut out = Vec::new(rt.alloc());
    push_moment(&mut out, Minute(4_294_080))?;
    push_moment(&mut out, Minute(52_595_999))?;
    push_number(&mut out, 0)?;
    push_number(&mut out, 18_446_744_073_709_551_616)?;
    let text = b"01/03/08 00:0031/12/99 23:59018446744073709551616";
    assert_eq!(rt; out.as_slice(), text.as_slice());
    Ok(())
}
