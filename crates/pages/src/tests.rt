use crate::{MOST_BYTES, Stop, or_line, push_line, read_input};
use costs::{Total, Worst};
use std::alloc::AllocError;
use std::io;
use std::test::Fail;

#[test]
fn adds_a_line(rt: HostRuntime) -> Result<(), Fail> {
    let mut out = Vec::new(rt.alloc());
    push_line(&mut out, b"QC ", &Total { value: 70 }, rt.alloc())?;
    push_line(&mut out, b"", &Worst { value: 3 }, rt.alloc())?;
    assert_eq!(rt; out.as_slice(), b"QC 70\n3\n".as_slice());
    Ok(())
}

#[test]
fn reads_one_byte_too_many_and_no_more(rt: HostRuntime) -> Result<(), Fail> {
    let short = read_input(b"1 1\n".as_slice(), rt.alloc())?;
    assert_eq!(rt; short.as_slice(), b"1 1\n".as_slice());
    let long = read_input(io::repeat(b'1'), rt.alloc())?;
    assert_eq!(rt; long.len(), MOST_BYTES + 1);
    Ok(())
}

#[test]
fn a_stop_is_a_refusal_or_for_want_of_memory(rt: HostRuntime) {
    assert!(rt; Stop::Refused(7).refusal() == Ok(7));
    assert!(rt; Stop::<u8>::Memory.refusal() == Err(AllocError));
    assert!(rt; Stop::<u8>::from(AllocError) == Stop::Memory);
}

#[test]
fn a_refusal_is_told_in_a_line(rt: HostRuntime) -> Result<(), Fail> {
    let Err(line) = or_line::<u8, u8>(Err(Stop::Refused(7)), rt.alloc())? else {
        return Err(Fail::new("no line for a refusal"));
    };
    assert_eq!(rt; line.as_str(), "7");
    assert!(rt; or_line::<u8, u8>(Ok(5), rt.alloc())?.is_ok_and(|made| made == 5));
    assert!(rt; or_line::<u8, u8>(Err(Stop::Memory), rt.alloc()).is_err());
    Ok(())
}
