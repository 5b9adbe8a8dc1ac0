use crate::{CostKind, Pair, Text, Total, Worst, Zones};
use std::process::Abort;

fn pair(total: u32, worst: u16) -> Pair<Total, Worst> {
    Pair {
        first: Total { value: total },
        second: Worst { value: worst },
    }
}

fn reads<C: Text, const N: usize>(rt: &impl Abort, c: &C, text: &[u8; N]) {
    let mut out = [0; N];
    assert_eq!(rt; c.write_text(&mut out), Some(N));
    assert!(rt; out == *text);
}

#[test]
fn totals_stop_at_the_largest(rt: HostRuntime) {
    let most = Total {
        value: 4_294_967_295,
    };
    assert_eq!(rt; most.join(Total { value: 1 }).value, 4_294_967_295);
    assert_eq!(rt; Total { value: 2 }.join(Total { value: 3 }).value, 5);
}

#[test]
fn texts_read_as_meant(rt: HostRuntime) {
    reads(&rt, &Total { value: 0 }, b"0");
    reads(&rt, &Total { value: 9 }, b"9");
    reads(&rt, &Total { value: 10 }, b"10");
    reads(&rt, &Worst { value: 65_535 }, b"65535");
    reads(&rt, &pair(4_294_967_295, 1), b"4294967295 1");
    reads(&rt, &Zones { bits: 10 }, b"2/000000000000000a");
    reads(&rt, &Zones { bits: u64::MAX }, b"64/ffffffffffffffff");
}

#[test]
fn at_most_needs_both_parts(rt: HostRuntime) {
    assert!(rt; pair(1, 5).at_most(pair(1, 5)));
    assert!(rt; !pair(1, 5).at_most(pair(4, 1)));
    assert!(rt; !pair(4, 1).at_most(pair(1, 5)));
}

#[test]
fn what_does_not_fit_is_not_written(rt: HostRuntime) {
    let mut out = [7; 4];
    assert_eq!(rt; pair(100, 5).write_text(&mut out), None);
    assert!(rt; out == [7; 4]);
    assert_eq!(rt; pair(10, 5).write_text(&mut out), Some(4));
}
