use super::*;
use carts::Cart;
use costs::{CostKind, Pair, Total, Worst};
use floors::LaneRow;

// The numbers of the refusal over tables of 5 lanes, 2 tariff lines and 7 carts, if it is refused.
fn refused(bytes: &[u8]) -> Option<[u16; 4]> {
    let mut lanes = [LaneRow {
        from: 0,
        to: 0,
        line: 0,
    }; 5];
    let mut tariff = [Pair::<Total, Worst>::zero(); 2];
    let mut carts = [Cart { start: 0, goal: 0 }; 7];
    read_site(bytes, &mut lanes, &mut tariff, &mut carts)
        .err()
        .map(SiteRefusal::numbers)
}

#[test]
fn sites_are_read_or_refused(rt: HostRuntime) {
    assert_eq!(rt; refused(b"HZ 2\nPL 4\n"), None);
    assert_eq!(rt;
        refused(b"HZ 2\nPL 4\nLN 0 1 9\nLB 0 3 0\nTF 65535 0\nCT 0 127\n"),
        None
    );
    assert_eq!(rt; refused(b""), Some([20, 1, 0, 0]));
    assert_eq!(rt; refused(b"HZ 2\n"), Some([20, 2, 0, 0]));
    assert_eq!(rt; refused(b"HZ 65\nPL 4\n"), Some([20, 1, 1, 0]));
    assert_eq!(rt; refused(b"HZ 02\nPL 4\n"), Some([20, 1, 0, 0]));
    assert_eq!(rt; refused(b"HZ 2\nPL 129\n"), Some([20, 2, 6, 0]));
    assert_eq!(rt; refused(b"HZ 2\nPL 4"), Some([20, 2, 0, 0]));
    assert_eq!(rt; refused(b"HZ 2\nPL 4\nTF 65536 1\n"), Some([20, 3, 0, 0]));
    assert_eq!(rt; refused(b"HZ 2\nPL 4\nTF 1  1\n"), Some([20, 3, 0, 0]));
    assert_eq!(rt;
        refused(b"HZ 2\nPL 4\nTF 1 1\nLN 0 1 0\n"),
        Some([20, 4, 0, 0])
    );
}

#[test]
fn calls_refuse_records(rt: HostRuntime) {
    assert_eq!(rt;
        refused(b"HZ 2\nPL 4\nLB 0 1 0\nLN 1 4 0\n"),
        Some([20, 4, 7, 2])
    );
    assert_eq!(rt;
        refused(b"HZ 2\nPL 4\nLB 0 1 0\nLB 0 1 0\nLB 0 1 0\n"),
        Some([20, 5, 0, 0])
    );
    assert_eq!(rt;
        refused(b"HZ 2\nPL 4\nTF 1 1\nTF 1 1\nTF 1 1\n"),
        Some([20, 5, 0, 0])
    );
    assert_eq!(rt; refused(b"HZ 2\nPL 4\nCT 0 128\n"), Some([20, 3, 3, 0]));
    assert_eq!(rt;
        refused(b"HZ 2\nPL 4\nCT 0 1\nCT 0 1\n"),
        Some([20, 4, 4, 0])
    );
    assert_eq!(rt;
        refused(b"HZ 2\nPL 4\nCT 0 1\nCT 1 1\n"),
        Some([20, 4, 5, 0])
    );
    assert_eq!(rt;
        refused(b"HZ 2\nPL 4\nCT 0 1\nCT 1 2\nCT 2 3\nCT 3 4\nCT 4 5\nCT 5 6\n"),
        None
    );
    assert_eq!(rt;
        refused(b"HZ 2\nPL 4\nCT 0 1\nCT 1 2\nCT 2 3\nCT 3 4\nCT 4 5\nCT 5 6\nCT 6 7\n"),
        Some([20, 9, 2, 0])
    );
}
