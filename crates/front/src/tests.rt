use prices::{MOST_BYTES, front_page};
use std::test::Fail;

// A list's name, an input, and what is printed for it, on a page or not.
const CASES: [(&str, &str, &str); 21] = [
    ("costs", "", "kept 0 of 0\n"),
    ("zones", "", "kept 0 of 0\n"),
    ("costs", "0 0\n", "0 0\nkept 1 of 1\n"),
    ("costs", "7 3\n7 3\n", "7 3\nkept 1 of 2\n"),
    ("costs", "8 3\n7 3\n7 4\n6 9\n", "6 9\n7 3\nkept 2 of 4\n"),
    (
        "costs",
        "4294967295 65535\n",
        "4294967295 65535\nkept 1 of 1\n",
    ),
    ("costs", "1 1\n4294967296 1\n", "line 2: number too large\n"),
    ("costs", "1 65536\n", "line 1: number too large\n"),
    (
        "costs",
        "99999999999999999999999 x\n",
        "line 1: malformed\n",
    ),
    ("costs", "01 1\n", "line 1: malformed\n"),
    ("costs", "1 +1\n", "line 1: malformed\n"),
    ("costs", "1  1\n", "line 1: malformed\n"),
    ("costs", "1 1 \n", "line 1: malformed\n"),
    ("costs", "1 1\n\n", "line 2: malformed\n"),
    ("costs", "1 1\n2 x", "line 2: no newline at its end\n"),
    (
        "zones",
        "00000000000000f0\n0000000000000010\n8000000000000000\n",
        "1/0000000000000010\n1/8000000000000000\nkept 2 of 3\n",
    ),
    (
        "zones",
        "ffffffffffffffff\n",
        "64/ffffffffffffffff\nkept 1 of 1\n",
    ),
    ("zones", "000000000000000A\n", "line 1: malformed\n"),
    ("zones", "00000000000000001\n", "line 1: malformed\n"),
    (
        "cost",
        "1 1\n",
        "line 0: unknown list, not costs or zones\n",
    ),
    ("", "", "line 0: unknown list, not costs or zones\n"),
];

#[test]
fn prints_what_the_format_says(rt: HostRuntime) -> Result<(), Fail> {
    for (name, input, printed) in CASES {
        match front_page(name, input.as_bytes(), rt.alloc())? {
            Ok(page) => assert_eq!(rt; page.as_slice(), printed.as_bytes()),
            Err(line) => assert_eq!(rt; line.as_str(), printed),
        }
    }
    Ok(())
}

#[test]
fn takes_no_more_than_the_most_bytes(rt: HostRuntime) -> Result<(), Fail> {
    let mut input = Vec::new(rt.alloc());
    for _ in 0..MOST_BYTES / 4 {
        input.extend_from_slice(b"1 1\n")?;
    }
    let page = front_page("costs", input.as_slice(), rt.alloc())?.map_err(|_| Fail::new(
        "no page for the most bytes",
    ))?;
    assert_eq!(rt; page.as_slice(), b"1 1\nkept 1 of 4096\n".as_slice());
    input.push(b'\n')?;
    let Err(line) = front_page("costs", input.as_slice(), rt.alloc())? else {
        return Err(Fail::new("a page for too many bytes"));
    };
    assert_eq!(rt; line.as_str(), "line 0: more than 16384 bytes\n");
    Ok(())
}
