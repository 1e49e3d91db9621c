// Orders written out by hand.

use order_certificate::{TextFault, begin, entry, finish, laws, read};
use rsim_base::{Access, Addr, Kind, Model, Node, Size};
use std::alloc::Global;
use std::test::Fail;

// Two processors, with a line of each kind and of each size.
const ORDER: &str = "rsim order 1
model rc
processors 2
0 0 L 1 0000000000200003 0a -
1 0 S 2 0000000000200006 - 00ff
255 7999999 A 8 ffffffffffffffff 0000000000000000 fedcba9876543210
0 10 S 4 000000000020000c - deadbeef
end 12 0
";

fn access(node: u8, index: u32, kind: Kind, size: Size, addr: u64) -> Access {
    Access {
        node: Node(node),
        kind,
        size,
        index,
        addr: Addr(addr),
        loaded: 0,
        stored: 0,
    }
}

fn accesses() -> [Access; 4] {
    [
        Access {
            loaded: 10,
            ..access(0, 0, Kind::Load, Size::B1, 0x20_0003)
        },
        Access {
            stored: 0xFF,
            ..access(1, 0, Kind::Store, Size::B2, 0x20_0006)
        },
        Access {
            stored: 0xFEDC_BA98_7654_3210,
            ..access(255, 7_999_999, Kind::Atomic, Size::B8, u64::MAX)
        },
        Access {
            stored: 0xDEAD_BEEF,
            ..access(0, 10, Kind::Store, Size::B4, 0x20_000C)
        },
    ]
}

fn written(alloc: Global) -> Result<Vec<u8>, Fail> {
    let mut text = Vec::new(alloc);
    begin(&mut text, Model::Rc, 2)?;
    for line in &accesses() {
        entry(&mut text, line)?;
    }
    finish(&mut text, &vec![in alloc; 12, 0]?)?;
    Ok(text)
}

#[test]
fn order_is_written_part_by_part(rt: HostRuntime) -> Result<(), Fail> {
    let text = written(rt.alloc())?;
    assert!(rt; text.as_slice() == ORDER.as_bytes());
    Ok(())
}

#[test]
fn models_and_no_accesses(rt: HostRuntime) -> Result<(), Fail> {
    let alloc = rt.alloc();
    for &(model, processors, order) in &[
        (
            Model::Sc,
            1,
            "rsim order 1\nmodel sc\nprocessors 1\nend 8000000\n",
        ),
        (
            Model::Pc,
            16,
            "rsim order 1\nmodel pc\nprocessors 16\nend 8000000\n",
        ),
    ] {
        let mut text = Vec::new(alloc);
        begin(&mut text, model, processors)?;
        finish(&mut text, &vec![in alloc; 8_000_000]?)?;
        assert!(rt; text.as_slice() == order.as_bytes());
    }
    Ok(())
}

#[test]
fn order_is_read_back(rt: HostRuntime) -> Result<(), Fail> {
    laws::texts_are_read_once();
    let alloc = rt.alloc();
    let order = read(alloc, written(alloc)?.as_slice())?;
    assert!(rt; order.model == Model::Rc);
    assert!(rt; order.processors == 2);
    assert!(rt; order.lines.as_slice() == accesses().as_slice());
    assert!(rt; order.counts.as_slice() == [12, 0].as_slice());
    Ok(())
}

#[test]
fn faults_are_printed(rt: HostRuntime) -> Result<(), Fail> {
    let alloc = rt.alloc();
    for &(fault, text) in &[
        (TextFault::BadLine(7), "BadLine 7"),
        (TextFault::Truncated, "Truncated"),
        (TextFault::TooMany, "TooMany"),
        (TextFault::Memory, "no memory"),
    ] {
        assert!(rt; fault.to_string(alloc)?.as_str() == text);
    }
    Ok(())
}

#[test]
fn front_of_an_order_is_truncated(rt: HostRuntime) {
    let text = ORDER.as_bytes();
    for (end, _) in text.iter().enumerate() {
        assert!(rt;
            read(rt.alloc(), &text[..end]).err() == Some(TextFault::Truncated),
            "{end}"
        );
    }
}

// No byte of the order may be one of these. Another byte makes a bad line of the line in which it stands, and so does a
// line feed, since no front of a line here is a line; only the last line feed, changed, leaves no line.
#[test]
fn changed_byte_is_found_in_its_line(rt: HostRuntime) -> Result<(), Fail> {
    let order = b"rsim order 1\nmodel pc\nprocessors 1\n0 0 L 1 0000000000200003 0a -\nend 3\n";
    let mut line = 1;
    for (at, byte) in order.iter().enumerate() {
        for &other in &[b'x', b'A', b'_', b'\r', b'\t', b'\n', 0, 255] {
            let mut text = Vec::from_slice(rt.alloc(), order)?;
            assert!(rt; at < text.len());
            text[at] = other;
            let expected = if other == *byte {
                None
            } else if at + 1 == order.len() {
                Some(TextFault::Truncated)
            } else {
                Some(TextFault::BadLine(line))
            };
            assert!(rt;
                read(rt.alloc(), text.as_slice()).err() == expected,
                "{at}: {other}"
            );
        }
        line = line.wrapping_add(u32::from(*byte == b'\n'));
    }
    Ok(())
}

// The fault of an order of one processor with this line of an access.
fn fault_of_access(alloc: Global, line: &str) -> Result<Option<TextFault>, Fail> {
    let text = format!(in alloc; "rsim order 1\nmodel sc\nprocessors 1\n{line}\nend 0\n")?;
    Ok(read(alloc, text.as_bytes()).err())
}

#[test]
fn lines_of_accesses_are_read(rt: HostRuntime) -> Result<(), Fail> {
    for &line in &[
        "0 0 L 1 0000000000200003 0a -",
        "0 0 S 1 0000000000200003 - 0a",
        "0 0 A 1 0000000000200003 00 0a",
        "9 10 L 2 0000000000000000 0000 -",
        "255 7999999 A 8 ffffffffffffffff ffffffffffffffff ffffffffffffffff",
    ] {
        assert!(rt; fault_of_access(rt.alloc(), line)? == None, "{line}");
    }
    Ok(())
}

#[test]
fn bad_lines_of_accesses_are_told(rt: HostRuntime) -> Result<(), Fail> {
    for &line in &[
        "256 0 L 1 0000000000200003 0a -",
        "0 8000000 L 1 0000000000200003 0a -",
        "0 99999999999999999999 L 1 0000000000200003 0a -",
        "00 0 L 1 0000000000200003 0a -",
        "0 01 L 1 0000000000200003 0a -",
        " 0 L 1 0000000000200003 0a -",
        "0  0 L 1 0000000000200003 0a -",
        "0 0 L 1  0000000000200003 0a -",
        "0 0 L 1 0000000000200003 0a  -",
        "0 0 L 1 0000000000200003 0a - ",
        "0 0 L 1 0000000000200003 0a -\r",
        "0 0 l 1 0000000000200003 0a -",
        "0 0 L 3 0000000000200003 0a -",
        "0 0 L 1 000000000020000 0a -",
        "0 0 L 1 00000000000200003 0a -",
        "0 0 L 1 000000000020000C 0a -",
        "0 0 L 1 0000000000200003 0A -",
        "0 0 L 1 0000000000200003 0g -",
        "0 0 L 1 0000000000200003 a -",
        "0 0 L 1 0000000000200003 00a -",
        "0 0 L 2 0000000000200003 00a -",
        "0 0 L 8 0000000000200000 000000000000000A -",
        "0 0 L 1 0000000000200003 - -",
        "0 0 L 1 0000000000200003 0a 0a",
        "0 0 S 1 0000000000200003 0a -",
        "0 0 S 1 0000000000200003 - -",
        "0 0 A 1 0000000000200003 - 0a",
        "0 0 A 1 0000000000200003 0a -",
        "0 0 L 1 0000000000200003 0a",
        "",
    ] {
        assert!(rt;
            fault_of_access(rt.alloc(), line)? == Some(TextFault::BadLine(4)),
            "{line}"
        );
    }
    Ok(())
}

#[test]
fn headings_and_end_lines_are_read(rt: HostRuntime) -> Result<(), Fail> {
    for &(text, fault) in &[
        ("", Some(TextFault::Truncated)),
        ("\n", Some(TextFault::BadLine(1))),
        ("rsim order 2\nmodel sc\n", Some(TextFault::BadLine(1))),
        ("rsim order 1\nmodel SC\n", Some(TextFault::BadLine(2))),
        (
            "rsim order 1\nmodel sc\nprocessors 0\n",
            Some(TextFault::BadLine(3)),
        ),
        (
            "rsim order 1\nmodel sc\nprocessors 17\n",
            Some(TextFault::BadLine(3)),
        ),
        (
            "rsim order 1\nmodel sc\nprocessors 01\n",
            Some(TextFault::BadLine(3)),
        ),
        (
            "rsim order 1\nmodel sc\nprocessors 1\n",
            Some(TextFault::Truncated),
        ),
        ("rsim order 1\nmodel sc\nprocessors 1\nend 0\n", None),
        (
            "rsim order 1\nmodel rc\nprocessors 16\nend 1 2 3 4 5 6 7 8 9 10 11 12 13 14 15 16\n",
            None,
        ),
    ] {
        assert!(rt; read(rt.alloc(), text.as_bytes()).err() == fault, "{text}");
    }
    for &(end, fault) in &[
        ("end 8000000 0\n", None),
        ("end 8000001 0\n", Some(TextFault::BadLine(4))),
        ("end 8000000 1\n", Some(TextFault::TooMany)),
        ("end 8000000 1\nend", Some(TextFault::TooMany)),
        ("end 3 0", Some(TextFault::Truncated)),
        ("end 3 0\nx", Some(TextFault::BadLine(5))),
        ("end 3 0\n\n", Some(TextFault::BadLine(5))),
        (
            "0 0 L 1 0000000000200003 0a -\nend 3 0\nend 3 0\nx\n",
            Some(TextFault::BadLine(6)),
        ),
        ("end 3\n", Some(TextFault::BadLine(4))),
        ("end 3 0 0\n", Some(TextFault::BadLine(4))),
        ("end 3 0 \n", Some(TextFault::BadLine(4))),
        ("end 03 0\n", Some(TextFault::BadLine(4))),
        ("end  3 0\n", Some(TextFault::BadLine(4))),
    ] {
        let text = format!(in rt.alloc(); "rsim order 1\nmodel sc\nprocessors 2\n{end}")?;
        assert!(rt; read(rt.alloc(), text.as_bytes()).err() == fault, "{end}");
    }
    Ok(())
}
