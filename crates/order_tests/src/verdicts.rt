// What a check answers, and in which words.
use elf64_load::load;
use order_certificate::TextFault;
use order_checker::{Accepted, Part, Rejected, check, laws};
use rsim_base::Node;
use std::test::Fail;

#[test]
fn answers_are_named_with_their_numbers(rt: HostRuntime) -> Result<(), Fail> {
    laws::faultless_orders_fit();
    for &(answer, text) in &[
        (Rejected::Text(TextFault::BadLine(4)), "BadLine 4"),
        (Rejected::Text(TextFault::TooMany), "TooMany"),
        (Rejected::Foreign(5), "Foreign 5"),
        (Rejected::Ended(Node(0), 8), "Ended 0 8"),
        (Rejected::Missing(Node(15), 7_999_999), "Missing 15 7999999"),
        (Rejected::Differs(6, Part::Addr), "Differs 6 Addr"),
        (Rejected::Differs(7, Part::Kind), "Differs 7 Kind"),
        (Rejected::Differs(8, Part::Size), "Differs 8 Size"),
        (Rejected::Differs(9, Part::Stored), "Differs 9 Stored"),
        (Rejected::OutOfOrder(4, Node(0), 0), "OutOfOrder 4 0 0"),
        (Rejected::WrongValue(7, 7, 1, 0), "WrongValue 7 7 1 0"),
        (Rejected::Memory, "no memory"),
    ] {
        assert!(rt; answer.to_string(rt.alloc())?.as_str() == text);
    }
    Ok(())
}

// An executable of one instruction, with which a processor exits.
const EXIT: &[u8] =
    b"\x7FELF\x02\x02\x01\0\0\0\0\0\0\0\0\0\0\x02\0+\0\0\0\x01\0\0\0\0\0\x10\0\0\0\0\0\0\0\0\0@\0\0\0\0\0\0\0\0\0\0\0\0\0@\08\0\x01\0\0\0\0\0\0\0\0\0\x01\0\0\0\x05\0\0\0\0\0\0\0x\0\0\0\0\0\x10\0\0\0\0\0\0\0\x10\0\0\0\0\0\0\0\0\0\x04\0\0\0\0\0\0\0\x04\0\0\0\0\0\0\0\x04\x91\xD0 \x10";

#[test]
fn orders_of_one_step_are_judged(rt: HostRuntime) -> Result<(), Fail> {
    let alloc = rt.alloc();
    let image = load(alloc, EXIT)?;
    let cases: [(&[u8], Result<Accepted, Rejected>); 4] = [
        (
            b"rsim order 1\nmodel sc\nprocessors 2\nend 1 0\n",
            Ok(Accepted {
                retired: 1,
                entries: 0,
            }),
        ),
        (
            b"rsim order 1\nmodel sc\nprocessors 2\nend 1 2\n",
            Err(Rejected::Ended(Node(1), 1)),
        ),
        (
            b"rsim order 1\nmodel sc\nprocessors 2\n1 0 L 1 000000007f000000 00 -\nend 1 1\n",
            Err(Rejected::Foreign(4)),
        ),
        (
            b"rsim order 1\nmodel sc\nprocessors 2\nend 1\n",
            Err(Rejected::Text(TextFault::BadLine(4))),
        ),
    ];
    for (text, verdict) in &cases {
        assert!(rt; check(alloc, &image, text) == *verdict);
    }
    Ok(())
}
