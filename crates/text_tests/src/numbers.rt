// What the number reader answers on some texts.
use terms::refusal::Refusal;
use text::number::number;

#[test]
fn numbers_are_read(rt: HostRuntime) {
    let cases: [(&[u8], i64, usize); 8] = [
        (b"0", 0, 1),
        (b"7)", 7, 1),
        (b"-7 8", -7, 2),
        (b"100 ", 100, 3),
        (b"0-1", 0, 1),
        (b"12x", 12, 2),
        (b"999999999999999", 999_999_999_999_999, 15),
        (b"-999999999999999)", -999_999_999_999_999, 16),
    ];
    for (text, value, taken) in cases {
        assert_eq!(rt; number(text), Ok((value, taken)));
    }
}

#[test]
fn other_texts_are_refused(rt: HostRuntime) {
    let cases: [(&[u8], usize); 11] = [
        (b"", 0),
        (b"x", 0),
        (b"+1", 0),
        (b"-", 1),
        (b"-)", 1),
        (b"-0", 1),
        (b"--1", 1),
        (b"01", 1),
        (b"00", 1),
        (b"1234567890123456", 15),
        (b"-1234567890123456", 16),
    ];
    for (text, place) in cases {
        assert_eq!(rt; number(text), Err(Refusal::Malformed(place)));
    }
}
