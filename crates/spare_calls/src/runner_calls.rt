// Numbers read and bytes put by `runner`, with what is handed over: a closure, a numeral, an iterator.
use runner::Numeral;

// Tallies: a stroke is one, and a cross ten.
fn stroke(b: u8) -> Option<u8> {
    match b {
        b'|' => Some(1),
        b'+' => Some(10),
        _ => None,
    }
}

#[test]
fn numbers_are_read_by_any_digits(rt: HostRuntime) {
    assert_eq!(rt; runner::number(b"307", |b| runner::decimal_digit(b)), 307);
    assert_eq!(rt; runner::number(b"1F", |b| runner::hex_digit(b)), 25);
    assert_eq!(rt; runner::number(b"|.+", stroke), 110);
    assert_eq!(rt; runner::number(b"", stroke), 0);
    assert_eq!(rt;
        runner::number(b"12345678901234567890", |b| runner::decimal_digit(b)),
        1_234_567_890_123
    );
}

#[test]
fn numbers_are_read_by_a_numeral(rt: HostRuntime) {
    assert_eq!(rt; runner::number_by(b"3A7", Numeral::Decimal), 307);
    assert_eq!(rt; runner::number_by(b"3A7", Numeral::Hex), 407);
}

#[test]
fn bytes_of_an_iterator_are_put(rt: HostRuntime) {
    let mut room = *b"......";
    assert_eq!(rt; runner::put(b"abc".iter().copied(), 1, &mut room), 4);
    assert_eq!(rt;
        runner::put([7, 8].into_iter().map(|n: u8| n + b'0'), 5, &mut room),
        6
    );
    assert_eq!(rt; runner::put(b"z".iter().copied(), 6, &mut room), 6);
    assert_eq!(rt; room, *b".abc.7");
    assert_eq!(rt; runner::put(b"z".iter().copied(), 9, &mut room), 9);
    assert_eq!(rt; room, *b".abc.7");
}
