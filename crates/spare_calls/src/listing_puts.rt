// Parts of lines, put by `listing::put`.
use listing::put;

// The limit of a byte and of a digit; those of all others are lower.
const FAR: usize = 1 << 62;

// The highest place below all limits.
const HIGH: usize = (1 << 57) - 1;

#[test]
fn bytes_and_digits_are_put(rt: HostRuntime) {
    let mut room = *b"............";
    assert_eq!(rt; put::put_byte(&mut room, 0, b'x'), 1);
    assert_eq!(rt; put::put_digit(&mut room, 1, 0x1A), 2);
    assert_eq!(rt; put::put_hex2(&mut room, 2, 0x12B), 4);
    assert_eq!(rt; put::put_hex3(&mut room, 4, 0x1C), 7);
    assert_eq!(rt; put::put_hex4(&mut room, 7, 0xF00D), 11);
    assert_eq!(rt; room, *b"xA2B01CF00D.");
}

#[test]
fn fields_are_put(rt: HostRuntime) {
    let mut room = *b"...................";
    assert_eq!(rt; put::put_start(&mut room, 0, b'I', 0x130), 6);
    assert_eq!(rt; put::put_place(&mut room, 6, 0xFFFF), 11);
    assert_eq!(rt; put::put_bytes(&mut room, 11, &[0x20, 0x0A]), 16);
    assert_eq!(rt; put::put_word(&mut room, 16, 0x72_62), 19);
    assert_eq!(rt; room, *b"I\t0130\tFFFF\t200A\tbr");
}

#[test]
fn what_falls_past_the_end_is_counted(rt: HostRuntime) {
    let mut room = *b"...";
    assert_eq!(rt; put::put_byte(&mut room, 3, b'x'), 4);
    assert_eq!(rt; put::put_hex4(&mut room, 1, 0xBEEF), 5);
    assert_eq!(rt; room, *b".BE");
    assert_eq!(rt; put::put_bytes(&mut room, 1, &[0; 3]), 8);
    assert_eq!(rt; room, *b".\t0");
    assert_eq!(rt; put::put_start(&mut room, HIGH, b'L', 0), HIGH + 6);
    assert_eq!(rt; put::put_digit(&mut room, FAR - 1, 0), FAR);
    assert_eq!(rt; room, *b".\t0");
}

#[test]
fn nothing_is_put_from_the_limit_on(rt: HostRuntime) {
    let mut room = *b"...";
    assert_eq!(rt; put::put_byte(&mut room, FAR, b'x'), FAR);
    assert_eq!(rt; put::put_digit(&mut room, usize::MAX, 1), usize::MAX);
    assert_eq!(rt; put::put_hex2(&mut room, 1 << 61, 1), 1 << 61);
    assert_eq!(rt; put::put_hex3(&mut room, 1 << 60, 1), 1 << 60);
    assert_eq!(rt; put::put_hex4(&mut room, 1 << 59, 1), 1 << 59);
    assert_eq!(rt; put::put_start(&mut room, HIGH + 1, b'L', 0), HIGH + 1);
    assert_eq!(rt; put::put_place(&mut room, 1 << 58, 0), 1 << 58);
    assert_eq!(rt; put::put_bytes(&mut room, 1 << 58, &[]), 1 << 58);
    assert_eq!(rt; put::put_word(&mut room, 1 << 58, 0x72), 1 << 58);
    assert_eq!(rt; room, *b"...");
}

#[test]
fn more_bytes_than_an_image_has_are_not_put(rt: HostRuntime) {
    let bytes = [0u8; 65_537];
    let mut room = *b"...";
    assert_eq!(rt; put::put_bytes(&mut room, 1, &bytes), 1);
    assert_eq!(rt; room, *b"...");
    assert_eq!(rt; put::put_bytes(&mut room, 1, &bytes[..65_536]), 131_074);
    assert_eq!(rt; room, *b".\t0");
}
