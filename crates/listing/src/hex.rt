// A hex digit.
ghost use Rattle.std.specs.Prelude.{◌≡◌};
ghost use Rattle.listing.specs.Hex.{hex1};

// The letter of the lowest hex digit.
pub fn hex1(n: u32) -> u8
    ensures { result ≡ hex1 n }
{
    let d = (n % 16) as u8;
    if d < 10 { 48 + d } else { 55 + d }
}
