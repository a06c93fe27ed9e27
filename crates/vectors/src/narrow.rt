// The numbers of a line as those of a call. A number that does not fit becomes 0, and so does not come back as it was.

pub fn narrow<T: TryFrom<i64> + Default>(z: i64) -> T
where
    T::Error: Drop,
{
    T::try_from(z).unwrap_or_default()
}

// The ten lowest hex digits of a number, the highest first.
pub fn hex_digits(z: i64) -> [u8; 10] {
    let mut left: u64 = narrow(z);
    let mut digits = [0; 10];
    for digit in digits.iter_mut().rev() {
        *digit = (left % 16) as u8;
        left /= 16;
    }
    digits
}
