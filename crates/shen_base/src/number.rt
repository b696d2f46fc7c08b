ghost use Rattle.std.specs.Prelude.{◌≡◌, ◌≤◌, length, drop};
ghost use Rattle.std.specs.Fmt.{decimal};

/// The most decimal digits that a number of 64 bits has.
pub const MOST_DIGITS: usize = 20;

/// Puts the decimal digits of `number` at the end of `digits`, and returns where they begin.
pub fn spell(number: u64, digits: &mut [u8; 20]) -> usize
    ensures within { result ≤ length digits.new }
    ensures digits { drop result digits.new ≡ decimal number }
{
    let mut left = number;
    let mut from = MOST_DIGITS;
    while left >= 10 {
        from -= 1;
        digits[from] = b'0' + (left % 10) as u8;
        left /= 10;
    }
    from -= 1;
    digits[from] = b'0' + left as u8;
    from
}

/// The most decimal digits that a number of 128 bits has.
pub const MOST_WIDE_DIGITS: usize = 39;

/// As `spell`, of a number of 128 bits.
pub fn spell_wide(number: u128, digits: &mut [u8; 39]) -> usize
    ensures within { result ≤ length digits.new }
    ensures digits { drop result digits.new ≡ decimal number }
{
    let mut left = number;
    let mut from = MOST_WIDE_DIGITS;
    while left >= 10 {
        from -= 1;
        digits[from] = b'0' + (left % 10) as u8;
        left /= 10;
    }
    from -= 1;
    digits[from] = b'0' + left as u8;
    from
}
