//! Numbers as decimal digits, without a sign.
ghost use Rattle.std.specs.Prelude.{◌≡◌, ◌<◌, ◌≤◌, ◌+◌, ◌-◌, ◌*◌, ◌/◌, ◌%◌, ◌∷◌, ◌++◌, [], true, false, ℕ, IsTrue, ◌↔◌, slice_index, length, take, drop, MatchOption};
ghost use Rattle.std.specs.Fmt.{decimal};
ghost use Rattle.std.specs.Int.{IsInRange};
ghost use Rattle.std.specs.Str.Parse.{digits_value};
ghost use Rattle.elsa_program.specs.Lines.{is_number};

/// Returns whether each byte is an ASCII digit.
fn all_digits(digits: &[u8]) -> bool
    ensures { IsTrue result
        ↔ ((i : ℕ) → i < length digits.now → IsInRange 48 57 (slice_index digits.now i)) }
{
    digits.iter().all(|b| b.is_ascii_digit())
}

/// Returns the number that the text writes in decimal, with or without leading zeros. `None` unless
/// the text is one or more ASCII digits, without a sign, and the number is at most 2^64 - 1. It
/// allocates nothing.
pub fn number_of(digits: &str) -> Option<u64>
    ensures { MatchOption result (is_number digits.now ≡ false) (λ n.
        (is_number digits.now ≡ true) × (n ≡ digits_value 10 digits.now)) }
{
    if !all_digits(digits.as_bytes()) {
        return None;
    }
    digits.parse().ok()
}

/// The two digits of each number below 100, in order.
static PAIRS: [u8; 200] =
    *b"00010203040506070809101112131415161718192021222324252627282930313233343536373839404142434445464748495051525354555657585960616263646566676869707172737475767778798081828384858687888990919293949596979899";

/// Each number below this one has at most eight digits.
pub(crate) const SHORT: usize = 100_000_000;

/// The greatest number of bytes in the line of such a number: eight digits and byte 10.
pub(crate) const LINE: usize = 9;

/// Returns the number of digits of `n`.
///
/// It adds the results of comparisons instead of branching on them, since a processor could not
/// predict such branches.
#[inline(always)]
pub(crate) fn digit_count(n: usize) -> usize
    requires { n < SHORT }
    ensures length { result ≡ length (decimal n) }
    ensures digits { (1 ≤ result) × (result ≤ 8) }
{
    let (one, two, three) = (n >= 10, n >= 100, n >= 1_000);
    let (four, five, six, seven) = (n >= 10_000, n >= 100_000, n >= 1_000_000, n >= 10_000_000);
    let few = 1 + one as usize + two as usize + three as usize;
    few + four as usize + five as usize + six as usize + seven as usize
}

/// Returns the two digits of a number below 100.
#[inline(always)]
fn pair(number: usize) -> [u8; 2]
    requires { number < 100 }
    ensures { result ≡ (48 + number / 10) ∷ (48 + number % 10) ∷ [] }
{
    let (tens, ones) = (PAIRS[number * 2], PAIRS[number * 2 + 1]);
    [tens, ones]
}

/// Returns the digits of `n` in the first `count` bytes. The other bytes have no meaning.
///
/// It shifts the digits within a word, so that no byte is loaded from memory which was just stored.
#[inline(always)]
pub(crate) fn digits_of(n: usize, count: usize) -> [u8; 8]
    requires short { n < SHORT }
    requires count { count ≡ length (decimal n) }
    requires digits { (1 ≤ count) × (count ≤ 8) }
    ensures { take count result ≡ decimal n }
{
    let (high, low) = (n / 10_000, n % 10_000);
    let ([a, b], [c, d]) = (pair(high / 100), pair(high % 100));
    let ([e, f], [g, h]) = (pair(low / 100), pair(low % 100));
    let front = u32::from_le_bytes([a, b, c, d]) as u64;
    let back = u32::from_le_bytes([e, f, g, h]) as u64;
    ((front | back << 32) >> (8 * (8 - count))).to_le_bytes()
}
