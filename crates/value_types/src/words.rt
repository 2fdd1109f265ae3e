// Up to eight digits at once, in a word of eight bytes of which the first counts least.
ghost use Rattle.std.specs.Prelude.{◌≡◌, ◌≤◌, ◌<◌, ◌+◌, ◌-◌, ◌++◌, if◌then◌else◌, List, ℕ, true, drop, length, map, replicate, slice_range, IfSome, None, Some};
ghost use Rattle.std.specs.Char.{is_ascii_digit};
ghost use Rattle.std.specs.List.{list_all, prefix_len};
ghost use Rattle.value_types.specs.Digits.{follows_picture, natural_of};
ghost use Rattle.value_types.specs.Words.{BeginsWord, IsPicture, IsWord, is_worth_of_digit, pairs_of, spelled, word_of, worth, worths_by};

/// The eight bytes from a place on.
#[inline(always)]
pub(crate) fn word_at(bytes: &[u8], from: usize) -> u64
    requires { from + 8 ≤ length bytes.now }
    ensures { result ≡ word_of (slice_range bytes.now from (from + 8)) }
{
    u64::from_le_bytes([
        bytes[from],
        bytes[from + 1],
        bytes[from + 2],
        bytes[from + 3],
        bytes[from + 4],
        bytes[from + 5],
        bytes[from + 6],
        bytes[from + 7],
    ])
}

/// What the text at the front of a word is worth as digits, behind as many zeros as make it a word again.
#[inline(always)]
fn worths(word: u64, count: usize) -> u64
    requires few { (0 < count) × (count ≤ 8) }
    ensures { (text : List ℕ) → length text ≡ count → BeginsWord text word → result ≡ word_of (replicate (8 - count) 0 ++ map worth text) }
{
    (word ^ 0x3030_3030_3030_3030) << (8 * (8 - count))
}

/// Whether each byte of a word is worth less than ten.
#[inline(always)]
fn are_digits(word: u64) -> bool
    ensures { (worths : List ℕ) → IsWord worths → word ≡ word_of worths → result ≡ list_all is_worth_of_digit worths }
{
    // A half byte of ten or more gets a bit of the upper half by six more.
    let carried = (word & 0x0F0F_0F0F_0F0F_0F0F) + 0x0606_0606_0606_0606;
    (carried | word) & 0xF0F0_F0F0_F0F0_F0F0 == 0
}

/// The number that a word of digits' worths spells: pairs of digits first, then fours, then all eight.
#[inline(always)]
fn number(word: u64) -> u64
    ensures { (worths : List ℕ) → IsWord worths → list_all is_worth_of_digit worths ≡ true → word ≡ word_of worths → result ≡ spelled worths }
{
    let pairs = (word & 0x00FF_00FF_00FF_00FF) * 10 + (word >> 8 & 0x00FF_00FF_00FF_00FF);
    let fours = (pairs & 0x0000_FFFF_0000_FFFF) * 100 + (pairs >> 16 & 0x0000_FFFF_0000_FFFF);
    (fours & 0xFFFF_FFFF) * 10_000 + (fours >> 32)
}

/// The number that the text at the front of a word spells.
#[inline(always)]
fn natural(word: u64, count: usize) -> Option<u64>
    requires few { (0 < count) × (count ≤ 8) }
    ensures value { (text : List ℕ) → length text ≡ count → BeginsWord text word → result ≡ natural_of text }
    ensures small { (text : List ℕ) → length text ≡ count → BeginsWord text word → IfSome result (λ number. number < 100_000_000) }
{
    let digits = worths(word, count);
    if are_digits(digits) {
        Some(number(digits))
    } else {
        None
    }
}

/// What eight bytes spell two by two, each number in the place of its first digit, where they follow a picture. Of its two words
/// one has in each place the byte that is worth nothing there, a zero or a mark, and the other what carries the worth of any
/// byte that doesn't follow the picture into the upper half of its place.
#[inline(always)]
pub(crate) fn digit_pairs(word: u64, naughts: u64, carries: u64) -> Option<u64>
    ensures { (picture text : List ℕ) → IsPicture picture naughts carries → IsWord text → word ≡ word_of text
        → result ≡ (if follows_picture picture text then Some (word_of (pairs_of (worths_by picture text))) else None) }
{
    let worths = word ^ naughts;
    let carried = (worths & 0x0F0F_0F0F_0F0F_0F0F).wrapping_add(carries);
    if (carried | worths) & 0xF0F0_F0F0_F0F0_F0F0 == 0 {
        Some(worths.wrapping_mul(10).wrapping_add(worths >> 8))
    } else {
        None
    }
}

/// The number that the last one to eight bytes of a text of eight or more spell.
#[inline(always)]
pub(crate) fn last_digits(text: &[u8], count: usize) -> Option<u64>
    requires few { (0 < count) × (count ≤ 8) }
    requires long { 8 ≤ length text.now }
    ensures value { result ≡ natural_of (drop (length text.now - count) text.now) }
    ensures small { IfSome result (λ number. number < 100_000_000) }
{
    natural(word_at(text, text.len() - 8) >> (8 * (8 - count)), count)
}

/// How many digits stand at the front of a word.
#[inline(always)]
pub(crate) fn digit_count(word: u64) -> usize
    ensures most { result ≤ 8 }
    ensures value { (text : List ℕ) → IsWord text → word ≡ word_of text → result ≡ prefix_len is_ascii_digit text }
{
    let worths = word ^ 0x3030_3030_3030_3030;
    // The top bit of the first byte that is worth ten or more; a carry out of it reaches only those behind it.
    let others = (worths.wrapping_add(0x7676_7676_7676_7676) | worths) & 0x8080_8080_8080_8080;
    others.trailing_zeros() as usize / 8
}

/// The number that the digits at the front of a word spell.
#[inline(always)]
fn front_number(word: u64, count: usize) -> u64
    requires few { (0 < count) × (count ≤ 8) }
    ensures { (text : List ℕ) → length text ≡ count → BeginsWord text word → list_all is_ascii_digit text ≡ true → (natural_of text ≡ Some result) × (result < 100_000_000) }
{
    number(worths(word, count))
}

/// The number that so many digits at a place spell. They have been seen to be digits, so that none is looked at again.
#[inline(always)]
pub(crate) fn digits_at(bytes: &[u8], from: usize, count: usize) -> u64
    requires few { (0 < count) × (count ≤ 8) }
    requires within { from + 8 ≤ length bytes.now }
    requires digits { list_all is_ascii_digit (slice_range bytes.now from (from + count)) ≡ true }
    ensures value { natural_of (slice_range bytes.now from (from + count)) ≡ Some result }
    ensures small { result < 100_000_000 }
{
    front_number(word_at(bytes, from), count)
}
