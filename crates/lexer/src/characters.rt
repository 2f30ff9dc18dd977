// Letters and numbers: classes of bytes, runs of a class, and the number that digits write.
ghost use Rattle.std.specs.Prelude.{◌≡◌, Bool, true, ℕ, ◌+◌, ◌<◌, drop};
ghost use Rattle.lexer.specs.Text.{within, is_blank, is_digit, is_hex_digit, is_letter, is_word_part, digit, run, all};
ghost use Rattle.lexer.specs.Runs.{up_to_one, radix, valued_from};
ghost use Rattle.lexer.specs.Tokens.{in_quotes, in_comment};

#[tactic(auto, unfolding(crate::specs::Text::is_blank, crate::specs::Text::any_of, crate::specs::Text::among, crate::specs::Text::bytes))]
pub fn is_whitespace(c: u8) -> bool
    ensures { result ≡ is_blank c }
{
    matches!(c, b' ' | b'\t' | b'\r')
}

#[tactic(auto, unfolding(crate::specs::Text::within))]
pub fn is_binary_digit(c: u8) -> bool
    ensures { result ≡ within "0" "1" c }
{
    matches!(c, b'0'..=b'1')
}

#[tactic(auto, unfolding(crate::specs::Text::within))]
pub fn is_octal_digit(c: u8) -> bool
    ensures { result ≡ within "0" "7" c }
{
    matches!(c, b'0'..=b'7')
}

#[tactic(auto, unfolding(crate::specs::Text::is_digit, crate::specs::Text::within))]
pub fn is_decimal_digit(c: u8) -> bool
    ensures { result ≡ is_digit c }
{
    c.is_ascii_digit()
}

#[tactic(auto, unfolding(crate::specs::Text::is_hex_digit, crate::specs::Text::is_digit, crate::specs::Text::within))]
pub fn is_hexadecimal_digit(c: u8) -> bool
    ensures { result ≡ is_hex_digit c }
{
    c.is_ascii_hexdigit()
}

#[tactic(auto, unfolding(crate::specs::Text::is_letter, crate::specs::Text::is, crate::specs::Text::within))]
pub fn is_identifier_first(c: u8) -> bool
    ensures { result ≡ is_letter c }
{
    c.is_ascii_alphabetic() | (c == b'_')
}

// A letter is asked for first, since most of a name is letters.
#[tactic(auto, unfolding(crate::specs::Text::is_word_part, crate::specs::Text::is))]
pub fn is_identifier(c: u8) -> bool
    ensures { result ≡ is_word_part c }
{
    is_identifier_first(c) || is_decimal_digit(c) | (c == b'.')
}

// A binary digit, or a byte before them.
pub fn is_at_most_one(c: u8) -> bool
    ensures { result ≡ up_to_one c }
{
    c <= b'1'
}

#[tactic(auto, unfolding(crate::specs::Tokens::in_quotes, crate::specs::Text::is))]
pub fn is_quoted(c: u8) -> bool
    ensures { result ≡ in_quotes c }
{
    !((c == b'\'') | (c == b'\n'))
}

#[tactic(auto, unfolding(crate::specs::Tokens::in_comment, crate::specs::Text::is))]
pub fn is_remark(c: u8) -> bool
    ensures { result ≡ in_comment c }
{
    c != b'\n'
}

// The place behind the run of bytes of a class that begins at `from`, which may lie beyond the end. It is made anew for each class.
// By `position` in what is left, all tokens took up to 2 % more instructions and a tenth longer.
#[inline]
pub fn run_end<F: Fn(u8) -> bool>(source: &[u8], from: usize, belongs: F) -> usize
    requires { F.IsAlwaysCallable belongs }
    ensures { (p : ℕ → Bool) → ((c : ℕ) (r : Bool) → c < 256 → F.post belongs c r → r ≡ p c)
        → result ≡ from + run p (drop from source.now) }
{
    for i in from..source.len() {
        if !belongs(source[i]) {
            return i;
        }
    }
    from.max(source.len())
}

// The same for the bytes of a string. No `for`: by the one over places, in `run_end`, the branches of this loop lay where the processor takes
// them slowly, and a long string took half as long again or more.
#[inline]
pub fn quoted_end(source: &[u8], from: usize) -> usize
    ensures { result ≡ from + run in_quotes (drop from source.now) }
{
    let mut i = from;
    while i < source.len() {
        if is_quoted(source[i]) {
            i += 1;
        } else {
            return i;
        }
    }
    i
}

// What a hexadecimal digit is worth (RULES 2.5): the low four bits of its code, and 9 more for a letter. A sum, so that every digit takes the
// same path. Nothing is said of other characters; which are digits, and what they are worth, is the table `worths`.
pub fn digit_value(c: u8) -> u64
    ensures { is_hex_digit c ≡ true → result ≡ digit c }
{
    u64::from(c % 16 + 9 * (c / 64))
}

// The base of a number, whose discriminant it is.
#[derive(Clone, Copy)]
pub enum Base {
    Binary = 2,
    Octal = 8,
    Decimal = 10,
    Hexadecimal = 16,
}

impl Base {
    // A method and no `From`, so that a caller's line says what the u64 is.
    pub fn number(self) -> u64
        ensures { result ≡ radix self }
    {
        self as u64
    }
}

// The number that hexadecimal digits write, if they are digits of the base and an i32 holds it. A u32, since a `Scanned` has one value
// for a byte and a number alike.
pub fn from_radix(digits: &[u8], base: Base) -> Option<u32>
    requires { all is_hex_digit digits.now ≡ true }
    ensures { result ≡ valued_from 0 (radix base) digits.now }
{
    let base = base.number();
    let mut v: u64 = 0;
    for c in digits {
        let d = digit_value(*c);
        if base <= d {
            return None;
        }
        v = v * base + d;
        if 2147483647 < v {
            return None;
        }
    }
    Some(v as u32)
}
