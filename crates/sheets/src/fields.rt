// Fields at the front of a text, each read with the text behind it: numbers, and the ends of lines.
ghost use Rattle.std.specs.Prelude.{◌≡◌, ◌+◌, ◌<◌, ◌∷◌, MatchOption};
ghost use Rattle.sheets.specs.Parsing.{head, value, longer, plain, binary, field, further, opened, ended};
ghost use Rattle.sheets.specs.Working.{read_number, ReadQuotable, read_end};

// What was read off a text's front, with the text behind it; or nothing.
pub(crate) type Parsed<'a, T> = Option<(T, &'a [u8])>;

// The value of the digit at a text's front.
fn digit(text: &[u8]) -> Parsed<'_, u8>
    ensures { MatchOption result (value (head text.now) ≡ 10) (λ d. (d.0 < 10) × (text.now ≡ (48 + d.0) ∷ d.1.now)) }
{
    let (first, behind) = text.split_first()?;
    if !first.is_ascii_digit() {
        return None;
    }
    Some((first - b'0', behind))
}

// The number below the limit whose first digits are read already, with the digits at a text's front.
fn longer(text: &[u8], limit: u8, first: u8) -> Parsed<'_, u8>
    ensures { read_number result ≡ longer limit first text.now }
{
    let mut n = first;
    let mut left = text;
    while let Some((d, behind)) = digit(left) {
        n = n.checked_mul(10)?.checked_add(d)?;
        if limit <= n {
            return None;
        }
        left = behind;
    }
    Some((n, left))
}

// A number below the limit in base ten, without leading zeros.
fn plain(text: &[u8], limit: u8) -> Parsed<'_, u8>
    ensures { read_number result ≡ plain limit text.now }
{
    let (first, behind) = digit(text)?;
    if limit <= first {
        return None;
    }
    if first == 0 {
        return Some((0, behind));
    }
    longer(behind, limit, first)
}

// The digit 0 or 1. Apart from `plain`, since one function for both would have to be told how many digits it may read.
fn binary(text: &[u8]) -> Parsed<'_, u8>
    ensures { read_number result ≡ binary text.now }
{
    let (mark, behind) = digit(text)?;
    if 1 < mark {
        return None;
    }
    Some((mark, behind))
}

// What a function reads, plain or between quotes.
fn quotable<'a, F: FnOnce(&'a [u8]) -> Parsed<'a, u8>>(text: &'a [u8], number: F) -> Parsed<'a, u8>
    requires { F.IsAlwaysCallable number }
    ensures { ReadQuotable (F.post number) text.now result }
{
    let Some(inside) = text.strip_prefix(b"\"") else {
        return number(text);
    };
    let (n, behind) = number(inside)?;
    Some((n, behind.strip_prefix(b"\"")?))
}

// The field of a number below the limit.
pub(crate) fn field(text: &[u8], limit: u8) -> Parsed<'_, u8>
    ensures { read_number result ≡ field limit text.now }
{
    quotable(text, |text| plain(text, limit))
}

// The field of a mark behind a comma.
pub(crate) fn further(text: &[u8]) -> Parsed<'_, u8>
    ensures { read_number result ≡ further text.now }
{
    quotable(text.strip_prefix(b",")?, binary)
}

// The text behind an empty first field, which may be two quotes.
pub(crate) fn opened(text: &[u8]) -> &[u8]
    ensures { result.now ≡ opened text.now }
{
    text.strip_prefix(b"\"\"").unwrap_or(text)
}

// The text behind the end of a line, which is the end of the text, or a line end.
pub(crate) fn ended(text: &[u8]) -> Option<&[u8]>
    ensures { read_end result ≡ ended text.now }
{
    if text.is_empty() {
        return Some(text);
    }
    text.strip_prefix(b"\r\n")
}
