// Numbers in a schedule: decimal, at most 65,535, without needless zeros.
ghost use Rattle.std.specs.Prelude.{◌≡◌, ◌≤◌, length, Decides};
ghost use Rattle.std.specs.Char.{is_ascii_digit};
ghost use Rattle.std.specs.List.{prefix_len};
ghost use Rattle.textline.specs.Numbers.{Found, Numeral, StartsPlain, TakesField, Spells};

use std::str;

// Whether `digits` begins as the text of a number: no sign, no needless zero, and not empty.
fn starts_plain(digits: &[u8]) -> bool
    ensures { Decides result (StartsPlain digits.now) }
{
    match digits {
        [] | [b'+', ..] | [b'0', _, ..] => false,
        _ => true,
    }
}

// The number that `digits` is the text of. `parse` alone would take a sign and leading zeros.
pub(crate) fn number(digits: &[u8]) -> Option<u16>
    ensures { Found (Numeral digits.now) result }
{
    if !starts_plain(digits) {
        return None;
    }
    str::from_utf8(digits).ok()?.parse().ok()
}

// How many digits stand at the front.
fn digits_len(s: &[u8]) -> usize
    ensures digits { result ≡ prefix_len is_ascii_digit s.now }
    ensures within { result ≤ length s.now }
{
    s.iter().take_while(|b| b.is_ascii_digit()).count()
}

// A space and a number, and what follows them.
fn field(s: &[u8]) -> Option<(u16, &[u8])>
    ensures { TakesField s.now result }
{
    let rest = s.strip_prefix(b" ")?;
    let (digits, after) = rest.split_at(digits_len(rest));
    Some((number(digits)?, after))
}

// `N` numbers, each after one space, and nothing else.
pub(crate) fn numbers<const N: usize>(s: &[u8]) -> Option<[u16; N]>
    ensures { Found (Spells N s.now) result }
{
    let mut out = [0u16; N];
    let mut rest = s;
    for slot in out.iter_mut() {
        (*slot, rest) = field(rest)?;
    }
    rest.is_empty().then_some(out)
}
