//! Numbers, decimal and hexadecimal.

ghost use Rattle.std.specs.Prelude.{◌≡◌, ◌<◌, ◌≤◌, length};
ghost use Rattle.std.specs.List.{AllByRecursion};
ghost use Rattle.dh_tree.specs.Names.{IsNameByte};
ghost use Rattle.dh_lexer.specs.FrontPiece.{digits_number, scanned_number};

/// The number that these letters, digits and `_` write, of which the first is a digit: decimal
/// digits without a leading zero, or `0x` and hexadecimal digits, below 2^64. None where they
/// write none.
#[tactic(auto, unfolding(crate::specs::FrontPiece::scanned_number))]
pub(crate) fn number(bytes: &[u8]) -> Option<u64>
    requires { (0 < length bytes.now) × AllByRecursion IsNameByte bytes.now }
    ensures { result ≡ scanned_number bytes.now }
{
    if bytes[0] == b'0' && bytes.len() >= 2 && bytes[1] == b'x' {
        return digits(&bytes[2..], 16);
    }
    if bytes[0] == b'0' && bytes.len() != 1 {
        return None;
    }
    decimal(bytes)
}

/// The number that these letters, digits and `_` write as digits, below 2^64.
#[tactic(auto, unfolding(crate::specs::FrontPiece::digits_number))]
fn digits(bytes: &[u8], radix: u32) -> Option<u64>
    requires { (2 ≤ radix) × ((radix ≤ 36) × AllByRecursion IsNameByte bytes.now) }
    ensures { result ≡ digits_number radix bytes.now }
{
    let Ok(text) = str::from_utf8(bytes) else {
        return None;
    };
    u64::from_str_radix(text, radix).ok()
}

/// The number that these letters, digits and `_` write as decimal digits, below 2^64. Most are small, and
/// small ones are read here.
fn decimal(bytes: &[u8]) -> Option<u64>
    requires { (0 < length bytes.now) × AllByRecursion IsNameByte bytes.now }
    ensures { result ≡ digits_number 10 bytes.now }
{
    let mut number: u64 = 0;
    for i in 0..bytes.len() {
        if !bytes[i].is_ascii_digit() {
            return None;
        }
        if number > 1_000_000_000 {
            return digits(bytes, 10);
        }
        number = number * 10 + (bytes[i] - b'0') as u64;
    }
    Some(number)
}
