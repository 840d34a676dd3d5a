// The bytes of a source, and what stands at their front.
ghost use Rattle.std.specs.Prelude.{◌≡◌, ◌≤◌, length};
ghost use Rattle.rpy_token.specs.Bytes as spec;
ghost use Rattle.rpy_token.specs.Fault.{Same};

pub fn is_letter(b: u8) -> bool
    ensures { result ≡ spec.is_letter b }
{
    (b'a' <= b && b <= b'z') || (b'A' <= b && b <= b'Z') || b == b'_'
}

pub fn is_digit(b: u8) -> bool
    ensures { result ≡ spec.is_digit b }
{
    b'0' <= b && b <= b'9'
}

pub fn is_name_byte(b: u8) -> bool
    ensures { result ≡ spec.is_name_byte b }
{
    is_letter(b) || is_digit(b)
}

pub fn is_blank(b: u8) -> bool
    ensures { result ≡ spec.is_blank b }
{
    b == b' ' || b == b'\t'
}

/// May the byte stand in a string or a comment?
pub fn is_text_byte(b: u8) -> bool
    ensures { result ≡ spec.is_text_byte b }
{
    (32 <= b && b <= 126) || 128 <= b || b == b'\t'
}

pub fn is_quote(b: u8) -> bool
    ensures { result ≡ spec.is_quote b }
{
    b == b'\'' || b == b'"'
}

#[tactic(auto, unfolding(crate::specs::Bytes::name_len))]
pub fn name_len(bytes: &[u8]) -> usize
    ensures value { result ≡ spec.name_len bytes.now }
    ensures within { result ≤ length bytes.now }
{
    let mut n = 0;
    for b in bytes {
        if !is_name_byte(*b) {
            return n;
        }
        n += 1;
    }
    n
}

#[tactic(auto, unfolding(crate::specs::Bytes::blank_len))]
pub fn blank_len(bytes: &[u8]) -> usize
    ensures value { result ≡ spec.blank_len bytes.now }
    ensures within { result ≤ length bytes.now }
{
    let mut n = 0;
    for b in bytes {
        if !is_blank(*b) {
            return n;
        }
        n += 1;
    }
    n
}

/// What follows the newline at the front. A carriage return directly before it belongs to it.
pub fn after_newline(bytes: &[u8]) -> Option<&[u8]>
    ensures { Same (λ rest. rest.now) result (spec.after_newline bytes.entry.now) }
{
    match bytes {
        [b'\n', rest @ ..] => Some(rest),
        [b'\r', b'\n', rest @ ..] => Some(rest),
        _ => None,
    }
}
