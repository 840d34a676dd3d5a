// Keywords and signs.
ghost use Rattle.std.specs.Prelude.{◌≡◌};
ghost use Rattle.std.specs.Str.{bytes_eq};
ghost use Rattle.rpy_token.specs.Families as spec;
ghost use Rattle.rpy_token.specs.Words as table;
ghost use Rattle.rpy_token.specs.Fault.{Same};

use crate::token::{Keyword, Sign};

fn equals(word: &[u8], text: &str) -> bool
    ensures { result ≡ bytes_eq word.now text.now }
{
    word == text.as_bytes()
}

#[tactic(auto, unfolding(crate::specs::Families::short_keyword))]
fn short_keyword(word: &[u8]) -> Option<Keyword>
    ensures { result ≡ spec.short_keyword word.now }
{
    if equals(word, "as") {
        Some(Keyword::As)
    } else if equals(word, "if") {
        Some(Keyword::If)
    } else if equals(word, "in") {
        Some(Keyword::In)
    } else if equals(word, "is") {
        Some(Keyword::Is)
    } else if equals(word, "or") {
        Some(Keyword::Or)
    } else if equals(word, "and") {
        Some(Keyword::And)
    } else if equals(word, "def") {
        Some(Keyword::Def)
    } else if equals(word, "del") {
        Some(Keyword::Del)
    } else if equals(word, "for") {
        Some(Keyword::For)
    } else if equals(word, "not") {
        Some(Keyword::Not)
    } else if equals(word, "try") {
        Some(Keyword::Try)
    } else {
        None
    }
}

#[tactic(auto, unfolding(crate::specs::Families::middle_keyword))]
fn middle_keyword(word: &[u8]) -> Option<Keyword>
    ensures { result ≡ spec.middle_keyword word.now }
{
    if equals(word, "elif") {
        Some(Keyword::Elif)
    } else if equals(word, "else") {
        Some(Keyword::Else)
    } else if equals(word, "exec") {
        Some(Keyword::Exec)
    } else if equals(word, "from") {
        Some(Keyword::From)
    } else if equals(word, "pass") {
        Some(Keyword::Pass)
    } else if equals(word, "with") {
        Some(Keyword::With)
    } else if equals(word, "break") {
        Some(Keyword::Break)
    } else if equals(word, "class") {
        Some(Keyword::Class)
    } else if equals(word, "print") {
        Some(Keyword::Print)
    } else if equals(word, "raise") {
        Some(Keyword::Raise)
    } else if equals(word, "while") {
        Some(Keyword::While)
    } else if equals(word, "yield") {
        Some(Keyword::Yield)
    } else {
        None
    }
}

#[tactic(auto, unfolding(crate::specs::Families::long_keyword))]
fn long_keyword(word: &[u8]) -> Option<Keyword>
    ensures { result ≡ spec.long_keyword word.now }
{
    if equals(word, "assert") {
        Some(Keyword::Assert)
    } else if equals(word, "except") {
        Some(Keyword::Except)
    } else if equals(word, "global") {
        Some(Keyword::Global)
    } else if equals(word, "import") {
        Some(Keyword::Import)
    } else if equals(word, "lambda") {
        Some(Keyword::Lambda)
    } else if equals(word, "return") {
        Some(Keyword::Return)
    } else if equals(word, "finally") {
        Some(Keyword::Finally)
    } else if equals(word, "continue") {
        Some(Keyword::Continue)
    } else {
        None
    }
}

#[tactic(auto, unfolding(crate::specs::Families::keyword_by_length))]
fn keyword_by_length(word: &[u8]) -> Option<Keyword>
    ensures { result ≡ spec.keyword_by_length word.now }
{
    if let Some(found) = short_keyword(word) {
        return Some(found);
    }
    if let Some(found) = middle_keyword(word) {
        return Some(found);
    }
    long_keyword(word)
}

#[tactic(auto, using(crate::proofs::SignTable::keyword_is))]
pub fn keyword(word: &[u8]) -> Option<Keyword>
    ensures { result ≡ table.keyword word.now }
{
    keyword_by_length(word)
}

/// `//`, `<<` and `>>`, by their byte, with `=` after them.
fn doubled_assign(a: u8) -> Option<Sign>
    ensures { result ≡ spec.doubled_assign a }
{
    match a {
        b'/' => Some(Sign::FloorDivAssign),
        b'<' => Some(Sign::ShlAssign),
        b'>' => Some(Sign::ShrAssign),
        _ => None,
    }
}

/// The sign that a byte and `=` make.
fn before_equals(a: u8) -> Option<Sign>
    ensures { result ≡ spec.before_equals a }
{
    match a {
        b'+' => Some(Sign::AddAssign),
        b'-' => Some(Sign::SubAssign),
        b'*' => Some(Sign::MulAssign),
        b'/' => Some(Sign::DivAssign),
        b'%' => Some(Sign::ModAssign),
        b'&' => Some(Sign::AndAssign),
        b'|' => Some(Sign::OrAssign),
        b'^' => Some(Sign::XorAssign),
        b'=' => Some(Sign::EqualEqual),
        b'!' => Some(Sign::NotEqual),
        b'<' => Some(Sign::LessEqual),
        b'>' => Some(Sign::GreaterEqual),
        _ => None,
    }
}

/// `//`, `<<` and `>>`, by their byte.
fn doubled(a: u8) -> Option<Sign>
    ensures { result ≡ spec.doubled a }
{
    match a {
        b'/' => Some(Sign::FloorDiv),
        b'<' => Some(Sign::ShiftLeft),
        b'>' => Some(Sign::ShiftRight),
        _ => None,
    }
}

fn operator(a: u8) -> Option<Sign>
    ensures { result ≡ spec.operator a }
{
    match a {
        b'+' => Some(Sign::Plus),
        b'-' => Some(Sign::Minus),
        b'*' => Some(Sign::Star),
        b'/' => Some(Sign::Slash),
        b'%' => Some(Sign::Percent),
        b'&' => Some(Sign::Ampersand),
        b'|' => Some(Sign::Bar),
        b'^' => Some(Sign::Caret),
        b'~' => Some(Sign::Tilde),
        b'<' => Some(Sign::Less),
        b'>' => Some(Sign::Greater),
        _ => None,
    }
}

fn punctuation(a: u8) -> Option<Sign>
    ensures { result ≡ spec.punctuation a }
{
    match a {
        b'=' => Some(Sign::Equal),
        b'(' => Some(Sign::OpenParen),
        b')' => Some(Sign::CloseParen),
        b'[' => Some(Sign::OpenBracket),
        b']' => Some(Sign::CloseBracket),
        b'{' => Some(Sign::OpenBrace),
        b'}' => Some(Sign::CloseBrace),
        b',' => Some(Sign::Comma),
        b':' => Some(Sign::Colon),
        b';' => Some(Sign::Semicolon),
        b'.' => Some(Sign::Dot),
        b'@' => Some(Sign::At),
        _ => None,
    }
}

fn single(a: u8) -> Option<Sign>
    ensures { result ≡ spec.first_of_two (spec.operator a) (spec.punctuation a) }
{
    match operator(a) {
        Some(sign) => Some(sign),
        None => punctuation(a),
    }
}

fn and_rest(sign: Option<Sign>, rest: &[u8]) -> Option<(Sign, &[u8])>
    ensures { Same (λ x. (x.0, x.1.now)) result (spec.and_rest sign rest.entry.now) }
{
    match sign {
        Some(sign) => Some((sign, rest)),
        None => None,
    }
}

#[tactic(auto, unfolding(crate::specs::Families::sign_of_three))]
fn sign_of_three(bytes: &[u8]) -> Option<(Sign, &[u8])>
    ensures { Same (λ x. (x.0, x.1.now)) result (spec.sign_of_three bytes.entry.now) }
{
    match bytes {
        [a, b, c, rest @ ..] if *a == *b && *c == b'=' => and_rest(doubled_assign(*a), rest),
        _ => None,
    }
}

#[tactic(auto, unfolding(crate::specs::Families::sign_of_two))]
fn sign_of_two(bytes: &[u8]) -> Option<(Sign, &[u8])>
    ensures { Same (λ x. (x.0, x.1.now)) result (spec.sign_of_two bytes.entry.now) }
{
    match bytes {
        [a, b'=', rest @ ..] => and_rest(before_equals(*a), rest),
        [a, b, rest @ ..] if *a == *b => and_rest(doubled(*a), rest),
        _ => None,
    }
}

#[tactic(auto, unfolding(crate::specs::Families::sign_of_one))]
fn sign_of_one(bytes: &[u8]) -> Option<(Sign, &[u8])>
    ensures { Same (λ x. (x.0, x.1.now)) result (spec.sign_of_one bytes.entry.now) }
{
    match bytes {
        [a, rest @ ..] => and_rest(single(*a), rest),
        [] => None,
    }
}

#[tactic(auto, unfolding(crate::specs::Families::sign_of))]
fn sign_of(bytes: &[u8]) -> Option<(Sign, &[u8])>
    ensures { Same (λ x. (x.0, x.1.now)) result (spec.sign_of bytes.entry.now) }
{
    if let Some(found) = sign_of_three(bytes) {
        return Some(found);
    }
    if let Some(found) = sign_of_two(bytes) {
        return Some(found);
    }
    sign_of_one(bytes)
}

/// The longest sign at the front, and what follows it.
#[tactic(auto, using(crate::proofs::SignTable::sign_is))]
pub fn longest_sign(bytes: &[u8]) -> Option<(Sign, &[u8])>
    ensures { Same (λ x. (x.0, x.1.now)) result (table.longest_sign bytes.entry.now) }
{
    sign_of(bytes)
}
