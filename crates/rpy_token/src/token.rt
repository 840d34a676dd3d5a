// Tokens, and lists of them.
ghost use Rattle.std.specs.Prelude.{◌≡◌, ◌<◌, ◌^◌, length, slice_get, Some};

use rpy_base::{Seq, Text};
use std::marker::Model;

#[derive(Clone, Copy, Debug, PartialEq, Eq)]
pub enum Keyword {
    And,
    As,
    Assert,
    Break,
    Class,
    Continue,
    Def,
    Del,
    Elif,
    Else,
    Except,
    Exec,
    Finally,
    For,
    From,
    Global,
    If,
    Import,
    In,
    Is,
    Lambda,
    Not,
    Or,
    Pass,
    Print,
    Raise,
    Return,
    Try,
    While,
    With,
    Yield,
}

#[derive(Clone, Copy, Debug, PartialEq, Eq)]
pub enum Sign {
    FloorDivAssign,
    ShlAssign,
    ShrAssign,
    AddAssign,
    SubAssign,
    MulAssign,
    DivAssign,
    ModAssign,
    AndAssign,
    OrAssign,
    XorAssign,
    EqualEqual,
    NotEqual,
    LessEqual,
    GreaterEqual,
    FloorDiv,
    ShiftLeft,
    ShiftRight,
    Plus,
    Minus,
    Star,
    Slash,
    Percent,
    Ampersand,
    Bar,
    Caret,
    Tilde,
    Less,
    Greater,
    Equal,
    OpenParen,
    CloseParen,
    OpenBracket,
    CloseBracket,
    OpenBrace,
    CloseBrace,
    Comma,
    Colon,
    Semicolon,
    Dot,
    At,
}

#[derive(Drop)]
pub enum TokenKind {
    Name(Text),
    Int(i64),
    Str(Text),
    Word(Keyword),
    Sign(Sign),
    Newline,
    Indent,
    Dedent,
    End,
}

/// A token, with the bytes from `start` to `end` and the line that it starts on, counted from 1.
#[derive(Drop)]
pub struct Token {
    pub kind: TokenKind,
    pub start: u32,
    pub end: u32,
    pub line: u32,
}

/// The tokens of a source, in order. Contracts see their list.
#[derive(Drop)]
pub struct Tokens {
    tokens: Seq<Token>,
}

impl Model for Tokens {
    ghost use Rattle.std.specs.Prelude.{List, ◌<◌, ◌^◌, length};
    ghost use Rattle.rpy_token.specs.declared.token.Token.{Token};

    ghost Value = { List Token };

    ghost view = { λ t. t.tokens };

    ghost invariant = { λ t. length t.tokens < 2 ^ 32 };
}

impl Tokens {
    /// The tokens of a list that is short enough.
    pub fn from_seq(tokens: Seq<Token>) -> Tokens
        requires { length tokens < 2 ^ 32 }
        ensures { result ≡ tokens }
    {
        Tokens { tokens }
    }

    pub fn len(&self) -> u32
        ensures { result ≡ length self.now }
    {
        self.tokens.len() as u32
    }

    pub fn get(&self, i: u32) -> &Token
        requires { i < length self.now }
        ensures { slice_get self.now i ≡ Some result.now }
    {
        &self.tokens.as_slice()[i as usize]
    }

    pub fn as_slice(&self) -> &[Token]
        ensures { result.now ≡ self.now }
    {
        self.tokens.as_slice()
    }
}
