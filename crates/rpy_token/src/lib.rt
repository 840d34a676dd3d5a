//! The tokens of a source, by the rules of Python 2's lexical analysis, within a profile.
//!
//! Tokens are read from left to right, and the first that cannot be read decides the fault.
//!
//! - **Bytes.** A carriage return directly before a newline belongs to it. Outside strings and
//!   comments stand the bytes 32 to 126, tabs and newlines; in them also the bytes from 128 on. Any
//!   other byte, `$`, `?`, a backquote, a `!` without `=`, and a backslash that is not directly before
//!   a newline are `BadByte` there.
//! - **Lines.** A comment runs from `#` to the end of its line. A line of nothing but spaces, tabs and
//!   a comment gives no token, nor does the end of a line in brackets; a backslash joins two lines.
//!   Where a logical line begins, more spaces than the innermost open indentation give Indent, fewer
//!   give one Dedent for each that closes. Without an open one the margin serves. A tab in the leading
//!   spaces, and a count between the open indentations, are `BadIndent` at the line's first byte. The
//!   end of the source gives Newline to an open line, Dedent to each open indentation, and End.
//! - **Names** are a letter or `_` and then letters, digits and `_`.
//! - **Numbers** are decimal without a leading zero, or hexadecimal behind `0x`, or octal behind `0o`
//!   or `0`. One above 9223372036854775807, without digits, or directly followed by a letter, a digit,
//!   `_` or `.` is `BadNumber` at its first byte.
//! - **Strings** stand in single or tripled `'` or `"`, behind at most one of `r`, `R`, `b`, `B`. One
//!   that is not closed, in single quotes on its line, is `OpenString` at its first byte, its prefix
//!   counted. The escapes are `\\ \' \" \a \b \f \n \r \t \v`, one to three octal digits, `\x` and two
//!   hexadecimal digits, and a backslash before a newline, which stands for nothing. Any other keeps
//!   its backslash. Octal digits above 377, and `\x` without two digits, are `BadNumber` at the
//!   backslash. With `r` or `R` each byte stands for itself, and a quote directly behind an odd number
//!   of backslashes does not close.
//! - **Limits**, each at the token that passes it: 16 open brackets, 32 open indentations, and 64
//!   operators at one bracket level between two separators. Operators are the operator signs, `and`,
//!   `or`, `not`, `in`, `is`, the dot and the opening brackets; separators are `,`, `:`, `;`, the
//!   assignment signs, the end of a logical line, and the opening bracket of the level. A bracket
//!   that passes two limits passes that of the brackets. A closing bracket at depth zero changes
//!   nothing.
//!
//! Indent, Dedent and End have empty spans: Indent and Dedent at the first byte of the line's text or
//! at the end of the source, End at the end.
#![tactic(auto)]

mod bytes;
mod fault;
mod levels;
mod lines;
mod number;
mod piece;
mod place;
mod quoted;
mod scan;
mod stack;
mod token;
mod words;

pub use fault::{LimitKind, TokenFault};
pub use lines::line_of;
pub use scan::{one_reading, tokens};
pub use token::{Keyword, Sign, Token, TokenKind, Tokens};
