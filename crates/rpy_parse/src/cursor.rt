// The tokens that are still to be read.
ghost use Rattle.std.specs.Prelude.{◌≡◌, ◌<◌, ◌≤◌, length, IfOk, IsTrue, MatchResult, true, false};
ghost use Rattle.std.specs.Option.{option_copied};
ghost use Rattle.rpy_parse.specs.Input as spec;
ghost use Rattle.rpy_parse.specs.Kind.{sign_kind, word_kind, newline_kind, indent_kind, dedent_kind, end_kind};
ghost use Rattle.rpy_parse.specs.Rule.{Ate, Refused, eat};
ghost use Rattle.rpy_parse.specs.Build as build;

use crate::fault::Stop;
use rpy_base::Text;
use rpy_token::{Keyword, Sign, Token, TokenKind};
use std::marker::Model;

/// The tokens that are still to be read. Contracts see their list.
#[derive(Drop)]
pub struct Cursor<'a> {
    tokens: &'a [Token],
}

impl<'a> Model for Cursor<'a> {
    ghost use Rattle.std.specs.Prelude.{List};
    ghost use Rattle.rpy_token.specs.declared.token.Token.{Token};

    ghost Value = { List Token };

    ghost view = { λ c. c.tokens.now };
}

impl<'a> Cursor<'a> {
    pub fn new(tokens: &'a [Token]) -> Cursor<'a>
        ensures { result ≡ tokens.now }
    {
        Cursor { tokens }
    }

    pub fn left(&self) -> usize
        ensures { result ≡ length self.now }
    {
        self.tokens.len()
    }

    /// What the next token is.
    pub fn kind(&self) -> Option<&'a TokenKind>
        ensures { option_copied result ≡ spec.first_kind self.now }
    {
        match self.tokens.first() {
            Some(token) => Some(&token.kind),
            None => None,
        }
    }

    /// The line of the next token, and 0 at the end.
    pub fn line(&self) -> u32
        ensures { result ≡ (spec.here self.now).line }
    {
        match self.tokens.first() {
            Some(token) => token.line,
            None => 0,
        }
    }

    pub fn advance(&mut self)
        ensures { self.new ≡ spec.next self.old }
    {
        if let [_, rest @ ..] = self.tokens {
            self.tokens = rest;
        }
    }

    /// The fault where the next token cannot be read.
    pub fn refuse(&self) -> Stop
        ensures { result ≡ Stop.Dead (length self.now) }
    {
        Stop::Dead(self.tokens.len())
    }

    /// Whether a sign is next.
    #[tactic(auto, using(crate::proofs::OneToken::sees_sign))]
    pub fn sees(&self, sign: Sign) -> bool
        ensures { spec.sees (sign_kind sign) self.now ≡ result }
    {
        match self.kind() {
            Some(TokenKind::Name(_)) => false,
            Some(TokenKind::Int(_)) => false,
            Some(TokenKind::Str(_)) => false,
            Some(TokenKind::Word(_)) => false,
            Some(TokenKind::Sign(next)) => *next == sign,
            Some(TokenKind::Newline) => false,
            Some(TokenKind::Indent) => false,
            Some(TokenKind::Dedent) => false,
            Some(TokenKind::End) => false,
            None => false,
        }
    }

    #[tactic(auto, using(crate::proofs::OneToken::sees_word))]
    pub fn sees_word(&self, word: Keyword) -> bool
        ensures { spec.sees (word_kind word) self.now ≡ result }
    {
        match self.kind() {
            Some(TokenKind::Name(_)) => false,
            Some(TokenKind::Int(_)) => false,
            Some(TokenKind::Str(_)) => false,
            Some(TokenKind::Word(next)) => *next == word,
            Some(TokenKind::Sign(_)) => false,
            Some(TokenKind::Newline) => false,
            Some(TokenKind::Indent) => false,
            Some(TokenKind::Dedent) => false,
            Some(TokenKind::End) => false,
            None => false,
        }
    }

    #[tactic(auto, using(crate::proofs::OneToken::sees_newline))]
    pub fn sees_newline(&self) -> bool
        ensures { spec.sees (newline_kind) self.now ≡ result }
    {
        match self.kind() {
            Some(TokenKind::Name(_)) => false,
            Some(TokenKind::Int(_)) => false,
            Some(TokenKind::Str(_)) => false,
            Some(TokenKind::Word(_)) => false,
            Some(TokenKind::Sign(_)) => false,
            Some(TokenKind::Newline) => true,
            Some(TokenKind::Indent) => false,
            Some(TokenKind::Dedent) => false,
            Some(TokenKind::End) => false,
            None => false,
        }
    }

    #[tactic(auto, using(crate::proofs::OneToken::sees_indent))]
    pub fn sees_indent(&self) -> bool
        ensures { spec.sees (indent_kind) self.now ≡ result }
    {
        match self.kind() {
            Some(TokenKind::Name(_)) => false,
            Some(TokenKind::Int(_)) => false,
            Some(TokenKind::Str(_)) => false,
            Some(TokenKind::Word(_)) => false,
            Some(TokenKind::Sign(_)) => false,
            Some(TokenKind::Newline) => false,
            Some(TokenKind::Indent) => true,
            Some(TokenKind::Dedent) => false,
            Some(TokenKind::End) => false,
            None => false,
        }
    }

    #[tactic(auto, using(crate::proofs::OneToken::sees_dedent))]
    pub fn sees_dedent(&self) -> bool
        ensures { spec.sees (dedent_kind) self.now ≡ result }
    {
        match self.kind() {
            Some(TokenKind::Name(_)) => false,
            Some(TokenKind::Int(_)) => false,
            Some(TokenKind::Str(_)) => false,
            Some(TokenKind::Word(_)) => false,
            Some(TokenKind::Sign(_)) => false,
            Some(TokenKind::Newline) => false,
            Some(TokenKind::Indent) => false,
            Some(TokenKind::Dedent) => true,
            Some(TokenKind::End) => false,
            None => false,
        }
    }

    #[tactic(auto, using(crate::proofs::OneToken::sees_end))]
    pub fn sees_end(&self) -> bool
        ensures { spec.sees (end_kind) self.now ≡ result }
    {
        match self.kind() {
            Some(TokenKind::Name(_)) => false,
            Some(TokenKind::Int(_)) => false,
            Some(TokenKind::Str(_)) => false,
            Some(TokenKind::Word(_)) => false,
            Some(TokenKind::Sign(_)) => false,
            Some(TokenKind::Newline) => false,
            Some(TokenKind::Indent) => false,
            Some(TokenKind::Dedent) => false,
            Some(TokenKind::End) => true,
            None => false,
        }
    }

    /// Reads a sign, if it is next.
    #[tactic(auto, using(crate::proofs::OneToken::ate, crate::proofs::OneToken::seen_shorter))]
    pub fn eat(&mut self, sign: Sign) -> bool
        ensures seen { spec.sees (sign_kind sign) self.old ≡ result }
        ensures rest { Ate (sign_kind sign) result self.old self.new }
        ensures shorter { IsTrue result → length self.new < length self.old }
        ensures longer { length self.new ≤ length self.old }
    {
        let seen = self.sees(sign);
        if seen {
            self.advance();
        }
        seen
    }

    #[tactic(auto, using(crate::proofs::OneToken::ate, crate::proofs::OneToken::seen_shorter))]
    pub fn eat_word(&mut self, word: Keyword) -> bool
        ensures seen { spec.sees (word_kind word) self.old ≡ result }
        ensures rest { Ate (word_kind word) result self.old self.new }
        ensures shorter { IsTrue result → length self.new < length self.old }
        ensures longer { length self.new ≤ length self.old }
    {
        let seen = self.sees_word(word);
        if seen {
            self.advance();
        }
        seen
    }

    #[tactic(auto, using(crate::proofs::OneToken::ate, crate::proofs::OneToken::seen_shorter))]
    pub fn eat_newline(&mut self) -> bool
        ensures seen { spec.sees (newline_kind) self.old ≡ result }
        ensures rest { Ate (newline_kind) result self.old self.new }
        ensures shorter { IsTrue result → length self.new < length self.old }
        ensures longer { length self.new ≤ length self.old }
    {
        let seen = self.sees_newline();
        if seen {
            self.advance();
        }
        seen
    }

    #[tactic(auto, using(crate::proofs::OneToken::ate, crate::proofs::OneToken::seen_shorter))]
    pub fn eat_indent(&mut self) -> bool
        ensures seen { spec.sees (indent_kind) self.old ≡ result }
        ensures rest { Ate (indent_kind) result self.old self.new }
        ensures shorter { IsTrue result → length self.new < length self.old }
        ensures longer { length self.new ≤ length self.old }
    {
        let seen = self.sees_indent();
        if seen {
            self.advance();
        }
        seen
    }

    #[tactic(auto, using(crate::proofs::OneToken::ate, crate::proofs::OneToken::seen_shorter))]
    pub fn eat_dedent(&mut self) -> bool
        ensures seen { spec.sees (dedent_kind) self.old ≡ result }
        ensures rest { Ate (dedent_kind) result self.old self.new }
        ensures shorter { IsTrue result → length self.new < length self.old }
        ensures longer { length self.new ≤ length self.old }
    {
        let seen = self.sees_dedent();
        if seen {
            self.advance();
        }
        seen
    }

    #[tactic(auto, using(crate::proofs::OneToken::ate, crate::proofs::OneToken::seen_shorter))]
    pub fn eat_end(&mut self) -> bool
        ensures seen { spec.sees (end_kind) self.old ≡ result }
        ensures rest { Ate (end_kind) result self.old self.new }
        ensures shorter { IsTrue result → length self.new < length self.old }
        ensures longer { length self.new ≤ length self.old }
    {
        let seen = self.sees_end();
        if seen {
            self.advance();
        }
        seen
    }

    #[tactic(auto, using(crate::proofs::OneToken::refused))]
    pub fn expect(&mut self, sign: Sign) -> Result<(), Stop>
        ensures reads { MatchResult result (λ _. eat (sign_kind sign) self.old ≡ Ok (spec.here self.old, self.new)) (λ e. Refused (sign_kind sign) e self.old) }
        ensures shrinks { IfOk result (λ _. length self.new < length self.old) }
    {
        if self.eat(sign) {
            Ok(())
        } else {
            Err(self.refuse())
        }
    }

    #[tactic(auto, using(crate::proofs::OneToken::refused))]
    pub fn expect_word(&mut self, word: Keyword) -> Result<(), Stop>
        ensures reads { MatchResult result (λ _. eat (word_kind word) self.old ≡ Ok (spec.here self.old, self.new)) (λ e. Refused (word_kind word) e self.old) }
        ensures shrinks { IfOk result (λ _. length self.new < length self.old) }
    {
        if self.eat_word(word) {
            Ok(())
        } else {
            Err(self.refuse())
        }
    }

    #[tactic(auto, using(crate::proofs::OneToken::refused))]
    pub fn expect_newline(&mut self) -> Result<(), Stop>
        ensures reads { MatchResult result (λ _. eat (newline_kind) self.old ≡ Ok (spec.here self.old, self.new)) (λ e. Refused (newline_kind) e self.old) }
        ensures shrinks { IfOk result (λ _. length self.new < length self.old) }
    {
        if self.eat_newline() {
            Ok(())
        } else {
            Err(self.refuse())
        }
    }

    #[tactic(auto, using(crate::proofs::OneToken::refused))]
    pub fn expect_indent(&mut self) -> Result<(), Stop>
        ensures reads { MatchResult result (λ _. eat (indent_kind) self.old ≡ Ok (spec.here self.old, self.new)) (λ e. Refused (indent_kind) e self.old) }
        ensures shrinks { IfOk result (λ _. length self.new < length self.old) }
    {
        if self.eat_indent() {
            Ok(())
        } else {
            Err(self.refuse())
        }
    }

    #[tactic(auto, using(crate::proofs::OneToken::eat_string, crate::proofs::OneToken::string_shorter))]
    pub fn expect_string(&mut self) -> Result<(), Stop>
        ensures reads { MatchResult result (λ _. eat 2 self.old ≡ Ok (spec.here self.old, self.new)) (λ e. Refused 2 e self.old) }
        ensures shrinks { IfOk result (λ _. length self.new < length self.old) }
    {
        match self.kind() {
            Some(TokenKind::Str(_)) => {
                self.advance();
                Ok(())
            }
            _ => Err(self.refuse()),
        }
    }

    /// The text of a name that has to be next.
    #[tactic(auto, using(crate::proofs::OneToken::eat_name, crate::proofs::OneToken::name_shorter, crate::proofs::OneToken::name_here))]
    pub fn expect_name(&mut self) -> Result<&'a Text, Stop>
        ensures reads { MatchResult result (λ x. (eat 0 self.old ≡ Ok (spec.here self.old, self.new)) × (x.now ≡ build.text (spec.here self.old))) (λ e. Refused 0 e self.old) }
        ensures shrinks { IfOk result (λ _. length self.new < length self.old) }
    {
        match self.kind() {
            Some(TokenKind::Name(name)) => {
                self.advance();
                Ok(name)
            }
            _ => Err(self.refuse()),
        }
    }
}
