// Places and lines of a source.
ghost use Rattle.std.specs.Prelude.{◌≡◌, ◌≤◌, ◌+◌, ◌==◌, length, count_by, take};
ghost use Rattle.rpy_token.specs.Lines as spec;

use rpy_base::Text;
use std::marker::Model;

fn newlines(bytes: &[u8]) -> usize
    ensures { result ≡ count_by (λ b. b == 10) bytes.now }
{
    bytes.iter().filter(|b| **b == b'\n').count()
}

/// The line of a place, counted from 1: one more than the newlines before it.
#[tactic(auto, using(crate::proofs::LinesLemmas::newlines_bound))]
pub fn line_of(source: &Text, at: u32) -> u32
    requires { length source.now ≤ 1048576 }
    ensures { result ≡ spec.line_of source.now at }
{
    let bytes = source.bytes();
    let before = &bytes[..bytes.len().min(at as usize)];
    1 + newlines(before) as u32
}

/// A place in a source, with its line.
#[derive(Drop)]
pub struct Place<'a> {
    source: &'a [u8],
    at: u32,
    line: u32,
}

impl<'a> Model for Place<'a> {
    ghost use Rattle.std.specs.Prelude.{◌≡◌, ◌≤◌, length};
    ghost use Rattle.rpy_token.specs.Lines.{Spot, line_of};

    ghost Value = { Spot };

    ghost view = { λ p. record { source = p.source.now; at = p.at } };

    ghost invariant = { λ p. (p.at ≤ length p.source.now)
        × (length p.source.now ≤ 1048576)
        × (p.line ≡ line_of p.source.now p.at) };
}

impl<'a> Place<'a> {
    pub fn new(source: &'a [u8]) -> Place<'a>
        requires { length source.now ≤ 1048576 }
        ensures { result ≡ record { source = source.entry.now; at = 0 } }
    {
        Place {
            source,
            at: 0,
            line: 1,
        }
    }

    pub fn size(&self) -> u32
        ensures { result ≡ spec.size_at self.now }
    {
        self.source.len() as u32
    }

    pub fn at(&self) -> u32
        ensures value { result ≡ self.now.at }
        ensures within { result + length (spec.rest_at self.now) ≤ 1048576 }
    {
        self.at
    }

    pub fn line(&self) -> u32
        ensures { result ≡ spec.line_at self.now }
    {
        self.line
    }

    /// The bytes from the place on.
    pub fn rest(&self) -> &'a [u8]
        ensures { result.now ≡ spec.rest_at self.now }
    {
        &self.source[self.at as usize..]
    }

    /// So many bytes further on.
    #[tactic(auto, using(crate::proofs::LinesLemmas::newlines_bound, crate::proofs::LinesLemmas::newlines_more))]
    pub fn skip(&mut self, n: usize)
        requires { n ≤ length (spec.rest_at self.old) }
        ensures { self.new ≡ spec.skip n self.old }
    {
        let passed = newlines(&self.rest()[..n]);
        self.at += n as u32;
        self.line += passed as u32;
    }
}
