// The bytes that are still to be read.
ghost use Rattle.std.specs.Prelude.{◌≡◌, ◌++◌, [], true, OnOk, IfSome, Option, not};
ghost use Rattle.csub_text.specs.Read.{stripped, begins};
ghost use Rattle.csub_text.specs.ReadFile.{sees_more};
ghost use Rattle.csub_reader.specs.Reads.{Strips, Same};

use crate::fault::Stop;
use std::marker::Model;

#[derive(Drop)]
pub struct Cursor<'a> {
    rest: &'a [u8],
}

impl<'a> Model for Cursor<'a> {
    ghost use Rattle.std.specs.Prelude.{List, ℕ};

    ghost Value = { List ℕ };

    ghost view = { λ c. c.rest.now };
}

// The bytes after this start.
#[tactic(auto, using(crate::proofs::Strip::strips_short))]
fn stripped<'a>(bytes: &'a [u8], start: &[u8]) -> Option<&'a [u8]>
    ensures spelled { IfSome result (λ rest. bytes.now ≡ start.now ++ rest.now) }
    ensures reads { Same (stripped start.now bytes.now) result }
{
    let mut rest = bytes;
    for p in start {
        let Some((b, after)) = rest.split_first() else {
            return None;
        };
        if *b != *p {
            return None;
        }
        rest = after;
    }
    Some(rest)
}

/// Whether the bytes begin with this start.
pub fn begins(bytes: &[u8], start: &[u8]) -> bool
    ensures { result ≡ begins start.now bytes.now }
{
    stripped(bytes, start).is_some()
}

impl<'a> Cursor<'a> {
    pub fn new(rest: &'a [u8]) -> Cursor<'a>
        ensures { result ≡ rest.now }
    {
        Cursor { rest }
    }

    pub fn rest(&self) -> &'a [u8]
        ensures { result.now ≡ self.now }
    {
        self.rest
    }

    pub fn is_at_end(&self) -> bool
        ensures nothing { result ≡ true → self.now ≡ [] }
        ensures reads { result ≡ not (sees_more self.now) }
    {
        match self.rest {
            [] => true,
            [_, ..] => false,
        }
    }

    /// Whether these bytes come next.
    pub fn sees(&self, start: &[u8]) -> bool
        ensures { result ≡ begins start.now self.now }
    {
        begins(self.rest, start)
    }

    /// Goes past these bytes, which have to come next. Where they do not, nothing is passed.
    pub fn expect(&mut self, start: &[u8]) -> Result<(), Stop>
        ensures spelled { OnOk result (self.old ≡ start.now ++ self.new) }
        ensures reads { Strips (stripped start.now self.old) result self.new }
    {
        match stripped(self.rest, start) {
            Some(rest) => {
                self.rest = rest;
                Ok(())
            }
            None => Err(Stop::NoText),
        }
    }
}
