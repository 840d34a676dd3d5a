// Functions and their parameters.
ghost use Rattle.std.specs.Prelude.{◌≡◌, ◌<◌, ◌≤◌, length, cond, IfOk, Ok};
ghost use Rattle.rpy_token.specs.declared.token.Sign.TheVariants as sign;
ghost use Rattle.rpy_parse.specs.Kind.{sign_kind};
ghost use Rattle.rpy_parse.specs.Input.{sees};
ghost use Rattle.rpy_parse.specs.Build as spec;
ghost use Rattle.rpy_parse.specs.Rule.{Reads, and_then, eat};
ghost use Rattle.rpy_parse.specs.Rows.{reading};
ghost use Rattle.rpy_parse.specs.Shapes as part;

use crate::ahead::begins_name;
use crate::cursor::Cursor;
use crate::expression::expression;
use crate::fault::Stop;
use crate::found::{Grown, Numbered, Params, Place};
use crate::grown::{default_param, function_of, no_params, plain_param, star_param};
use crate::node::numbered;
use crate::statement::block;
use rpy_base::{Seq, Text};
use rpy_token::{Keyword, Sign};
use rpy_tree::NodeId;
use std::alloc::Global;

#[tactic(auto, using(crate::proofs::UnrollRest::def_text_reads))]
pub fn def_text(alloc: Global, tokens: &mut Cursor<'_>, lines: Seq<u32>) -> Result<Grown, Stop>
    ensures reads { Reads (reading part.DefText lines tokens.old) result tokens.new }
    ensures shrinks { IfOk result (λ _. length tokens.new < length tokens.old) }
{
    let line = tokens.line();
    tokens.expect_word(Keyword::Def)?;
    let name = tokens.expect_name()?;
    let new = numbered(lines, line)?;
    def_params(alloc, tokens, new, name.copy(alloc)?)
}

#[tactic(auto, using(crate::proofs::UnrollRest::def_params_reads))]
fn def_params(
    alloc: Global,
    tokens: &mut Cursor<'_>,
    new: Numbered,
    name: Text,
) -> Result<Grown, Stop>
    ensures reads { Reads (reading part.DefParams (new, name) tokens.old) result tokens.new }
    ensures shrinks { IfOk result (λ _. length tokens.new < length tokens.old) }
{
    tokens.expect(Sign::OpenParen)?;
    let params = param_list(alloc, tokens, no_params(alloc, new.lines))?;
    def_body(alloc, tokens, new.node, name, params)
}

#[tactic(auto, using(crate::proofs::UnrollRest::def_body_reads, crate::proofs::UnrollRest::def_body_is))]
fn def_body(
    alloc: Global,
    tokens: &mut Cursor<'_>,
    node: NodeId,
    name: Text,
    params: Params,
) -> Result<Grown, Stop>
    ensures reads { Reads (reading part.DefBody (node, name, params) tokens.old) result tokens.new }
    ensures shrinks { IfOk result (λ _. length tokens.new < length tokens.old) }
{
    tokens.expect(Sign::CloseParen)?;
    tokens.expect(Sign::Colon)?;
    let body = block(alloc, tokens, outside(), params.lines)?;
    Ok(function_of(node, name, params.params, params.star, body))
}

#[tactic(auto, using(crate::proofs::UnrollRest::param_list_is, crate::proofs::UnrollRest::param_list_rest_is))]
fn param_list(alloc: Global, tokens: &mut Cursor<'_>, params: Params) -> Result<Params, Stop>
    ensures reads { Reads (reading part.ParamList params tokens.old) result tokens.new }
    ensures shrinks { IfOk result (λ _. length tokens.new ≤ length tokens.old) }
{
    let mut params = params;
    while begins_name(tokens.kind()) {
        params = one_param(alloc, tokens, params)?;
        if !tokens.eat(Sign::Comma) {
            return Ok(params);
        }
    }
    last_param(alloc, tokens, params)
}

/// The parameter behind a star, if there is one.
fn last_param(alloc: Global, tokens: &mut Cursor<'_>, params: Params) -> Result<Params, Stop>
    ensures reads { Reads (cond (sees (sign_kind sign.Star) tokens.old) (and_then (eat (sign_kind sign.Star) tokens.old) (λ t. reading part.StarParam (t.line, params))) (Ok (params, tokens.old))) result tokens.new }
    ensures shrinks { IfOk result (λ _. length tokens.new ≤ length tokens.old) }
{
    let line = tokens.line();
    if !tokens.eat(Sign::Star) {
        return Ok(params);
    }
    starred(alloc, tokens, line, params)
}

#[tactic(auto, using(crate::proofs::UnrollRest::one_param_reads))]
fn one_param(alloc: Global, tokens: &mut Cursor<'_>, params: Params) -> Result<Params, Stop>
    ensures reads { Reads (reading part.OneParam params tokens.old) result tokens.new }
    ensures shrinks { IfOk result (λ _. length tokens.new < length tokens.old) }
{
    let line = tokens.line();
    let name = tokens.expect_name()?;
    param_rest(alloc, tokens, params, line, name.copy(alloc)?)
}

#[tactic(auto, using(crate::proofs::UnrollRest::param_rest_reads, crate::proofs::UnrollRest::param_rest_is))]
fn param_rest(
    alloc: Global,
    tokens: &mut Cursor<'_>,
    params: Params,
    line: u32,
    name: Text,
) -> Result<Params, Stop>
    ensures reads { Reads (reading part.ParamRest (params, line, name) tokens.old) result tokens.new }
    ensures shrinks { IfOk result (λ _. length tokens.new ≤ length tokens.old) }
{
    if tokens.eat(Sign::Equal) {
        return param_value(alloc, tokens, params, line, name);
    }
    if params.defaults {
        return Err(tokens.refuse());
    }
    let new = numbered(params.lines, line)?;
    plain_param(params.params, params.star, new, name)
}

/// The default of a parameter.
fn param_value(
    alloc: Global,
    tokens: &mut Cursor<'_>,
    params: Params,
    line: u32,
    name: Text,
) -> Result<Params, Stop>
    ensures reads { Reads (and_then (reading part.Or (spec.more params.lines line) tokens.old) (λ a j. Ok (spec.default_param params.params params.star (length params.lines) name a, j))) result tokens.new }
    ensures shrinks { IfOk result (λ _. length tokens.new < length tokens.old) }
{
    let new = numbered(params.lines, line)?;
    let value = expression(alloc, tokens, new.lines)?;
    default_param(params.params, params.star, new.node, name, value)
}

#[tactic(auto, using(crate::proofs::UnrollRest::star_param_reads, crate::proofs::UnrollRest::star_param_is))]
fn starred(
    alloc: Global,
    tokens: &mut Cursor<'_>,
    line: u32,
    params: Params,
) -> Result<Params, Stop>
    ensures reads { Reads (reading part.StarParam (line, params) tokens.old) result tokens.new }
    ensures shrinks { IfOk result (λ _. length tokens.new < length tokens.old) }
{
    let name = tokens.expect_name()?;
    let new = star_param(params, line, name.copy(alloc)?)?;
    comma_maybe(tokens);
    Ok(new)
}

#[tactic(auto, using(crate::proofs::UnrollRest::comma_maybe_is, crate::proofs::OneToken::ate, crate::proofs::OneToken::seen_shorter))]
fn comma_maybe(tokens: &mut Cursor<'_>)
    ensures reads { reading part.CommaMaybe tt tokens.old ≡ Ok (tt, tokens.new) }
    ensures shrinks { length tokens.new ≤ length tokens.old }
{
    if tokens.sees(Sign::Comma) {
        tokens.advance();
    }
}

/// The body of a function stands in no loop and in no `finally`.
fn outside() -> Place
    ensures { result ≡ spec.outside }
{
    Place {
        looped: false,
        last: false,
    }
}
