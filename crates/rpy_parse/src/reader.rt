// Modules, from their tokens.
ghost use Rattle.std.specs.Prelude.{◌≡◌, ℕ, List, IfOk, IfErr};
ghost use Rattle.rpy_parse.specs.Modules.{IsModule, IsDead, IsCause};
ghost use Rattle.rpy_token.specs.declared.token.Token.{Token};
ghost use Rattle.rpy_tree.specs.declared.syntax.Module.{Module};

use crate::cursor::Cursor;
use crate::fault::{ParseFault, Stop};
use crate::member::whole;
use rpy_token::Tokens;
use rpy_tree::Module;
use std::alloc::Global;

/// The module that tokens are, or the first token that no module goes on with.
#[tactic(auto, using(crate::proofs::Answered::whole_within, crate::proofs::Answered::whole_dead, crate::proofs::Answered::whole_all, crate::proofs::Answered::whole_left))]
pub fn parse(alloc: Global, tokens: &Tokens) -> Result<Module, ParseFault>
    ensures found { IfOk result (λ m. IsModule tokens.now m) }
    ensures dead { IfErr result (λ fault. IsCause tokens.now fault) }
{
    let mut cursor = Cursor::new(tokens.as_slice());
    match whole(alloc, &mut cursor) {
        Ok(module) => {
            if cursor.left() == 0 {
                Ok(module)
            } else {
                Err(ParseFault::Syntax(tokens.len() - cursor.left() as u32))
            }
        }
        Err(Stop::Dead(left)) => Err(ParseFault::Syntax(tokens.len() - left as u32)),
        Err(Stop::NoMem) => Err(ParseFault::NoMem),
    }
}

/// A list of tokens has at most one module, and none where a token of it is dead.
pub fn one_module()
    ensures one { (list : List Token) (a b : Module) → IsModule list a → IsModule list b → a ≡ b }
    ensures none { (list : List Token) (m : Module) (i : ℕ) → IsModule list m → IsDead list i → ⊥ }
{}
