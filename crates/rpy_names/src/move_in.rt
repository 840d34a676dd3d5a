// The modules move into the program.
ghost use Rattle.std.specs.Prelude.{◌≡◌, ◌≤◌, [], IfOk, length, vec_capacity};
ghost use Rattle.rpy_names.specs.Place.{modules_of, names_of};

use rpy_base::{NoMem, Seq, Text};
use rpy_nodes::Named;
use rpy_tree::Module;
use std::alloc::Global;

/// Room for the names and the modules of a program.
#[derive(Drop)]
pub struct Room {
    pub names: Vec<Text>,
    pub modules: Vec<Module>,
}

/// Room for so many.
pub fn make_room(alloc: Global, count: usize) -> Result<Room, NoMem>
    ensures names { IfOk result (λ room. room.names.items ≡ []) }
    ensures modules { IfOk result (λ room. room.modules.items ≡ []) }
    ensures room_for_names { IfOk result (λ room. vec_capacity room.names ≡ count) }
    ensures room_for_modules { IfOk result (λ room. vec_capacity room.modules ≡ count) }
{
    let names = Vec::with_capacity(alloc, count)?;
    let modules = Vec::with_capacity(alloc, count)?;
    Ok(Room { names, modules })
}

/// The names and the modules, in order.
#[tactic(auto, using(crate::proofs::Moves::names_turn, crate::proofs::Moves::modules_turn))]
pub fn move_in(room: Room, modules: Seq<Named>) -> (Seq<Text>, Seq<Module>)
    requires names { room.names.items ≡ [] }
    requires modules { room.modules.items ≡ [] }
    requires room_for_names { length modules ≤ vec_capacity room.names }
    requires room_for_modules { length modules ≤ vec_capacity room.modules }
    ensures names { result.0 ≡ names_of modules }
    ensures modules { result.1 ≡ modules_of modules }
{
    let Room {
        mut names,
        modules: mut all,
    } = room;
    let mut rest = modules;
    while let Some(Named { name, module }) = rest.pop() {
        names.push_reserved(name);
        all.push_reserved(module);
    }
    names.reverse();
    all.reverse();
    (Seq::from_vec(names), Seq::from_vec(all))
}
