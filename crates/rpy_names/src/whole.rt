// Modules as a program.
ghost use Rattle.std.specs.Prelude.{◌≡◌, ◌≤◌, [], length, vec_capacity};
ghost use Rattle.rpy_names.specs.Build as build_spec;
ghost use Rattle.rpy_names.specs.Gives.{Gives};
ghost use Rattle.rpy_names.specs.Resolve as spec;

use crate::build::{Parts, build};
use crate::fault::{NameFault, NameRefusal};
use crate::move_in::{Room, make_room, move_in};
use rpy_base::{NoMem, Seq};
use rpy_nodes::Named;
use rpy_tree::Program;
use std::alloc::Global;

fn program(room: Room, modules: Seq<Named>, parts: Parts) -> Program
    requires names { room.names.items ≡ [] }
    requires modules { room.modules.items ≡ [] }
    requires room_for_names { length modules ≤ vec_capacity room.names }
    requires room_for_modules { length modules ≤ vec_capacity room.modules }
    ensures { result ≡ spec.program_with modules parts }
{
    let (names, all) = move_in(room, modules);
    let Parts {
        uses,
        functions,
        classes,
        sites,
        clauses,
        entry,
    } = parts;
    Program {
        names,
        modules: all,
        uses,
        functions,
        classes,
        sites,
        clauses,
        entry,
    }
}

// The program, once there is room for it.
fn moved(
    room: Result<Room, NoMem>,
    modules: Seq<Named>,
    parts: Parts,
) -> Result<Program, NameRefusal>
    requires { spec.IsRoom (length modules) room }
    ensures { spec.IsMoved modules parts result }
{
    match room {
        Err(NoMem) => Err(NameRefusal {
            fault: NameFault::NoMem,
            modules,
        }),
        Ok(room) => Ok(program(room, modules, parts)),
    }
}

/// The program that modules are, or why they are none. Where they are none, or memory fails, the
/// modules come back as they were.
pub fn resolve(alloc: Global, modules: Seq<Named>) -> Result<Program, NameRefusal>
    ensures { spec.IsResolved modules result }
{
    match build(alloc, modules.as_slice()) {
        Err(fault) => Err(NameRefusal { fault, modules }),
        Ok(parts) => {
            let room = make_room(alloc, modules.len());
            moved(room, modules, parts)
        }
    }
}
