// The graphs of lists.
ghost use Rattle.std.specs.Prelude.{◌≡◌, IfOk};
ghost use Rattle.rtyper_data.specs.Seen.{Asks};
ghost use Rattle.list_helpers.specs.Listing as spec;

use list_loops::{
    append, but_last, concat, contains, copy_items, extend, insert, make, move_up, place, remove,
    repeat, reverse, room, slice, truth,
};
use list_shape::shape_of;
use list_texts::{arguments, join, part, split};
use ll_code::LlGraph;
use rpy_base::NoMem;
use rpy_tree::ClassId;
use rtyper_data::{Found, Listed, failing};
use rtyper_layout::Layout;
use std::alloc::Global;

const INDEX_ERROR: ClassId = 6;

// A list or a string that is made of others.
fn made(alloc: Global, layout: &Layout, listed: Listed, found: &mut Found) -> Result<LlGraph, NoMem>
    ensures { IfOk result (λ made. Asks (spec.made layout.now listed found.old) made found.new) }
{
    match listed {
        Listed::Concat(l, m, r) => concat(
            alloc,
            shape_of(layout, l),
            shape_of(layout, m),
            shape_of(layout, r),
            found,
        ),
        Listed::Repeat(l, r) => repeat(alloc, shape_of(layout, l), shape_of(layout, r), found),
        Listed::Slice(l, r) => slice(alloc, shape_of(layout, l), shape_of(layout, r), found),
        Listed::ButLast(l, r) => but_last(alloc, shape_of(layout, l), shape_of(layout, r), found),
        Listed::Arguments(l) => arguments(alloc, shape_of(layout, l), found),
        Listed::Join(l) => join(alloc, layout, shape_of(layout, l), found),
        Listed::Split(l) => split(alloc, shape_of(layout, l), found),
        Listed::Make(l) => make(alloc, shape_of(layout, l)),
        _ => part(alloc, found),
    }
}

/// The graph that is asked for.
pub fn list_graph(
    alloc: Global,
    layout: &Layout,
    listed: Listed,
    found: &mut Found,
) -> Result<LlGraph, NoMem>
    ensures { IfOk result (λ made. Asks (spec.list_graph layout.now listed found.old) made found.new) }
{
    match listed {
        Listed::Place(l, raises) => {
            let outside = failing(alloc, 1, INDEX_ERROR, raises, found)?;
            place(alloc, shape_of(layout, l), outside)
        }
        Listed::Truth(l) => truth(alloc, shape_of(layout, l)),
        Listed::Remove(l) => remove(alloc, shape_of(layout, l), found),
        Listed::Copy(a, b) => copy_items(alloc, layout, a, b, found),
        Listed::MoveUp(a) => move_up(alloc, layout, a),
        Listed::Room(l) => room(alloc, shape_of(layout, l), found),
        Listed::Append(l) => append(alloc, shape_of(layout, l), found),
        Listed::Insert(l) => insert(alloc, shape_of(layout, l), found),
        Listed::Extend(l, m) => extend(alloc, shape_of(layout, l), shape_of(layout, m), found),
        Listed::Reverse(l) => reverse(alloc, shape_of(layout, l)),
        Listed::Contains(kind, l) => contains(alloc, layout, kind, shape_of(layout, l), found),
        _ => made(alloc, layout, listed, found),
    }
}
