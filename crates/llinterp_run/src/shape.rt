// Where the fields of structs stand.
use ll_code::LlStruct;
use rpy_base::NoMem;
use std::alloc::Global;

/// A struct: its fields, those of an inline base counted; the place of its own first field and that
/// field's number; and its base.
#[derive(Clone, Copy)]
pub struct Shape {
    size: u64,
    own: u64,
    first: u64,
    base: Option<u64>,
}

const NO_SHAPE: Shape = Shape {
    size: 0,
    own: 0,
    first: 0,
    base: None,
};

fn shape_at(shapes: &Vec<Shape>, kind: u64) -> Shape {
    match shapes.get(kind as usize) {
        Some(shape) => *shape,
        None => NO_SHAPE,
    }
}

// A struct with more fields than a u64 counts does not fit in memory.
fn next_shape(shapes: &Vec<Shape>, structure: &LlStruct) -> Result<Shape, NoMem> {
    let fields = structure.fields.len() as u64;
    let Some(base) = structure.base else {
        return Ok(Shape {
            size: fields,
            ..NO_SHAPE
        });
    };
    let own = shape_at(shapes, base).size;
    match own.checked_add(fields) {
        None => Err(NoMem),
        Some(size) => Ok(Shape {
            size,
            own,
            first: 1,
            base: structure.base,
        }),
    }
}

pub fn shapes_of(alloc: Global, structs: &[LlStruct]) -> Result<Vec<Shape>, NoMem> {
    let mut shapes = Vec::new(alloc);
    for structure in structs {
        let shape = next_shape(&shapes, structure)?;
        shapes.push(shape)?;
    }
    Ok(shapes)
}

/// Whether a struct is this one, or begins with it.
pub fn begins_with(shapes: &Vec<Shape>, kind: u64, number: u64) -> bool {
    let mut at = kind;
    for _ in 0..shapes.len() {
        if at == number {
            return true;
        }
        match shape_at(shapes, at).base {
            None => return false,
            Some(base) => at = base,
        }
    }
    false
}

/// The fields of a struct, those of an inline base counted.
pub fn size_of(shapes: &Vec<Shape>, kind: u64) -> u64 {
    shape_at(shapes, kind).size
}

/// The place of a field of a struct.
pub fn place(shapes: &Vec<Shape>, kind: u64, k: u64) -> u64 {
    let shape = shape_at(shapes, kind);
    shape.own.saturating_add(k.saturating_sub(shape.first))
}
