// Where the fields of structs stand.
ghost use Rattle.std.specs.Prelude.{◌≡◌, ◌<◌, min, length, slice_get, slice_index_or, Option, Some, None, option_map, IfOk, IfSome, OnSome};
ghost use Rattle.std.specs.Option.{option_copied};
ghost use Rattle.csub_tree.specs.Layout.{Shape as ShapeOf, no_shape, shape_at as shape_in, shape_over, base_of, next_shape as shape_after, shapes_from, shapes_of as all_shapes, is_among as among, begins_with as begins, place as place_of};

use crate::val::Val;
use csub_tree::CStruct;
use rpy_base::NoMem;
use std::alloc::Global;
use std::marker::Model;

/// A struct: its fields, those of an inline base counted; the place of its own first field and that
/// field's number; and the structs that it begins with, itself first.
#[derive(Drop)]
pub struct Shape {
    size: u64,
    own: u64,
    first: u64,
    bases: Vec<u64>,
}

impl Model for Shape {
    ghost use Rattle.csub_tree.specs.Layout.{Shape as LaidOut};

    ghost Value = { LaidOut };

    ghost view = { λ s. record { size = s.size; own = s.own; first = s.first; bases = s.bases.items } };
}

impl Shape {
    fn without_base(alloc: Global, number: u64, fields: u64) -> Result<Shape, NoMem>
        ensures { IfOk result (λ shape. shape ≡ shape_over number fields None) }
    {
        let mut bases = Vec::new(alloc);
        bases.push(number)?;
        Ok(Shape {
            size: fields,
            own: 0,
            first: 0,
            bases,
        })
    }

    fn over(alloc: Global, number: u64, fields: u64, base: &Shape) -> Result<Shape, NoMem>
        ensures { IfOk result (λ shape. shape ≡ shape_over number fields (Some base.now)) }
    {
        let Some(size) = base.size.checked_add(fields) else {
            return Err(NoMem);
        };
        let mut bases = Vec::new(alloc);
        bases.push(number)?;
        bases.extend_from_slice(base.bases.as_slice())?;
        Ok(Shape {
            size,
            own: base.size,
            first: 1,
            bases,
        })
    }

    #[inline(always)]
    fn has_base(&self, number: u64) -> bool
        ensures { result ≡ among number (self.now).bases }
    {
        is_among(number, self.bases.as_slice())
    }

    fn size(&self) -> u64
        ensures { result ≡ (self.now).size }
    {
        self.size
    }

    // The place of a field, where a word can tell it.
    #[inline(always)]
    fn place_of(&self, k: u64) -> Option<u64>
        ensures { IfSome result (λ at. at ≡ place_of self.now k) }
    {
        self.own.checked_add(k.saturating_sub(self.first))
    }

    // The place of a field among these values, or behind them.
    #[inline(always)]
    fn place(&self, k: u64, values: &Vec<Val>) -> u64
        ensures { result ≡ min (place_of self.now k) (length values.now.items) }
    {
        let len = values.len() as u64;
        match self.own.checked_add(k.saturating_sub(self.first)) {
            Some(at) => at.min(len),
            None => len,
        }
    }
}

#[inline(always)]
fn is_among(number: u64, list: &[u64]) -> bool
    ensures { result ≡ among number list.now }
{
    for other in list {
        if *other == number {
            return true;
        }
    }
    false
}

// The shape of a struct that stands behind these.
fn next_shape(alloc: Global, shapes: &Vec<Shape>, structure: &CStruct) -> Result<Shape, NoMem>
    ensures { IfOk result (λ shape. shape ≡ shape_after shapes.now.items structure.now) }
{
    let number = shapes.len() as u64;
    let fields = structure.fields.len() as u64;
    let Some(base) = structure.base else {
        return Shape::without_base(alloc, number, fields);
    };
    match shapes.get(base as usize) {
        Some(shape) => Shape::over(alloc, number, fields, shape),
        None => {
            let nothing = Shape {
                size: 0,
                own: 0,
                first: 0,
                bases: Vec::new(alloc),
            };
            Shape::over(alloc, number, fields, &nothing)
        }
    }
}

pub fn shapes_of(alloc: Global, structs: &[CStruct]) -> Result<Vec<Shape>, NoMem>
    ensures { IfOk result (λ shapes. shapes.items ≡ all_shapes structs.now) }
{
    let mut shapes = Vec::new(alloc);
    for structure in structs {
        let shape = next_shape(alloc, &shapes, structure)?;
        shapes.push(shape)?;
    }
    Ok(shapes)
}

/// Whether a struct is this one, or begins with it.
#[inline(always)]
pub fn begins_with(shapes: &Vec<Shape>, kind: u64, number: u64) -> bool
    ensures { result ≡ begins shapes.now.items kind number }
{
    match shapes.get(kind as usize) {
        Some(shape) => shape.has_base(number),
        None => false,
    }
}

/// The fields of a struct, those of an inline base counted.
pub fn size_of(shapes: &Vec<Shape>, kind: u64) -> u64
    ensures { result ≡ (shape_in shapes.now.items kind).size }
{
    match shapes.get(kind as usize) {
        Some(shape) => shape.size(),
        None => 0,
    }
}

/// The place of a field of a struct among these values, or behind them.
#[inline(always)]
pub fn place(shapes: &Vec<Shape>, kind: u64, k: u64, values: &Vec<Val>) -> u64
    ensures { result ≡ min (place_of (shape_in shapes.now.items kind) k) (length values.now.items) }
{
    match shapes.get(kind as usize) {
        Some(shape) => shape.place(k, values),
        None => k.min(values.len() as u64),
    }
}

/// The place of a field of a struct, where there is one of this number and a word can tell it.
#[inline(always)]
pub fn place_in(shapes: &Vec<Shape>, kind: u64, k: u64) -> Option<u64>
    ensures is { IfSome result (λ at. at ≡ place_of (shape_in shapes.now.items kind) k) }
    ensures within { OnSome result (kind < length shapes.now.items) }
{
    match shapes.get(kind as usize) {
        Some(shape) => shape.place_of(k),
        None => None,
    }
}
