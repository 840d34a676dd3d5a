// The structs of a program.
ghost use Rattle.std.specs.Prelude.{◌≡◌, ◌++◌, ◌∷◌, [], length, slice_get, IfOk, OnOk};
ghost use Rattle.std.specs.Option.{option_copied};
ghost use Rattle.class_desc.specs.Line as line;
ghost use Rattle.rtyper_layout.specs.Families as family;
ghost use Rattle.rtyper_layout.specs.Layout as spec;
ghost use Rattle.rtyper_layout.specs.Sites as met;
ghost use Rattle.rtyper_layout.specs.Types as types;

use crate::classes::{
    Laid, laid_classes, laid_in, laid_order, method_names, push_class_structs, vtable_struct,
};
use crate::dicts::{Mapping, array, push_dict, push_mapping, type_of};
use crate::shapes::{
    push_all_shapes, push_all_sites, push_attribute_shapes, push_attribute_sites, push_shapes_in,
    push_sites_in,
};
use ann_element::Annotation;
use class_desc::Classes;
use ll_code::{LlStruct, LlType};
use rpy_base::{NoMem, Seq, Text};
use rpy_resolved::Resolved;
use rpy_tree::{ClassId, SiteId};
use std::alloc::Global;

/// The structs of a program: struct 0 is that of strings; then come those of vtables, one for each
/// family of classes, those of the classes, two for the lists of each class of sites, from `first_list` on,
/// that of the list and that of its array, three for the dicts of each class of sites, from `first_dict` on,
/// and one for each shape of tuples, from `first_tuple` on.
/// For each class its structs, where it has some; the classes that have, each behind its base; and
/// for each vtable the names of its methods.
#[derive(Drop)]
pub struct Layout {
    pub structs: Seq<LlStruct>,
    pub classes: Seq<Option<Laid>>,
    pub order: Seq<ClassId>,
    pub methods: Seq<Seq<Text>>,
    pub first_list: u64,
    pub lists: Seq<SiteId>,
    pub first_dict: u64,
    pub dicts: Seq<SiteId>,
    pub mappings: Seq<Mapping>,
    pub first_tuple: u64,
    pub shapes: Seq<Seq<LlType>>,
}

fn texts(alloc: Global) -> Result<LlStruct, NoMem>
    ensures { IfOk result (λ s. s ≡ spec.texts) }
{
    array(alloc, LlType::Char)
}

fn push_names_if_top(
    alloc: Global,
    program: &Resolved,
    classes: &Classes,
    order: &[ClassId],
    class: ClassId,
    methods: &mut Seq<Seq<Text>>,
) -> Result<(), NoMem>
    ensures { OnOk result (methods.new ≡ methods.old ++ family.names_if_top classes.now.classes program.now.classes order.now class (line.base classes.now.classes class)) }
{
    match classes.base(class) {
        None => methods.push(method_names(alloc, program, classes, order, class)?),
        Some(_) => Ok(()),
    }
}

// The names of the methods of each family.
fn all_methods(
    alloc: Global,
    program: &Resolved,
    classes: &Classes,
    order: &[ClassId],
) -> Result<Seq<Seq<Text>>, NoMem>
    ensures { IfOk result (λ methods. methods ≡ spec.vtables classes.now.classes program.now order.now) }
{
    let mut methods = Seq::new(alloc);
    for class in order {
        push_names_if_top(alloc, program, classes, order, *class, &mut methods)?;
    }
    Ok(methods)
}

fn push_vtables(
    alloc: Global,
    methods: &[Seq<Text>],
    structs: &mut Seq<LlStruct>,
) -> Result<(), NoMem>
    ensures { OnOk result (structs.new ≡ structs.old ++ spec.vtable_structs methods.now) }
{
    for names in methods {
        structs.push(vtable_struct(alloc, names.len())?)?;
    }
    Ok(())
}

fn copy_types(alloc: Global, shape: &[LlType]) -> Result<Seq<LlType>, NoMem>
    ensures { IfOk result (λ types. types ≡ shape.now) }
{
    let mut types = Seq::new(alloc);
    for each in shape {
        types.push(*each)?;
    }
    Ok(types)
}

fn push_tuple(alloc: Global, shape: &[LlType], structs: &mut Seq<LlStruct>) -> Result<(), NoMem>
    ensures { OnOk result (structs.new ≡ structs.old ++ spec.tuple_struct shape.now ∷ []) }
{
    let fields = copy_types(alloc, shape)?;
    structs.push(LlStruct {
        base: None,
        fields,
        items: None,
    })
}

fn push_tuples(
    alloc: Global,
    shapes: &[Seq<LlType>],
    structs: &mut Seq<LlStruct>,
) -> Result<(), NoMem>
    ensures { OnOk result (structs.new ≡ structs.old ++ spec.all_tuples shapes.now) }
{
    for shape in shapes {
        push_tuple(alloc, shape.as_slice(), structs)?;
    }
    Ok(())
}

// The classes, and no shapes and structs yet.
fn with_classes(
    alloc: Global,
    program: &Resolved,
    classes: &Classes,
    made: &[bool],
    raises: bool,
) -> Result<Layout, NoMem>
    ensures { IfOk result (λ layout. layout ≡ spec.with_classes program.now classes.now.classes made.now raises) }
{
    let order = laid_order(alloc, classes, made, raises)?;
    let methods = all_methods(alloc, program, classes, order.as_slice())?;
    let laid = laid_classes(alloc, classes, order.as_slice())?;
    let before = methods.len() as u64;
    let first_list = before.saturating_add(order.len() as u64).saturating_add(1);
    Ok(Layout {
        structs: Seq::new(alloc),
        classes: laid,
        order,
        methods,
        first_list,
        lists: Seq::new(alloc),
        first_dict: first_list,
        dicts: Seq::new(alloc),
        mappings: Seq::new(alloc),
        first_tuple: first_list,
        shapes: Seq::new(alloc),
    })
}

// The sites of all lists, or of all dicts, behind these.
fn push_all(annotation: &Annotation, of_dicts: bool, sites: &mut Seq<SiteId>) -> Result<(), NoMem>
    ensures { OnOk result (sites.new ≡ met.all_sites of_dicts sites.old annotation.now) }
{
    push_all_sites(annotation.params.as_slice(), of_dicts, sites)?;
    push_sites_in(annotation.results.as_slice(), of_dicts, sites)?;
    push_all_sites(annotation.vars.as_slice(), of_dicts, sites)?;
    push_attribute_sites(annotation.attributes.as_slice(), of_dicts, sites)?;
    push_sites_in(annotation.items.as_slice(), of_dicts, sites)?;
    push_sites_in(annotation.keys.as_slice(), of_dicts, sites)
}

// The sites of all lists. The arguments of the program are site 0.
fn list_sites(alloc: Global, annotation: &Annotation) -> Result<Seq<SiteId>, NoMem>
    ensures { IfOk result (λ sites. sites ≡ met.lists annotation.now) }
{
    let mut sites = Seq::new(alloc);
    sites.push(0)?;
    push_all(annotation, false, &mut sites)?;
    Ok(sites)
}

fn dict_sites(alloc: Global, annotation: &Annotation) -> Result<Seq<SiteId>, NoMem>
    ensures { IfOk result (λ sites. sites ≡ met.dicts annotation.now) }
{
    let mut sites = Seq::new(alloc);
    push_all(annotation, true, &mut sites)?;
    Ok(sites)
}

// The lists and dicts, whose structs have their numbers then.
fn lay_sites(alloc: Global, annotation: &Annotation, layout: &mut Layout) -> Result<(), NoMem>
    ensures { OnOk result (layout.new ≡ spec.with_sites annotation.now layout.old) }
{
    layout.lists = list_sites(alloc, annotation)?;
    let lists = (layout.lists.len() as u64).saturating_mul(2);
    layout.first_dict = layout.first_list.saturating_add(lists);
    layout.dicts = dict_sites(alloc, annotation)?;
    let dicts = (layout.dicts.len() as u64).saturating_mul(3);
    layout.first_tuple = layout.first_dict.saturating_add(dicts);
    Ok(())
}

// The dicts, with the types of their keys and values.
fn mappings_of(
    alloc: Global,
    annotation: &Annotation,
    layout: &Layout,
) -> Result<Seq<Mapping>, NoMem>
    ensures { IfOk result (λ mappings. mappings ≡ spec.mappings_from layout.now annotation.now layout.now.first_dict layout.now.dicts) }
{
    let mut mappings = Seq::new(alloc);
    let mut dict = layout.first_dict;
    for site in layout.dicts.as_slice() {
        push_mapping(annotation, layout, *site, dict, &mut mappings)?;
        dict = dict.saturating_add(3);
    }
    Ok(mappings)
}

fn push_dicts(alloc: Global, mappings: &[Mapping], structs: &mut Seq<LlStruct>) -> Result<(), NoMem>
    ensures { OnOk result (structs.new ≡ structs.old ++ spec.all_dicts mappings.now) }
{
    for mapping in mappings {
        push_dict(alloc, *mapping, structs)?;
    }
    Ok(())
}

// The array is the next struct.
fn push_list(alloc: Global, item: LlType, structs: &mut Seq<LlStruct>) -> Result<(), NoMem>
    ensures { OnOk result (structs.new ≡ structs.old ++ spec.list_structs (length structs.old) item) }
{
    let next = (structs.len() as u64).saturating_add(1);
    let mut fields = Seq::new(alloc);
    fields.push(LlType::Signed)?;
    fields.push(LlType::Ptr(next))?;
    structs.push(LlStruct {
        base: None,
        fields,
        items: None,
    })?;
    structs.push(array(alloc, item)?)
}

fn push_lists(
    alloc: Global,
    layout: &Layout,
    annotation: &Annotation,
    structs: &mut Seq<LlStruct>,
) -> Result<(), NoMem>
    ensures { OnOk result (structs.new ≡ structs.old ++ spec.all_lists layout.now annotation.now (length structs.old) layout.now.lists) }
{
    for site in layout.lists.as_slice() {
        let item = type_of(layout, annotation.items.get(*site as usize));
        push_list(alloc, item, structs)?;
    }
    Ok(())
}

fn push_shapes_of(alloc: Global, annotation: &Annotation, layout: &mut Layout) -> Result<(), NoMem>
    ensures { OnOk result (layout.new ≡ met.all_shapes layout.old annotation.now) }
{
    push_all_shapes(alloc, annotation.params.as_slice(), layout)?;
    push_shapes_in(alloc, annotation.results.as_slice(), layout)?;
    push_all_shapes(alloc, annotation.vars.as_slice(), layout)?;
    push_attribute_shapes(alloc, annotation.attributes.as_slice(), layout)?;
    push_shapes_in(alloc, annotation.items.as_slice(), layout)?;
    push_shapes_in(alloc, annotation.keys.as_slice(), layout)
}

fn before_lists(
    alloc: Global,
    layout: &Layout,
    classes: &Classes,
    annotation: &Annotation,
) -> Result<Seq<LlStruct>, NoMem>
    ensures { IfOk result (λ structs. structs ≡ spec.before_lists layout.now classes.now.classes annotation.now) }
{
    let mut structs = Seq::new(alloc);
    structs.push(texts(alloc)?)?;
    push_vtables(alloc, layout.methods.as_slice(), &mut structs)?;
    let order = layout.order.as_slice();
    push_class_structs(alloc, layout, classes, annotation, order, &mut structs)?;
    Ok(structs)
}

fn structs_of(
    alloc: Global,
    layout: &Layout,
    classes: &Classes,
    annotation: &Annotation,
) -> Result<Seq<LlStruct>, NoMem>
    ensures { IfOk result (λ structs. structs ≡ spec.structs_of layout.now classes.now.classes annotation.now) }
{
    let mut structs = before_lists(alloc, layout, classes, annotation)?;
    push_lists(alloc, layout, annotation, &mut structs)?;
    push_dicts(alloc, layout.mappings.as_slice(), &mut structs)?;
    push_tuples(alloc, layout.shapes.as_slice(), &mut structs)?;
    Ok(structs)
}

fn mapping_at(mappings: &[Mapping], number: u64) -> Option<Mapping>
    ensures { result ≡ spec.mapping_at mappings.now number }
{
    for mapping in mappings {
        if mapping.dict == number {
            return Some(*mapping);
        }
    }
    None
}

impl Layout {
    /// The structs of the values of an annotation, those of exceptions among them where the program
    /// raises some.
    pub fn new(
        alloc: Global,
        program: &Resolved,
        classes: &Classes,
        annotation: &Annotation,
        raises: bool,
    ) -> Result<Layout, NoMem>
        ensures { IfOk result (λ layout. layout ≡ spec.layout_of program.now classes.now.classes annotation.now raises) }
    {
        let made = annotation.made.as_slice();
        let mut layout = with_classes(alloc, program, classes, made, raises)?;
        lay_sites(alloc, annotation, &mut layout)?;
        push_shapes_of(alloc, annotation, &mut layout)?;
        let mappings = mappings_of(alloc, annotation, &layout)?;
        layout.mappings = mappings;
        let structs = structs_of(alloc, &layout, classes, annotation)?;
        layout.structs = structs;
        Ok(layout)
    }

    /// The structs of a class, where it has some.
    pub fn laid(&self, class: ClassId) -> Option<Laid>
        ensures { result ≡ types.laid_in self.now.classes class }
    {
        laid_in(self.classes.as_slice(), class)
    }

    /// Whether a struct is that of tuples.
    pub fn is_tuple(&self, number: u64) -> bool
        ensures { result ≡ spec.is_tuple self.now number }
    {
        self.first_tuple <= number && number - self.first_tuple < self.shapes.len() as u64
    }

    /// Whether a struct is that of lists.
    pub fn is_list(&self, number: u64) -> bool
        ensures { result ≡ spec.is_list self.now number }
    {
        if number < self.first_list {
            return false;
        }
        let past = number - self.first_list;
        past % 2 == 0 && past / 2 < self.lists.len() as u64
    }

    /// The dict whose struct this is.
    pub fn mapping(&self, number: u64) -> Option<Mapping>
        ensures { result ≡ spec.mapping_at self.now.mappings number }
    {
        mapping_at(self.mappings.as_slice(), number)
    }

    /// The types of the fields of a struct, those of its base aside.
    pub fn fields(&self, number: u64) -> &[LlType]
        ensures { result.now ≡ spec.fields_in (slice_get self.now.structs number) }
    {
        match self.structs.get(number as usize) {
            None => &[],
            Some(each) => each.fields.as_slice(),
        }
    }
}
