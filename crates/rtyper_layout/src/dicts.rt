// The structs of dicts. A dict is three blocks: the number of its entries, the number of places for them and two
// pointers; and the two arrays. The entries stand in order of insertion.
ghost use Rattle.std.specs.Prelude.{◌≡◌, ◌∷◌, ◌++◌, [], IfOk, OnOk, slice_get};
ghost use Rattle.std.specs.Option.{option_copied};
ghost use Rattle.rtyper_layout.specs.Dicts as spec;

use crate::layout::Layout;
use crate::shapes::{field_type, repr};
use ann_element::{Annotation, Element};
use ll_code::{LlStruct, LlType};
use rpy_base::{NoMem, Seq};
use rpy_tree::SiteId;
use std::alloc::Global;

/// A dict: its struct, which those of its two arrays follow, and the types of its keys and values.
///
/// Where the keys are words, bools or chars, the first array holds the values and the second the keys, as words.
/// Else the first one holds the keys and the second the values, as words where they are words, bools or chars.
/// An array of words holds the index before them.
#[derive(Clone, Copy, Debug, PartialEq, Eq)]
pub struct Mapping {
    pub dict: u64,
    pub key: LlType,
    pub value: LlType,
}

// Whether such values may stand as words.
fn is_plain(kind: LlType) -> bool
    ensures { result ≡ spec.is_plain kind }
{
    match kind {
        LlType::Signed | LlType::Char | LlType::Bool => true,
        LlType::Void | LlType::Fn | LlType::Ptr(_) => false,
    }
}

impl Mapping {
    /// The struct of the first array.
    pub fn first(self) -> u64
        ensures { result ≡ spec.first self }
    {
        self.dict.saturating_add(1)
    }

    /// The struct of the second array.
    pub fn second(self) -> u64
        ensures { result ≡ spec.second self }
    {
        self.dict.saturating_add(2)
    }

    /// Whether the second array holds the keys.
    pub fn keys_last(self) -> bool
        ensures { result ≡ spec.keys_last self }
    {
        is_plain(self.key)
    }

    /// Whether there is an index.
    pub fn is_indexed(self) -> bool
        ensures { result ≡ spec.is_indexed self }
    {
        is_plain(self.key) || is_plain(self.value)
    }

    /// The type of the keys in their array.
    pub fn stored_key(self) -> LlType
        ensures { result ≡ spec.stored_key self }
    {
        if is_plain(self.key) {
            LlType::Signed
        } else {
            self.key
        }
    }

    /// The type of the values in their array.
    pub fn stored_value(self) -> LlType
        ensures { result ≡ spec.stored_value self }
    {
        if !is_plain(self.key) && is_plain(self.value) {
            LlType::Signed
        } else {
            self.value
        }
    }

    /// The type of the items of the first array.
    pub fn first_item(self) -> LlType
        ensures { result ≡ spec.first_item self }
    {
        if self.keys_last() {
            self.stored_value()
        } else {
            self.stored_key()
        }
    }

    /// The type of the items of the second array.
    pub fn second_item(self) -> LlType
        ensures { result ≡ spec.second_item self }
    {
        if self.keys_last() {
            self.stored_key()
        } else {
            self.stored_value()
        }
    }
}

/// The type of a field of what was seen: what is never there may have any.
pub fn type_of(layout: &Layout, element: Option<&Element>) -> LlType
    ensures { result ≡ spec.type_in layout.now (option_copied element.entry) }
{
    match element {
        None => LlType::Bool,
        Some(element) => field_type(repr(layout, element)),
    }
}

/// The dict of a class of sites, whose struct has this number.
pub fn push_mapping(
    annotation: &Annotation,
    layout: &Layout,
    site: SiteId,
    dict: u64,
    mappings: &mut Seq<Mapping>,
) -> Result<(), NoMem>
    ensures { OnOk result (mappings.new ≡ mappings.old ++ spec.mapping layout.now annotation.now site dict ∷ []) }
{
    mappings.push(Mapping {
        dict,
        key: type_of(layout, annotation.keys.get(site as usize)),
        value: type_of(layout, annotation.items.get(site as usize)),
    })
}

fn dict_fields(alloc: Global, mapping: Mapping) -> Result<Seq<LlType>, NoMem>
    ensures { IfOk result (λ fields. fields ≡ spec.dict_fields mapping) }
{
    let mut fields = Seq::new(alloc);
    fields.push(LlType::Signed)?;
    fields.push(LlType::Signed)?;
    fields.push(LlType::Ptr(mapping.first()))?;
    fields.push(LlType::Ptr(mapping.second()))?;
    Ok(fields)
}

/// An array with its length.
pub fn array(alloc: Global, item: LlType) -> Result<LlStruct, NoMem>
    ensures { IfOk result (λ s. s ≡ spec.array item) }
{
    let mut fields = Seq::new(alloc);
    fields.push(LlType::Signed)?;
    Ok(LlStruct {
        base: None,
        fields,
        items: Some(item),
    })
}

/// The three structs of a dict.
pub fn push_dict(alloc: Global, mapping: Mapping, structs: &mut Seq<LlStruct>) -> Result<(), NoMem>
    ensures { OnOk result (structs.new ≡ structs.old ++ spec.dict_structs mapping) }
{
    let fields = dict_fields(alloc, mapping)?;
    structs.push(LlStruct {
        base: None,
        fields,
        items: None,
    })?;
    structs.push(array(alloc, mapping.first_item())?)?;
    structs.push(array(alloc, mapping.second_item())?)
}
