// Dicts that are constants of modules. Each is three statics: its two arrays, with the index as the graphs of dicts
// make it, and the dict.
ghost use Rattle.std.specs.Prelude.{◌≡◌, ◌++◌, IfOk, OnOk, [], map, pos, replicate};
ghost use Rattle.rtyper_op.specs.Mapped as spec;
ghost use Rattle.rtyper_data.specs.Seen.{the_around, Asks};

use crate::constant::constant_of;
use csub_tree::{CCell, CConst, CStatic};
use ll_code::LlType;
use rpy_base::word::{shr, wrap_mul};
use rpy_base::{NoMem, Seq};
use rpy_tree::{Const, SiteId};
use rtyper_data::{Around, Found};
use rtyper_layout::{Layout, Mapping};
use std::alloc::Global;

/// What the hash of a word is multiplied with.
pub const MIX_FACTOR: i64 = -7046029254386353131;

/// What the hash of a string or tuple is multiplied with for each item.
pub const HASH_FACTOR: i64 = 1099511628211;

// An entry, as it stands in the arrays, and the hash of its key.
#[derive(Clone, Copy)]
struct Entry {
    key: CConst,
    value: CConst,
    hash: i64,
}

// ---- hashes

#[tactic(auto, unfolding(crate::specs::Mapped::mixed))]
fn mixed(x: i64) -> i64
    ensures { result ≡ spec.mixed x }
{
    let h = wrap_mul(x, MIX_FACTOR);
    h ^ shr(h, 32)
}

// With one item more.
#[tactic(auto, unfolding(crate::specs::Mapped::with_item))]
fn with_item(h: i64, x: i64) -> i64
    ensures { result ≡ spec.with_item h x }
{
    wrap_mul(h ^ x, HASH_FACTOR)
}

#[tactic(auto, unfolding(crate::specs::Mapped::hash_of_text))]
fn hash_of_text(bytes: &[u8], kind: LlType) -> i64
    ensures { result ≡ spec.hash_of_text bytes.now kind }
{
    match (kind, bytes) {
        (LlType::Char, [byte]) => mixed(*byte as i64),
        _ => {
            let mut h: i64 = 0;
            for byte in bytes {
                h = with_item(h, *byte as i64);
            }
            mixed(h)
        }
    }
}

#[cycle(hash)]
fn hash_of_parts(layout: &Layout, parts: &[Const], fields: &[LlType]) -> i64
    ensures { result ≡ spec.with_parts (pos 0) (map (spec.hash_of layout.now) parts.now) fields.now }
{
    let mut h: i64 = 0;
    let mut rest = fields;
    for part in parts {
        match rest {
            [] => return mixed(h),
            [field, others @ ..] => {
                h = with_item(h, hash_of(layout, part, *field));
                rest = others;
            }
        }
    }
    mixed(h)
}

// The hash of a constant as a key of this type. Other constants are no keys.
#[cycle(hash)]
#[tactic(auto, using(crate::proofs::Keys::tuple_is))]
fn hash_of(layout: &Layout, constant: &Const, kind: LlType) -> i64
    ensures { result ≡ spec.hash_of layout.now constant.now kind }
{
    match constant {
        Const::Word(n) => mixed(*n),
        Const::Bool(b) => mixed(if *b { 1 } else { 0 }),
        Const::Str(text) => hash_of_text(text.bytes(), kind),
        Const::Tuple(parts) => match kind {
            LlType::Ptr(n) => hash_of_parts(layout, parts.as_slice(), layout.fields(n)),
            _ => 0,
        },
        Const::None | Const::Function(_) | Const::List(_) | Const::Dict(_) => 0,
    }
}

// ---- entries

fn as_word(constant: CConst) -> CConst
    ensures { result ≡ spec.as_word constant }
{
    match constant {
        CConst::Bool(b) => CConst::Word(if b { 1 } else { 0 }),
        CConst::Char(byte) => CConst::Word(byte as i64),
        _ => constant,
    }
}

// The constant as it stands in an array whose items have this type.
#[tactic(auto, unfolding(crate::specs::Mapped::stored))]
fn stored(
    alloc: Global,
    around: Around<'_>,
    constant: &Const,
    kind: LlType,
    item: LlType,
    found: &mut Found,
) -> Result<CConst, NoMem>
    ensures { IfOk result (λ made. Asks (spec.stored (the_around around.entry) constant.now kind item found.old) made found.new) }
{
    let made = constant_of(alloc, around, constant, kind, found)?;
    if item == kind {
        Ok(made)
    } else {
        Ok(as_word(made))
    }
}

// Equal keys are one constant.
fn place_of_key(entries: &[Entry], key: CConst) -> Option<usize>
    ensures { result ≡ spec.key_from 0 entries.now key }
{
    let mut place: usize = 0;
    for entry in entries {
        if entry.key == key {
            return Some(place);
        }
        place += 1;
    }
    None
}

// A key that is there keeps its place.
#[tactic(auto, unfolding(crate::specs::Mapped::with_entry))]
fn push_entry(entry: Entry, entries: &mut Seq<Entry>) -> Result<(), NoMem>
    ensures { OnOk result (entries.new ≡ spec.with_entry entry entries.old) }
{
    match place_of_key(entries.as_slice(), entry.key) {
        None => entries.push(entry),
        Some(place) => {
            if place < entries.len() {
                entries.set(place, entry);
            }
            Ok(())
        }
    }
}

#[tactic(auto, unfolding(crate::specs::Mapped::entry_of))]
fn entry_of(
    alloc: Global,
    around: Around<'_>,
    mapping: Mapping,
    pair: &(Const, Const),
    found: &mut Found,
) -> Result<Entry, NoMem>
    ensures { IfOk result (λ entry. Asks (spec.entry_of (the_around around.entry) mapping pair.now found.old) entry found.new) }
{
    let key = stored(
        alloc,
        around,
        &pair.0,
        mapping.key,
        mapping.stored_key(),
        found,
    )?;
    let value = stored(
        alloc,
        around,
        &pair.1,
        mapping.value,
        mapping.stored_value(),
        found,
    )?;
    let hash = hash_of(around.layout, &pair.0, mapping.key);
    Ok(Entry { key, value, hash })
}

fn entries_of(
    alloc: Global,
    around: Around<'_>,
    mapping: Mapping,
    pairs: &[(Const, Const)],
    found: &mut Found,
) -> Result<Seq<Entry>, NoMem>
    ensures { IfOk result (λ entries. Asks (spec.entries_from (the_around around.entry) mapping pairs.now ([], found.old)) entries found.new) }
{
    let mut entries = Seq::new(alloc);
    for pair in pairs {
        let entry = entry_of(alloc, around, mapping, pair, found)?;
        push_entry(entry, &mut entries)?;
    }
    Ok(entries)
}

// ---- the index

// Doubled so often at most, until it is enough.
#[tactic(auto, using(crate::proofs::Keys::next_size, crate::proofs::Keys::last_size))]
fn doubled(first: usize, least: usize, turns: usize) -> usize
    ensures { result ≡ spec.size_from turns first least }
{
    let mut size = first;
    for turn in 0..turns {
        if size >= least {
            return size;
        }
        size = size.saturating_mul(2);
    }
    size
}

// A power of two that is at least twice the number of entries.
#[tactic(auto, unfolding(crate::specs::Mapped::size_of))]
fn size_of(count: usize) -> usize
    ensures { result ≡ spec.size_of count }
{
    doubled(2, count.saturating_mul(2), 62)
}

fn zeros(alloc: Global, count: usize) -> Result<Seq<i64>, NoMem>
    ensures { IfOk result (λ words. words ≡ replicate count (pos 0)) }
{
    let mut words = Seq::new(alloc);
    for filled in 0..count {
        words.push(0)?;
    }
    Ok(words)
}

// Where a hash leads in an index of so many words.
#[tactic(auto, unfolding(crate::specs::Mapped::place_of_hash))]
fn place_of_hash(hash: i64, size: usize) -> usize
    ensures { result ≡ spec.place_of_hash hash size }
{
    match i64::try_from(size) {
        Err(_) => 0,
        Ok(size) => match usize::try_from(hash & size.wrapping_sub(1)) {
            Err(_) => 0,
            Ok(at) => at,
        },
    }
}

// A word goes to the first empty place from that of its hash on.
#[tactic(auto, using(crate::proofs::Keys::next_place), unfolding(crate::specs::Mapped::enter))]
fn enter(hash: i64, word: i64, words: &mut Seq<i64>)
    ensures { words.new ≡ spec.enter hash word words.old }
{
    let size = words.len();
    if size == 0 {
        return;
    }
    let mut at = place_of_hash(hash, size);
    for turn in 0..size {
        if at >= size {
            at = 0;
        }
        if words.get(at) == Some(&0) {
            words.set(at, word);
            return;
        }
        at = at.saturating_add(1);
    }
}

#[tactic(auto, unfolding(crate::specs::Mapped::index_of))]
fn index_of(alloc: Global, entries: &[Entry]) -> Result<Seq<i64>, NoMem>
    ensures { IfOk result (λ words. words ≡ spec.index_of entries.now) }
{
    let mut words = zeros(alloc, size_of(entries.len()))?;
    let mut next: i64 = 1;
    for entry in entries {
        enter(entry.hash, next, &mut words);
        next = next.saturating_add(1);
    }
    Ok(words)
}

// ---- statics

fn push_keys(entries: &[Entry], cells: &mut Seq<CCell>) -> Result<(), NoMem>
    ensures { OnOk result (cells.new ≡ cells.old ++ spec.key_cells entries.now) }
{
    for entry in entries {
        cells.push(CCell::Const(entry.key))?;
    }
    Ok(())
}

fn push_values(entries: &[Entry], cells: &mut Seq<CCell>) -> Result<(), NoMem>
    ensures { OnOk result (cells.new ≡ cells.old ++ spec.value_cells entries.now) }
{
    for entry in entries {
        cells.push(CCell::Const(entry.value))?;
    }
    Ok(())
}

fn push_index(alloc: Global, entries: &[Entry], cells: &mut Seq<CCell>) -> Result<(), NoMem>
    ensures { OnOk result (cells.new ≡ cells.old ++ spec.index_cells entries.now) }
{
    let words = index_of(alloc, entries)?;
    for word in words.as_slice() {
        cells.push(CCell::Const(CConst::Word(*word)))?;
    }
    Ok(())
}

fn length_of(count: usize) -> Result<CCell, NoMem>
    ensures { IfOk result (λ cell. cell ≡ spec.count_cell count) }
{
    match i64::try_from(count) {
        Ok(length) => Ok(CCell::Const(CConst::Word(length))),
        Err(_) => Err(NoMem),
    }
}

// An array with its length.
#[tactic(auto, unfolding(crate::specs::Mapped::array_of))]
fn array_of(alloc: Global, kind: u64, items: Seq<CCell>, found: &mut Found) -> Result<CConst, NoMem>
    ensures { IfOk result (λ made. Asks (spec.array_of kind items found.old) made found.new) }
{
    let mut cells = Seq::new(alloc);
    cells.push(length_of(items.len())?)?;
    cells.push(CCell::Braces(items))?;
    own_static(kind, cells, found)
}

// A static of one list or dict alone: no other has it, even where its cells are the same.
pub fn own_static(kind: u64, cells: Seq<CCell>, found: &mut Found) -> Result<CConst, NoMem>
    ensures { IfOk result (λ made. Asks (spec.own_static kind cells found.old) made found.new) }
{
    let place = found.statics.len() as u64;
    found.statics.push(CStatic { kind, cells })?;
    Ok(CConst::Static(kind, place))
}

#[tactic(auto, unfolding(crate::specs::Mapped::first_array))]
fn first_of(
    alloc: Global,
    mapping: Mapping,
    entries: &[Entry],
    found: &mut Found,
) -> Result<CConst, NoMem>
    ensures { IfOk result (λ made. Asks (spec.first_array mapping entries.now found.old) made found.new) }
{
    let mut items = Seq::new(alloc);
    if mapping.keys_last() {
        push_values(entries, &mut items)?;
    } else {
        push_keys(entries, &mut items)?;
    }
    array_of(alloc, mapping.first(), items, found)
}

#[tactic(auto, unfolding(crate::specs::Mapped::second_array))]
fn second_of(
    alloc: Global,
    mapping: Mapping,
    entries: &[Entry],
    found: &mut Found,
) -> Result<CConst, NoMem>
    ensures { IfOk result (λ made. Asks (spec.second_array mapping entries.now found.old) made found.new) }
{
    let mut items = Seq::new(alloc);
    if mapping.is_indexed() {
        push_index(alloc, entries, &mut items)?;
    }
    if mapping.keys_last() {
        push_keys(entries, &mut items)?;
    } else {
        push_values(entries, &mut items)?;
    }
    array_of(alloc, mapping.second(), items, found)
}

// The number of entries, that of places, and the arrays. An empty dict has none.
#[tactic(auto, unfolding(crate::specs::Mapped::dict_cells))]
fn dict_cells(
    alloc: Global,
    mapping: Mapping,
    entries: &[Entry],
    found: &mut Found,
) -> Result<Seq<CCell>, NoMem>
    ensures { IfOk result (λ cells. Asks (spec.dict_cells mapping entries.now found.old) cells found.new) }
{
    let (first, second) = if entries.is_empty() {
        (CConst::Null, CConst::Null)
    } else {
        (
            first_of(alloc, mapping, entries, found)?,
            second_of(alloc, mapping, entries, found)?,
        )
    };
    let mut cells = Seq::new(alloc);
    cells.push(length_of(entries.len())?)?;
    cells.push(length_of(entries.len())?)?;
    cells.push(CCell::Const(first))?;
    cells.push(CCell::Const(second))?;
    Ok(cells)
}

/// The dict of a site. Two dicts with the same entries are two dicts.
#[tactic(auto, unfolding(crate::specs::Mapped::mapped))]
pub fn push_mapped(
    alloc: Global,
    around: Around<'_>,
    site: SiteId,
    kind: u64,
    pairs: &[(Const, Const)],
    found: &mut Found,
) -> Result<(), NoMem>
    ensures { OnOk result (found.new ≡ spec.mapped (the_around around.entry) site kind pairs.now found.old) }
{
    let Some(mapping) = around.layout.mapping(kind) else {
        return Ok(());
    };
    let entries = entries_of(alloc, around, mapping, pairs, found)?;
    let cells = dict_cells(alloc, mapping, entries.as_slice(), found)?;
    let number = found.statics.len() as u64;
    found.statics.push(CStatic { kind, cells })?;
    found.prebuilt.push((site, number))
}
