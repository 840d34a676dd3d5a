// Watchers, which are told of each block that is made and of each that is gone.
ghost use Rattle.std.specs.Prelude.{◌≡◌, ◌≤◌, ℕ, [], ◌∷◌, ◌++◌, map, length, All, IfOk, OnOk, OnErr, IsTrue, IsFalse, ◌<◌, ◌+◌, take, true, false};
ghost use Rattle.std.specs.Fmt.{decimal};
ghost use Rattle.rpy_base.specs.Watching.{Seen, IsFresh, CanMake, CanGo, after_made, after_gone, Reports, first_told, without, leak_line, leak_lines, leak_lines_of, is_live};
ghost use Rattle.rpy_base.specs.Entries.{is_distinct, IsEntryAt, live_blocks};

use crate::{NoMem, Text};
use itoa::Buffer;
use std::alloc::Global;

pub trait HeapWatch: Drop {
    /// What the watcher has seen, with its name and how it reports.
    ghost seen: { Self → Seen };

    fn name(&self) -> &[u8]
        ensures { result.now ≡ (seen self.now).name };

    /// A block was made.
    fn made(&mut self, alloc: Global, block: u64, kind: u64, cells: u64) -> Result<(), NoMem>
        requires { CanMake block (seen self.old) }
        ensures ok { OnOk result (seen self.new ≡ after_made (block, kind, cells) (seen self.old)) }
        ensures err { OnErr result (seen self.new ≡ seen self.old) };

    /// A block is gone.
    fn gone(&mut self, block: u64)
        requires { CanGo block (seen self.old) }
        ensures { seen self.new ≡ after_gone block (seen self.old) };

    fn report(&self, alloc: Global) -> Result<Text, NoMem>
        ensures { IfOk result (λ text. Reports (seen self.now) text) };
}

fn tell_one(
    alloc: Global,
    watcher: &mut Box<dyn HeapWatch>,
    block: u64,
    kind: u64,
    cells: u64,
) -> Result<(), NoMem>
    requires { CanMake block (seen watcher.old) }
    ensures ok { OnOk result (seen watcher.new ≡ after_made (block, kind, cells) (seen watcher.old)) }
    ensures err { OnErr result (seen watcher.new ≡ seen watcher.old) }
{
    watcher.made(alloc, block, kind, cells)
}

/// Tells each watcher of a block. After an error the watchers before some one have seen it.
pub fn tell_made(
    alloc: Global,
    watch: &mut Vec<Box<dyn HeapWatch>>,
    block: u64,
    kind: u64,
    cells: u64,
) -> Result<(), NoMem>
    requires { All (CanMake block) (map (λ w. seen w) watch.old.items) }
    ensures ok { OnOk result (map (λ w. seen w) watch.new.items ≡ map (after_made (block, kind, cells)) (map (λ w. seen w) watch.old.items)) }
    ensures err { OnErr result ((k : ℕ) × (map (λ w. seen w) watch.new.items ≡ first_told k (after_made (block, kind, cells)) (map (λ w. seen w) watch.old.items))) }
{
    for i in 0..watch.len() {
        tell_one(alloc, &mut watch[i], block, kind, cells)?;
    }
    Ok(())
}

fn tell_one_gone(watcher: &mut Box<dyn HeapWatch>, block: u64)
    requires { CanGo block (seen watcher.old) }
    ensures { seen watcher.new ≡ after_gone block (seen watcher.old) }
{
    watcher.gone(block);
}

/// Tells each watcher that a block is gone.
pub fn tell_gone(watch: &mut Vec<Box<dyn HeapWatch>>, block: u64)
    requires { All (CanGo block) (map (λ w. seen w) watch.old.items) }
    ensures { map (λ w. seen w) watch.new.items ≡ map (after_gone block) (map (λ w. seen w) watch.old.items) }
{
    for i in 0..watch.len() {
        tell_one_gone(&mut watch[i], block);
    }
}

/// A list of two watchers.
pub fn pair_of(
    alloc: Global,
    first: Box<dyn HeapWatch>,
    second: Box<dyn HeapWatch>,
) -> Result<Vec<Box<dyn HeapWatch>>, NoMem>
    requires first { IsFresh (seen first) }
    requires second { IsFresh (seen second) }
    ensures fresh { IfOk result (λ all. All IsFresh (map (λ w. seen w) all.items)) }
    ensures len { IfOk result (λ all. length all.items ≡ 2) }
{
    let mut all = Vec::new(alloc);
    all.push(first)?;
    all.push(second)?;
    Ok(all)
}

// The decimal of a number, behind what is there.
fn push_number(text: &mut Text, n: u64) -> Result<(), NoMem>
    ensures { OnOk result (text.new ≡ text.old ++ decimal n) }
{
    let mut buffer = Buffer::new();
    text.append(buffer.format(n).as_bytes())
}

/// Counts blocks.
#[derive(Drop)]
pub struct Tally {
    made: u64,
    gone: u64,
    ghost in_order: { gone ≤ made },
}

impl Tally {
    ghost use Rattle.rpy_base.specs.Watchers.{tally_seen};

    pub fn new() -> Tally
        ensures fresh { IsFresh (tally_seen result) }
    {
        Tally { made: 0, gone: 0 }
    }
}

impl HeapWatch for Tally {
    ghost use Rattle.rpy_base.specs.Watchers.{tally_seen};

    ghost seen = { tally_seen };

    fn name(&self) -> &[u8] {
        b"tally"
    }

    fn made(&mut self, _alloc: Global, _block: u64, _kind: u64, _cells: u64) -> Result<(), NoMem> {
        self.made += 1;
        Ok(())
    }

    fn gone(&mut self, _block: u64) {
        self.gone += 1;
    }

    fn report(&self, alloc: Global) -> Result<Text, NoMem> {
        let mut text = Text::from_bytes(alloc, b"tally: made ")?;
        push_number(&mut text, self.made)?;
        text.append(b", gone ")?;
        push_number(&mut text, self.gone)?;
        text.append(b", left ")?;
        push_number(&mut text, self.made - self.gone)?;
        text.push(b'\n')?;
        Ok(text)
    }
}

/// A block, and whether it is live.
#[derive(Clone, Copy, Drop)]
struct Entry {
    number: u64,
    kind: u64,
    cells: u64,
    live: bool,
}

/// Keeps the live blocks, in order of making. Blocks that are gone stay as marked entries until
/// they outnumber the live ones, so that a block whose number is above those before it costs only
/// a binary search.
#[derive(Drop)]
pub struct Leaks {
    entries: Vec<Entry>,
    made: u64,
    gone: u64,
    ghost distinct: { is_distinct (live_blocks entries.items) ≡ true },
}

// Whether the entry at this place is the live block of a number.
#[tactic(auto, using(crate::proofs::Marking::entry_stands, crate::proofs::Marking::live_more))]
fn stands_at(entries: &[Entry], at: usize, number: u64) -> bool
    ensures stands { IsTrue result → IsEntryAt number entries.now at }
    ensures next { at < length entries.now → is_live number (live_blocks (take at entries.now)) ≡ false → IsFalse result → is_live number (live_blocks (take (at + 1) entries.now)) ≡ false }
{
    if at < entries.len() {
        let entry = entries[at];
        entry.live && entry.number == number
    } else {
        false
    }
}

// Marks the entry at this place as gone.
fn mark(entries: &mut Vec<Entry>, at: usize, number: u64)
    requires distinct { is_distinct (live_blocks entries.old.items) ≡ true }
    requires stands { IsEntryAt number entries.old.items at }
    ensures { live_blocks entries.new.items ≡ without number (live_blocks entries.old.items) }
{
    entries[at].live = false;
}

// Marks the entry of a number, wherever it is.
fn find_and_mark(entries: &mut Vec<Entry>, number: u64)
    requires { is_distinct (live_blocks entries.old.items) ≡ true }
    ensures { live_blocks entries.new.items ≡ without number (live_blocks entries.old.items) }
{
    for i in 0..entries.len() {
        if stands_at(entries, i, number) {
            mark(entries, i, number);
            return;
        }
    }
}

// Takes out the block of a number. In order of their numbers it is found by halves.
fn take_out(entries: &mut Vec<Entry>, number: u64)
    requires { is_distinct (live_blocks entries.old.items) ≡ true }
    ensures { live_blocks entries.new.items ≡ without number (live_blocks entries.old.items) }
{
    let at = entries.partition_point(|entry| entry.number < number);
    if stands_at(entries, at, number) {
        mark(entries, at, number);
    } else {
        find_and_mark(entries, number);
    }
}

// Drops the marked entries once they outnumber the live ones.
fn sweep(entries: &mut Vec<Entry>, live: u64)
    ensures { live_blocks entries.new.items ≡ live_blocks entries.old.items }
{
    if entries.len() as u64 / 2 > live {
        entries.retain(|entry| entry.live);
    }
}

#[tactic(auto, using(crate::proofs::Marking::no_lines, crate::proofs::Marking::some_lines))]
fn leak_report(alloc: Global, entries: &[Entry]) -> Result<Text, NoMem>
    ensures { IfOk result (λ text. text ≡ leak_lines (live_blocks entries.now)) }
{
    let mut text = Text::new(alloc);
    for entry in entries {
        push_entry(&mut text, entry)?;
    }
    if text.bytes().is_empty() {
        return Text::from_bytes(alloc, b"leaks: none\n");
    }
    Ok(text)
}

fn push_entry(text: &mut Text, entry: &Entry) -> Result<(), NoMem>
    ensures { OnOk result (text.new ≡ text.old ++ leak_lines_of (live_blocks (entry.now ∷ []))) }
{
    if entry.live {
        push_leak(text, entry.number, entry.kind, entry.cells)?;
    }
    Ok(())
}

fn push_leak(text: &mut Text, number: u64, kind: u64, cells: u64) -> Result<(), NoMem>
    ensures { OnOk result (text.new ≡ text.old ++ leak_line (number, kind, cells)) }
{
    text.append(b"leak ")?;
    push_number(text, number)?;
    text.append(b" s")?;
    push_number(text, kind)?;
    text.push(b' ')?;
    push_number(text, cells)?;
    text.push(b'\n')?;
    Ok(())
}

impl Leaks {
    ghost use Rattle.rpy_base.specs.Watchers.{leaks_seen};

    pub fn new(alloc: Global) -> Leaks
        ensures fresh { IsFresh (leaks_seen result) }
    {
        Leaks {
            entries: Vec::new(alloc),
            made: 0,
            gone: 0,
        }
    }
}

impl HeapWatch for Leaks {
    ghost use Rattle.rpy_base.specs.Watchers.{leaks_seen};

    ghost seen = { leaks_seen };

    fn name(&self) -> &[u8] {
        b"leaks"
    }

    fn made(&mut self, _alloc: Global, block: u64, kind: u64, cells: u64) -> Result<(), NoMem> {
        self.entries.push(Entry {
            number: block,
            kind,
            cells,
            live: true,
        })?;
        self.made += 1;
        Ok(())
    }

    fn gone(&mut self, block: u64) {
        take_out(&mut self.entries, block);
        self.gone += 1;
        sweep(&mut self.entries, self.made.saturating_sub(self.gone));
    }

    fn report(&self, alloc: Global) -> Result<Text, NoMem> {
        leak_report(alloc, &self.entries)
    }
}
