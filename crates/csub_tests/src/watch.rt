// Watchers of a run: what each of them has seen, and what stands where one of them refuses.
ghost use Rattle.std.specs.Prelude.{◌≡◌, ◌≤◌, IfOk, All, map};
ghost use Rattle.rpy_base.specs.Watching.{IsFresh};

use crate::runner::{file_of, no_args, three_blocks, word};
use csub_runner::{RunFault, run_c};
use csub_tree::{CBinary, CConst, CFile, COperand, CStmt, CType};
use rpy_base::{HeapWatch, Leaks, MemSink, NoMem, Outcome, Seq, Sink, Tally, Text, pair_of};
use std::alloc::Global;
use std::test::Fail;

// A watcher of the caller's own, of a name that another one has too. It refuses each block once it
// has seen so many, and reports the last digits of its two numbers.
#[derive(Drop)]
struct Choosy {
    made: u64,
    gone: u64,
    most: u64,
    ghost in_order: { gone ≤ made },
}

impl Choosy {
    fn new(most: u64) -> Choosy
        ensures made { result.made ≡ 0 }
        ensures gone { result.gone ≡ 0 }
    {
        Choosy {
            made: 0,
            gone: 0,
            most,
        }
    }
}

impl HeapWatch for Choosy {
    ghost use Rattle.std.specs.Prelude.{None, codes};
    ghost use Rattle.rpy_base.specs.Watching.{Own};

    ghost seen = { λ c. record { name = codes "tally"; style = Own; made = c.made; gone = c.gone; live = None } };

    fn name(&self) -> &[u8] {
        b"tally"
    }

    fn made(&mut self, _alloc: Global, _block: u64, _kind: u64, _cells: u64) -> Result<(), NoMem> {
        if self.made >= self.most {
            return Err(NoMem);
        }
        self.made += 1;
        Ok(())
    }

    fn gone(&mut self, _block: u64) {
        self.gone += 1;
    }

    fn report(&self, alloc: Global) -> Result<Text, NoMem> {
        let mut text = Text::new(alloc);
        text.push(b'0' + (self.made % 10) as u8)?;
        text.push(b'0' + (self.gone % 10) as u8)?;
        text.push(b' ')?;
        Ok(text)
    }
}

fn boxed_tally(alloc: Global) -> Result<Box<dyn HeapWatch>, NoMem>
    ensures { IfOk result (λ w. IsFresh (seen w)) }
{
    let tally = Box::new(alloc, Tally::new())?;
    Ok(tally)
}

fn boxed_leaks(alloc: Global) -> Result<Box<dyn HeapWatch>, NoMem>
    ensures { IfOk result (λ w. IsFresh (seen w)) }
{
    let leaks = Box::new(alloc, Leaks::new(alloc))?;
    Ok(leaks)
}

fn boxed_choosy(alloc: Global, most: u64) -> Result<Box<dyn HeapWatch>, NoMem>
    ensures { IfOk result (λ w. IsFresh (seen w)) }
{
    let choosy = Box::new(alloc, Choosy::new(most))?;
    Ok(choosy)
}

// A list of three watchers.
fn triple_of(
    alloc: Global,
    first: Box<dyn HeapWatch>,
    second: Box<dyn HeapWatch>,
    third: Box<dyn HeapWatch>,
) -> Result<Vec<Box<dyn HeapWatch>>, NoMem>
    requires first { IsFresh (seen first) }
    requires second { IsFresh (seen second) }
    requires third { IsFresh (seen third) }
    ensures { IfOk result (λ all. All IsFresh (map (λ w. seen w) all.items)) }
{
    let mut all = Vec::new(alloc);
    all.push(first)?;
    all.push(second)?;
    all.push(third)?;
    Ok(all)
}

// Three watchers of the caller's own.
fn three_of(alloc: Global, most: [u64; 3]) -> Result<Vec<Box<dyn HeapWatch>>, NoMem>
    ensures { IfOk result (λ all. All IsFresh (map (λ w. seen w) all.items)) }
{
    let [first, second, third] = most;
    triple_of(
        alloc,
        boxed_choosy(alloc, first)?,
        boxed_choosy(alloc, second)?,
        boxed_choosy(alloc, third)?,
    )
}

fn one_tally(alloc: Global) -> Result<Vec<Box<dyn HeapWatch>>, NoMem>
    ensures { IfOk result (λ all. All IsFresh (map (λ w. seen w) all.items)) }
{
    let mut all = Vec::new(alloc);
    all.push(boxed_tally(alloc)?)?;
    Ok(all)
}

// The reports, one after another.
fn reports_of(alloc: Global, watch: &Vec<Box<dyn HeapWatch>>) -> Result<Text, NoMem> {
    let mut reports = Text::new(alloc);
    for i in 0..watch.len() {
        let report = watch[i].report(alloc)?;
        reports.append(report.bytes())?;
    }
    Ok(reports)
}

// How a run ended: the word that it returned, -1 where its steps were spent, -2 where there was no
// memory; what was printed; and the reports.
fn told(
    alloc: Global,
    file: &CFile,
    steps: u64,
    watch: &mut Vec<Box<dyn HeapWatch>>,
) -> Result<(i64, MemSink, Text), NoMem>
    requires { All IsFresh (map (λ w. seen w) watch.old.items) }
{
    let args = no_args(alloc)?;
    let mut out = MemSink::new(alloc);
    let ending = match run_c(alloc, file, args.as_slice(), steps, &mut out, watch) {
        Ok(ran) => match ran.outcome {
            Outcome::Returned(n) => n,
            Outcome::Running => -1,
            _ => -3,
        },
        Err(RunFault::NoMem) => -2,
        Err(_) => -4,
    };
    let reports = reports_of(alloc, watch)?;
    Ok((ending, out, reports))
}

// The third block, or the first, is refused at each place of the list: the watchers before that
// place have seen it, this one and the later ones have not.
#[test]
fn a_watcher_refuses_at_each_place(rt: HostRuntime) -> Result<(), Fail> {
    let alloc = rt.alloc();
    let file = three_blocks(alloc)?;
    for (most, ends, reports) in [
        ([2, 9, 9], -2, "21 21 21 "),
        ([9, 2, 9], -2, "31 21 21 "),
        ([9, 9, 2], -2, "31 31 21 "),
        ([0, 9, 9], -2, "00 00 00 "),
        ([9, 0, 9], -2, "10 00 00 "),
        ([9, 9, 0], -2, "10 10 00 "),
        ([9, 9, 9], 7, "31 31 31 "),
    ] {
        let mut watch = three_of(alloc, most)?;
        let (ended, out, told) = told(alloc, &file, 5, &mut watch)?;
        assert_eq!(rt; ended, ends, "{reports}");
        assert_eq!(rt; told.bytes(), reports.as_bytes());
        assert!(rt; b"hi".starts_with(out.taken()), "{reports}");
    }
    Ok(())
}

// Behind a tally: it has seen the block that the other one refuses, also where both have one name.
#[test]
fn a_watcher_refuses_behind_a_tally(rt: HostRuntime) -> Result<(), Fail> {
    let alloc = rt.alloc();
    let file = three_blocks(alloc)?;
    let mut watch = pair_of(alloc, boxed_tally(alloc)?, boxed_choosy(alloc, 2)?)?;
    let (ended, _, told) = told(alloc, &file, 5, &mut watch)?;
    assert_eq!(rt; ended, -2);
    assert_eq!(rt;
        told.bytes(),
        b"tally: made 3, gone 1, left 2\n21 ".as_slice()
    );
    Ok(())
}

#[test]
fn blocks_that_stay_are_told(rt: HostRuntime) -> Result<(), Fail> {
    let alloc = rt.alloc();
    let file = three_blocks(alloc)?;
    let args = no_args(alloc)?;
    let mut out = MemSink::new(alloc);
    let mut watch = pair_of(alloc, boxed_tally(alloc)?, boxed_leaks(alloc)?)?;
    let ran = run_c(alloc, &file, args.as_slice(), 5, &mut out, &mut watch)?;
    assert!(rt; matches!(ran.outcome, Outcome::Returned(7)));
    assert_eq!(rt; ran.steps_used, 0);
    assert_eq!(rt; ran.blocks_made, 3);
    assert_eq!(rt; ran.blocks_gone, 1);
    assert_eq!(rt; out.taken(), b"hi".as_slice());
    let reports = reports_of(alloc, &watch)?;
    assert_eq!(rt;
        reports.bytes(),
        b"tally: made 3, gone 1, left 2\nleak 0 s0 1\nleak 2 s0 1\n".as_slice()
    );
    Ok(())
}

fn listed<T: Drop, const N: usize>(alloc: Global, items: [T; N]) -> Result<Seq<T>, NoMem> {
    Ok(Seq::from_vec(Vec::from_array(alloc, items)?))
}

const NUMBER: COperand = COperand::Var(1);

// The first two blocks of a loop: the number of turns is counted from 0, and block 3 comes behind.
fn counting(alloc: Global, first: CStmt, turns: i64) -> Result<Seq<Seq<CStmt>>, NoMem> {
    let start = listed(alloc, [first, CStmt::Set(1, word(0)), CStmt::Goto(1)])?;
    let less = CStmt::Binary(2, CBinary::Lt, NUMBER, word(turns));
    let test = listed(alloc, [less, CStmt::If(2, 2, 3)])?;
    listed(alloc, [start, test])
}

// A turn pays four steps, makes a block and frees it; the entry pays one.
fn many_turns(alloc: Global, turns: i64) -> Result<CFile, NoMem> {
    let mut blocks = counting(alloc, CStmt::Step(word(1)), turns)?;
    let more = CStmt::Binary(1, CBinary::Add, NUMBER, word(1));
    blocks.push(listed(
        alloc,
        [
            CStmt::Step(word(4)),
            CStmt::New(0, 0, 0),
            CStmt::Free(0),
            more,
            CStmt::Goto(1),
        ],
    )?)?;
    blocks.push(listed(alloc, [CStmt::Return(Some(NUMBER))])?)?;
    let locals = [CType::Ptr(0), CType::Signed, CType::Bool];
    file_of(alloc, CType::Signed, locals.as_slice(), blocks)
}

const NEWEST: COperand = COperand::Var(0);

// Each block points to the one before it; then they are freed, the last one first.
fn long_chain(alloc: Global, length: i64) -> Result<CFile, NoMem> {
    let null = COperand::Const(CConst::Null);
    let mut blocks = counting(alloc, CStmt::Set(0, null), length)?;
    let make = [
        CStmt::New(3, 0, 0),
        CStmt::SetField(0, 3, 0, NEWEST),
        CStmt::Set(0, COperand::Var(3)),
        CStmt::Binary(1, CBinary::Add, NUMBER, word(1)),
        CStmt::Goto(1),
    ];
    blocks.push(listed(alloc, make)?)?;
    let none = CStmt::Binary(2, CBinary::Peq, NEWEST, null);
    blocks.push(listed(alloc, [none, CStmt::If(2, 5, 4)])?)?;
    let free = [
        CStmt::GetField(3, 0, 0, 0),
        CStmt::Free(0),
        CStmt::Set(0, COperand::Var(3)),
        CStmt::Goto(3),
    ];
    blocks.push(listed(alloc, free)?)?;
    blocks.push(listed(alloc, [CStmt::Return(Some(NUMBER))])?)?;
    let locals = [CType::Ptr(0), CType::Signed, CType::Bool, CType::Ptr(0)];
    file_of(alloc, CType::Ptr(0), locals.as_slice(), blocks)
}

// A loop of 1,000 turns that may pay just what it costs: its blocks are all gone, and the reports
// stand in the order of the list.
#[test]
fn reports_stand_in_order(rt: HostRuntime) -> Result<(), Fail> {
    let alloc = rt.alloc();
    let file = many_turns(alloc, 1000)?;
    let mut watch = pair_of(alloc, boxed_leaks(alloc)?, boxed_tally(alloc)?)?;
    let (ended, _, said) = told(alloc, &file, 4001, &mut watch)?;
    assert_eq!(rt; ended, 1000);
    assert_eq!(rt;
        said.bytes(),
        b"leaks: none\ntally: made 1000, gone 1000, left 0\n".as_slice()
    );
    let mut watch = pair_of(alloc, boxed_tally(alloc)?, boxed_leaks(alloc)?)?;
    let (ended, _, said) = told(alloc, &file, 4001, &mut watch)?;
    assert_eq!(rt; ended, 1000);
    assert_eq!(rt;
        said.bytes(),
        b"tally: made 1000, gone 1000, left 0\nleaks: none\n".as_slice()
    );
    Ok(())
}

// With a step less than it costs, the last turn is not begun.
#[test]
fn the_last_turn_is_not_paid(rt: HostRuntime) -> Result<(), Fail> {
    let alloc = rt.alloc();
    let file = many_turns(alloc, 1000)?;
    let mut watch = one_tally(alloc)?;
    let (ended, _, said) = told(alloc, &file, 4000, &mut watch)?;
    assert_eq!(rt; ended, -1);
    assert_eq!(rt;
        said.bytes(),
        b"tally: made 999, gone 999, left 0\n".as_slice()
    );
    Ok(())
}

#[test]
fn a_long_chain_leaves_nothing(rt: HostRuntime) -> Result<(), Fail> {
    let alloc = rt.alloc();
    let file = long_chain(alloc, 100_000)?;
    let mut watch = pair_of(alloc, boxed_leaks(alloc)?, boxed_tally(alloc)?)?;
    let (ended, _, said) = told(alloc, &file, 1, &mut watch)?;
    assert_eq!(rt; ended, 100_000);
    assert_eq!(rt;
        said.bytes(),
        b"leaks: none\ntally: made 100000, gone 100000, left 0\n".as_slice()
    );
    Ok(())
}

// The list of the caller is as it was: the one tally in it tells what was made and freed.
#[test]
fn a_lent_tally_comes_back(rt: HostRuntime) -> Result<(), Fail> {
    let alloc = rt.alloc();
    let file = long_chain(alloc, 2)?;
    let args = no_args(alloc)?;
    let mut out = MemSink::new(alloc);
    let mut watch = one_tally(alloc)?;
    let ran = run_c(alloc, &file, args.as_slice(), 1, &mut out, &mut watch)?;
    assert!(rt; matches!(ran.outcome, Outcome::Returned(2)));
    assert_eq!(rt; watch.len(), 1);
    assert_eq!(rt; watch[0].name(), b"tally".as_slice());
    let report = watch[0].report(alloc)?;
    assert_eq!(rt;
        report.bytes(),
        b"tally: made 2, gone 2, left 0\n".as_slice()
    );
    Ok(())
}
