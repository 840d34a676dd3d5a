// For which failures the body of a `try` is covered.
ghost use Rattle.std.specs.Prelude.{◌≡◌, ◌==◌};
ghost use Rattle.std.specs.List.{list_any};
ghost use Rattle.rpy_meaning.specs.Classes as spec;
ghost use Rattle.resolved_meaning.specs.Programs as programs;
ghost use Rattle.resolved_meaning.specs.Trees.{clause_of, clauses_of, program_of};

use rpy_meaning::Covers;
use rpy_resolved::{Clause, Resolved};
use rpy_tree::ClassId;

const ZERO_DIVISION_ERROR: ClassId = 4;

const INDEX_ERROR: ClassId = 6;

const VALUE_ERROR: ClassId = 8;

const ATTRIBUTE_ERROR: ClassId = 9;

#[tactic(auto, using(resolved_meaning::proofs::Bases::class_there, resolved_meaning::proofs::Bases::class_missing))]
fn base_of(program: &Resolved, class: ClassId) -> Option<ClassId>
    ensures { result ≡ spec.base_of (spec.class_at (programs.classes_in program.now) class) }
{
    match program.classes.get(class as usize) {
        None => None,
        Some(class) => class.base,
    }
}

// Whether a class is among so many of a line of bases.
#[tactic(auto, using(resolved_meaning::proofs::Bases::line_step))]
fn is_in_line(program: &Resolved, levels: usize, class: Option<ClassId>, base: ClassId) -> bool
    ensures { result ≡ list_any (λ e. e == base) (spec.line_of (programs.classes_in program.now) levels class) }
{
    if levels == 0 {
        return false;
    }
    match class {
        None => false,
        Some(class) => {
            class == base || is_in_line(program, levels - 1, base_of(program, class), base)
        }
    }
}

/// Whether the first class is the second one or below it.
#[tactic(auto, using(resolved_meaning::proofs::Bases::class_count))]
fn is_below(program: &Resolved, class: ClassId, base: ClassId) -> bool
    ensures { result ≡ spec.is_below (programs.classes_in program.now) class base }
{
    is_in_line(program, program.classes.len(), Some(class), base)
}

fn is_below_one(program: &Resolved, class: ClassId, bases: &[ClassId]) -> bool
    ensures { result ≡ list_any (spec.is_below (programs.classes_in program.now) class) bases.now }
{
    let mut rest = bases;
    while let [base, after @ ..] = rest {
        if is_below(program, class, *base) {
            return true;
        }
        rest = after;
    }
    false
}

// Whether a clause takes the exceptions of a class.
#[tactic(auto, unfolding(resolved_meaning::specs::Trees::program_of))]
fn takes(program: &Resolved, clause: &Clause, class: ClassId) -> bool
    ensures { result ≡ spec.takes (program_of program.now).classes (clause_of program.now.sites clause.now).classes class }
{
    clause.bare || is_below_one(program, class, clause.classes.as_slice())
}

fn some_takes(program: &Resolved, clauses: &[Clause], class: ClassId) -> bool
    ensures { result ≡ spec.some_takes (program_of program.now).classes (clauses_of program.now.sites clauses.now) class }
{
    let mut rest = clauses;
    while let [clause, after @ ..] = rest {
        if takes(program, clause, class) {
            return true;
        }
        rest = after;
    }
    false
}

/// The covers of a body with these clauses around it.
pub fn covers_of(program: &Resolved, clauses: &[Clause], around: Covers) -> Covers
    ensures { result ≡ spec.covers_within (program_of program.now).classes (clauses_of program.now.sites clauses.now) around }
{
    Covers {
        index: around.index || some_takes(program, clauses, INDEX_ERROR),
        zero: around.zero || some_takes(program, clauses, ZERO_DIVISION_ERROR),
        number: around.number || some_takes(program, clauses, VALUE_ERROR),
        attribute: around.attribute || some_takes(program, clauses, ATTRIBUTE_ERROR),
    }
}
