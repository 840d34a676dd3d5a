// Names of modules and of class bodies, looked up.
ghost use Rattle.std.specs.Prelude.{◌≡◌, suc, length};
ghost use Rattle.names_bound.specs.Scopes as spec;

use crate::known::known;
use crate::stand::Stand;
use crate::table::{Binding, Bound, Table};
use rpy_base::Seq;
use rpy_nodes::NameId;
use rpy_nodes::words::{MAXINT, WRITE};
use rpy_tree::Builtin;

/// The names of the modules, those of the class bodies, and the base of each class.
#[derive(Drop)]
pub struct Scopes {
    pub bindings: Table,
    pub members: Table,
    pub bases: Seq<Option<usize>>,
}

// What a name stands for that no module has.
fn absent(followed: bool) -> Stand
    ensures { result ≡ spec.absent followed }
{
    if followed {
        Stand::Missing
    } else {
        Stand::Unknown
    }
}

/// The base of a class.
pub fn base_in(bases: &[Option<usize>], class: usize) -> Option<usize>
    ensures { result ≡ spec.base_in bases.now class }
{
    match bases.get(class) {
        None => None,
        Some(base) => *base,
    }
}

// What a binding is, where it is no name of another module.
fn stand_in(binding: Option<Binding>) -> Stand
    ensures { result ≡ spec.stand_in binding }
{
    match binding {
        Some(
            Binding {
                place: _,
                bound: Bound::Is(stand),
            },
        ) => stand,
        _ => Stand::Unknown,
    }
}

impl Scopes {
    /// What a name of a module stands for: `Unknown` where the module has no such name or imports
    /// lead in a ring, `Missing` where an import on the way is at fault.
    #[tactic(auto, using(crate::proofs::Turns::follow_turn))]
    pub fn follow(&self, file: usize, name: NameId) -> Stand
        ensures { result ≡ spec.follow self.now file name }
    {
        let mut file = file;
        let mut name = name;
        let mut followed = false;
        for _turn in 0..self.bindings.len() {
            match self.bindings.get(file, name) {
                None => return absent(followed),
                Some(
                    Binding {
                        place: _,
                        bound: Bound::Is(stand),
                    },
                ) => return stand,
                Some(
                    Binding {
                        place: _,
                        bound: Bound::From(other, meant),
                    },
                ) => {
                    file = other;
                    name = meant;
                    followed = true;
                }
            }
        }
        Stand::Unknown
    }

    /// What a name stands for in a module, outside functions.
    pub fn global(&self, file: usize, name: NameId) -> Stand
        ensures { result ≡ spec.global self.now file name }
    {
        match self.bindings.get(file, name) {
            None => known(name),
            Some(_) => spoken(self.follow(file, name)),
        }
    }

    /// Whether a module binds a name, and not before this place.
    pub fn is_late(&self, file: usize, place: usize, name: NameId) -> bool
        ensures { result ≡ spec.is_late self.now file place name }
    {
        match self.bindings.get(file, name) {
            None => false,
            Some(binding) => place <= binding.place,
        }
    }

    /// The member of a name in the body of a class or of the nearest base that has one.
    #[tactic(auto, using(crate::proofs::Turns::member_turn))]
    pub fn class_member(&self, class: usize, name: NameId) -> Stand
        ensures { result ≡ spec.class_member self.now class name }
    {
        let mut class = class;
        for _turn in 0..self.bases.len() {
            let found = stand_in(self.members.get(class, name));
            if found != Stand::Unknown {
                return found;
            }
            match base_in(self.bases.as_slice(), class) {
                None => return Stand::Unknown,
                Some(base) => class = base,
            }
        }
        Stand::Unknown
    }

    /// Whether a class is another or leads to it by its bases.
    #[tactic(auto, using(crate::proofs::Turns::below_turn))]
    pub fn is_below(&self, class: usize, above: usize) -> bool
        ensures { result ≡ spec.is_below self.now class above }
    {
        let mut class = class;
        for _turn in 0..self.bases.len() {
            if class == above {
                return true;
            }
            match base_in(self.bases.as_slice(), class) {
                None => return false,
                Some(base) => class = base,
            }
        }
        false
    }

    /// What a name after a dot stands for: `Nothing` where it is no name of a module or class.
    pub fn member(&self, of: Stand, name: NameId) -> Stand
        ensures { result ≡ spec.member self.now of name }
    {
        match of {
            Stand::Module(file) => self.follow(file, name),
            Stand::Class(class) => self.class_member(class, name),
            Stand::Os => {
                if name == WRITE {
                    Stand::Builtin(Builtin::OsWrite)
                } else {
                    Stand::Unknown
                }
            }
            Stand::Sys => {
                if name == MAXINT {
                    Stand::MaxInt
                } else {
                    Stand::Unknown
                }
            }
            Stand::Missing => Stand::Missing,
            Stand::Unknown => Stand::Missing,
            _ => Stand::Nothing,
        }
    }
}

// A name that is bound by a ring of imports is told at the imports.
fn spoken(stand: Stand) -> Stand
    ensures { result ≡ spec.spoken stand }
{
    match stand {
        Stand::Unknown => Stand::Missing,
        _ => stand,
    }
}
