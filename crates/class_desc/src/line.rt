// One step from a class to its base.
ghost use Rattle.std.specs.Prelude.{◌≡◌};
ghost use Rattle.class_desc.specs.Line as line;

use rpy_tree::{ClassId, ClassInfo};

/// The base of a class, if it has one.
pub fn base_of(infos: &[ClassInfo], class: ClassId) -> Option<ClassId>
    ensures { result ≡ line.base infos.now class }
{
    match infos.get(class as usize) {
        None => None,
        Some(info) => info.base,
    }
}
