// Laws of good runs.
ghost use Rattle.good_runs.specs.Good.{RunsAreGood};
ghost use Rattle.good_runs.specs.Room.{StartsHaveRoom};

use flow_runs::room_is_kept;
use graph_plain::programs_tell_the_truth;
use key_laws::programs_have_keys;
use sound_programs::{runs_are_sound, types_are_settled};

/// Each run of a program that has types is good from its start on: lists and dicts have room, the keys of dicts and of operations on them have no part that is `None`,
/// instances are of classes that are made, and what narrowings tell is true.
pub fn runs_are_good()
    ensures { RunsAreGood }
{
    programs_have_keys();
    room_is_kept();
    programs_tell_the_truth();
    types_are_settled();
    runs_are_sound();
}

/// A run begins with room for its steps where each list and dict of a module, and the list of arguments, has it.
pub fn starts_have_room()
    ensures { StartsHaveRoom }
{}
