// Laws of the runs of flow graphs.
ghost use Rattle.flow_runs.specs.Rooms.{RoomIsKept};

/// A bound on the size of each list and dict with the steps left stays one wherever a run comes to: what they grow by is paid.
pub fn room_is_kept()
    ensures { RoomIsKept }
{
    rpy_meaning::growth_is_paid();
}
