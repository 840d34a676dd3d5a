// The status of a call.
ghost use Rattle.std.specs.Prelude.{◌≡◌};
ghost use Rattle.rpy_edge.specs.Edge.{code};

#[derive(Clone, Copy, Debug, PartialEq, Eq)]
pub enum Status {
    Done,
    Usage,
    NotSource,
    NotProgram,
    Conflicting,
    Untyped,
    NotC,
    Stuck,
    NoFile,
    NotRead,
    WriteFault,
    Raised,
    Failed,
    Running,
    NoMem,
    WorkSpent,
    TooLong,
    TooMany,
}

impl Status {
    /// The number that the process ends with.
    pub fn code(self) -> u8
        ensures { result ≡ code self }
    {
        match self {
            Status::Done => 0,
            Status::Usage => 1,
            Status::NotSource => 2,
            Status::NotProgram => 3,
            Status::Conflicting => 4,
            Status::Untyped => 5,
            Status::NotC => 6,
            Status::Stuck => 7,
            Status::NoFile | Status::NotRead => 8,
            Status::WriteFault => 9,
            Status::Raised => 10,
            Status::Failed => 11,
            Status::Running => 12,
            Status::NoMem => 13,
            Status::WorkSpent => 14,
            Status::TooLong | Status::TooMany => 15,
        }
    }
}
