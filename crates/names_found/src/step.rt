// Events with what their names stand for.
use names_bound::Stand;
use rpy_nodes::Act;
use rpy_tree::NodeId;

/// What is called, where the call's arguments or its result are bound to that.
#[derive(Clone, Copy, Debug, PartialEq, Eq)]
pub enum Called {
    Plain,
    /// `range` or `xrange` with three arguments.
    Range,
    /// `os.write` with arguments.
    Write,
    /// A method that makes a list.
    Makes,
}

/// An event, what its name stands for, whether that is bound only after it, what it calls, and the
/// number of its first site, if it has one.
#[derive(Clone, Copy, Debug, PartialEq, Eq)]
pub struct Step {
    pub node: NodeId,
    pub act: Act,
    pub stand: Stand,
    pub late: bool,
    pub called: Called,
    pub site: usize,
}

/// The node of a site, and whether it makes dicts.
#[derive(Clone, Copy, Debug, PartialEq, Eq)]
pub struct SiteAt {
    pub node: NodeId,
    pub dict: bool,
}
