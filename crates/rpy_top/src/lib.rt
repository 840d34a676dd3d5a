//! The top call: words to a status, with files read and sinks written.
#![tactic(auto)]

mod building;
mod fault;
mod llrun;
mod run;
mod sample;
mod sources;
mod top;

pub use building::MOST_FILES;
pub use fault::TranslateFault;
pub use rpy_compiled::TypeKind;
pub use rpy_crun::C_LIMIT;
pub use rpy_first::{NameKind, SourceKind};
pub use rpy_front::{LIMIT, are_short};
pub use rpy_words::{Command, RunWords, WordsFault, are_module_names, read_words};
pub use top::{rpyc, translate};
