//! What `pathindex_dot` does, from the words of the command line and the bytes of a graph file to the picture and the exit status.
#![tactic(auto)]

mod arguments;
mod drawing;
mod output;
mod rules;
mod settings;
mod status;

pub use drawing::run;
pub use status::Status;
