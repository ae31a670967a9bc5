// Reading from and writing to descriptors for every program: a call that a signal interrupts is made again, and what fails is told on standard error.
#![tactic(auto)]

mod calls;
mod input;
mod output;
mod reads;

pub use calls::{
    Attempt, EBADF, STDERR_FILENO, STDOUT_FILENO, Transfer, write_or_error, write_some,
};
pub use input::{read_file, read_file_or_tell};
pub use output::{Sent, Told, is_open, nothing_sent, nothing_told, tell, tell_next, write_next};
pub use reads::{
    Input, Part, PartRead, has_failed, nothing_read, read_on, read_on_or_error, read_on_or_tell,
    reads_left,
};
