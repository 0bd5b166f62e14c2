//! The console's work: what each line of a script is answered by, and what it changes.
//!
//! `Session::new` makes a session, `Session::answer` answers a line, `Session::run` a command. An `Answer` displays as the line that is printed.

#![tactic(auto)]

mod answer;
mod cells;
mod line;
mod run;
mod state;
mod work;

pub use answer::Answer;
pub use state::Session;
