//! The line about a run that takes long.

use module_commands::Progress;
use module_options::{Options, Task};
use std::io::IsTerminal;
use std::time::Instant;

/// Writes to standard error, if that is a terminal, how many rewrites or changes are made: after a second, and then each time that the
/// run has taken twice as long.
#[derive(Drop)]
pub struct ProgressLine<'a> {
    rt: &'a HostRuntime,
    /// When the run began; none if nothing is written.
    began: Option<Instant>,
    /// How many seconds it has to take before something is written.
    seconds: u64,
    /// How many rewrites or changes are made.
    made: usize,
    /// What they are called.
    unit: &'static str,
}

impl<'a> ProgressLine<'a> {
    /// A run that begins now; a quiet one writes nothing.
    pub fn new(rt: &'a HostRuntime, options: &Options) -> ProgressLine<'a> {
        let began = if !options.quiet && rt.stderr().is_terminal() {
            Instant::now(rt).ok()
        } else {
            None
        };
        let unit = match options.task {
            Task::Change => "changes",
            _ => "rewrites",
        };
        ProgressLine {
            rt,
            began,
            seconds: 1,
            made: 0,
            unit,
        }
    }
}

impl<'a> Progress for ProgressLine<'a> {
    fn count(&mut self) {
        self.made = self.made.saturating_add(1);
        let Some(began) = self.began else {
            return;
        };
        let Ok(passed) = began.elapsed(self.rt) else {
            return;
        };
        let seconds = passed.as_secs();
        if seconds < self.seconds {
            return;
        }
        self.seconds = seconds.saturating_mul(2);
        let (made, unit) = (self.made, self.unit);
        let _ = eprintln!(self.rt; "teddertempo: {made} {unit} in {seconds} s");
    }
}
