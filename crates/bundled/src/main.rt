//! A store of the trust bundles of SPIFFE trust domains, as a program.
#![tactic(auto)]

mod asking;
mod command;
mod exposition;
mod heard;
mod notes;
mod patience;
mod racing;
mod reasons;
mod refreshing;
mod screen;
mod server_stream;
mod serving;
mod snapshot_turns;
mod snapshotting;
mod stats;
mod why;

use command::command_over;
use heard::Heard;
use screen::Screen;
use std::io::IsTerminal;
use std::process::ExitCode;
use wire::Counted;

fn main(rt: HostRuntime) -> ExitCode {
    let mut reader = Counted::new(rt.stdin());
    let stdout = rt.stdout();
    let is_terminal = stdout.is_terminal();
    let mut out = Counted::new(Screen::new(stdout, is_terminal));
    let mut err = Counted::new(Heard::new(rt.stderr()));
    let notes = rt.stderr();
    ExitCode::from(command_over(rt.alloc(), &rt, &rt, &mut reader, &mut out, &mut err, notes))
}
