//! What is told before a server begins.
use crate::stamped::Stamped;
use arrayvec::ArrayVec;
use command_line::{Connections, Settings};
use std::fs::{File, Files};
use std::io::{Read, Write};
use std::str;
use std::time::Clock;

/// The most bytes of a line: four numbers of 20 digits, and fewer words than that.
const LINE_BYTES: usize = 160;

/// Where the system says what the program may have, and the row of it that says how many files.
const LIMITS: &str = "/proc/self/limits";

const OPEN_FILES: &str = "Max open files";

/// Tells a log that is on the settings of the server; and, whether one is on or not, if more clients may be connected than the
/// program may have descriptors. What is not taken is left out.
pub fn tell_start<H: Files + Clock, N: Write + Copy>(
    host: &H,
    settings: &Settings,
    is_on: bool,
    notes: N,
) {
    let mut end = Stamped::new(host, notes);
    if is_on {
        let _ = end.write(settings_line(settings).as_slice());
    }
    let Connections::Unlimited(lasting) = settings.connections else {
        return;
    };
    match most_descriptors(host) {
        Some(limit) if lasting.most_open > limit => {
            let _ = end.write(limit_line(lasting.most_open, limit).as_slice());
        }
        _ => {}
    }
}

fn settings_line(settings: &Settings) -> ArrayVec<u8, LINE_BYTES> {
    let mut line = ArrayVec::new();
    let (workers, shards) = (settings.workers, settings.shards);
    let _fits = match settings.connections {
        Connections::Each(count) => {
            writeln!(
                line,
                "settings workers {workers} shards {shards} connections {count}"
            )
        }
        Connections::Unlimited(lasting) => {
            let most = lasting.most_open;
            writeln!(
                line,
                "settings workers {workers} shards {shards} max-open {most}"
            )
        }
    };
    line
}

fn limit_line(most_open: u64, limit: u64) -> ArrayVec<u8, LINE_BYTES> {
    let mut line = ArrayVec::new();
    let _fits = writeln!(
        line,
        "max-open {most_open} is over the limit of {limit} descriptors"
    );
    line
}

/// How many descriptors the program may have, if the system says so and there is a limit.
fn most_descriptors<H: Files>(host: &H) -> Option<u64> {
    let mut room = [0; 4096];
    let mut file = File::open(host, LIMITS).ok()?;
    let count = file.read(&mut room).ok()?;
    let text = str::from_utf8(&room[..count]).ok()?;
    let row = text.lines().find(|line| line.starts_with(OPEN_FILES))?;
    row.split_whitespace().nth(3)?.parse::<u64>().ok()
}
