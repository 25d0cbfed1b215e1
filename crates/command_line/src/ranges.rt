//! The numbers of the command line: their ranges, and what they are if they are left out.
ghost use Rattle.std.specs.Prelude.{◌↔◌, ◌≤◌, IsTrue};

use clap::ArgMatches;

/// A number within a range, with a default.
#[derive(Clone, Copy)]
pub struct Number {
    pub least: u64,
    pub most: u64,
    pub default: u64,
    /// The default as help shows it.
    pub text: &'static str,
}

/// A number of this range with this default, each of them written once.
macro_rules! number {
    ($least:literal..=$most:literal, $default:literal) => {
        Number {
            least: $least,
            most: $most,
            default: $default,
            text: stringify!($default),
        }
    };
}

pub const SHARDS: Number = number!(1..=256, 4);

pub const ROUNDS: Number = number!(1..=16, 3);

pub const TURNS: Number = number!(1..=1000000000, 1000000);

pub const AT_LEAST: Number = number!(0..=18446744073709551615, 60);

pub const WORKERS: Number = number!(1..=64, 2);

pub const CONNECTIONS: Number = number!(1..=1000, 1);

pub const MAX_OPEN: Number = number!(1..=1000000, 1000);

pub const TRIES: Number = number!(1..=1000000, 1000);

pub const RETRIES: Number = number!(0..=1000000, 1000);

pub const IDLE: Number = number!(1..=86400, 60);

pub const REPLY_SECONDS: Number = number!(1..=86400, 60);

pub const MOMENTS: Number = number!(1..=1000, 64);

pub const RETRY: Number = number!(0..=1000000, 100);

pub const TIMEOUT: Number = number!(1..=86400, 30);

pub const SECONDS: Number = number!(1..=60, 5);

impl Number {
    /// The number of this name among the answers: within its range.
    pub fn of(&self, answers: &ArgMatches<'_>, name: &str) -> u64
        requires { self.now.least ≤ self.now.most }
        ensures least { self.now.least ≤ result }
        ensures most { result ≤ self.now.most }
    {
        let answer = answers.get_one::<u64>(name).unwrap_or(self.default);
        answer.clamp(self.least, self.most)
    }

    /// Whether the number is within its range.
    pub fn has(&self, number: u64) -> bool
        ensures { IsTrue result ↔ (self.now.least ≤ number) × (number ≤ self.now.most) }
    {
        self.least <= number && number <= self.most
    }
}
