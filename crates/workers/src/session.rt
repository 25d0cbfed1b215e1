//! A session that comes to a worker.
ghost use Rattle.std.specs.Prelude.{◌≤◌};

/// A client's reader and writer, how many reads may be made of it, and its port, if it has one.
#[derive(Drop)]
pub struct Session<R, W> {
    pub reader: R,
    pub writer: W,
    pub turns: u64,
    pub peer: Option<u16>,
    pub ghost few: { turns ≤ 1000000000 },
}
