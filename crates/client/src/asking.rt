//! How a server is asked.

/// What replies are shown as.
#[derive(Clone, Copy)]
pub enum Form {
    /// A line for each reply.
    Lines,
    /// A line for each reply, but of a reply that is all text only that: of the bundle that a get found, and of counts.
    Texts,
    /// The frames as they came, so that those of a fetch are a dump.
    Frames,
}

/// How a server is asked.
#[derive(Clone, Copy)]
pub struct Asking {
    pub form: Form,
    /// How often a request is asked again whose reply is that memory ran out, that a shard was moved, or that it was held: such a
    /// request has changed nothing.
    pub retries: u32,
}
