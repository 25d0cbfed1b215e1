//! Worked examples of traces as text.
mod events;
mod picture;
mod printed;
