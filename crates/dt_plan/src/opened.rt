//! What is opened on paths.

/// The scratch of a tensor, or all workspaces, with so many words.
#[derive(Clone, Copy, Debug)]
pub enum Opened {
    Scratch(u32),
    Works(u64),
}
