// A file that is to be linked.

/// An object file: its name, for messages, and its bytes.
#[derive(Debug, Drop)]
pub struct FileBytes {
    /// The name that was given for it.
    pub name: String,
    /// Its bytes.
    pub bytes: Vec<u8>,
}
