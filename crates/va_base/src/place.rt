//! Places in files.

/// Where something stands: the file's number (0 is the main file), then the line and the column, both from 1. A column counts bytes.
#[derive(Clone, Copy, Debug, PartialEq, Eq)]
pub struct Place {
    pub file: u32,
    pub line: u32,
    pub col: u32,
}
