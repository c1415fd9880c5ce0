//! Files as values.
use crate::items::Items;
use crate::name::Name;

/// The name under which a file is asked for, and its bytes.
#[derive(Debug, Drop)]
pub struct FileText {
    pub name: Name,
    pub bytes: Items<u8>,
}
