//! The file in which a fault stands.
ghost use Rattle.std.specs.Prelude.{◌≡◌};
ghost use Rattle.va_command.specs.Faults as faults;

use va_base::FileText;

/// The name of a file by its number, empty where there is none of this number.
pub fn file_name(files: &[FileText], number: u32) -> &[u8]
    ensures { result.now ≡ faults.file_name files.now number }
{
    match files.get(number as usize) {
        Some(file) => file.name.as_bytes(),
        None => &[],
    }
}
