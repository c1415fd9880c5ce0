//! What is due of a local in an open block.
ghost use Rattle.std.specs.Prelude.{◌≡◌};
ghost use Rattle.c_form_settings.specs.Duties as duties;

/// What is due of a local in an open block, from a place in it on.
#[derive(Clone, Copy, Drop)]
pub enum Duty {
    /// It is not set.
    Unset,
    /// It is neither read nor set.
    Untouched,
    /// An arm of the `if` that a local without a value waited for: it is set once, and not read.
    Arm,
    /// The block of the `for` that a local with a value waited for, before the `break`: it is set once behind it.
    Turn,
    /// The same block behind the `break`: it is set once.
    Behind,
    /// The block of a local that was declared without a value, before its `if`: it is neither read nor set.
    Join,
    /// The block of a local that was declared with a value, before its `for`: it is not set.
    Head,
}

/// It is not to be read.
pub fn is_unread(duty: Duty) -> bool
    ensures { result ≡ duties.is_unread duty }
{
    matches!(duty, Duty::Untouched | Duty::Arm | Duty::Join)
}

/// It is to be set here.
pub fn wants_setting(duty: Duty) -> bool
    ensures { result ≡ duties.wants_setting duty }
{
    matches!(duty, Duty::Arm | Duty::Behind)
}

/// A setting is missing where the block ends.
pub fn lacks_setting(duty: Duty) -> bool
    ensures { result ≡ duties.lacks_setting duty }
{
    !matches!(duty, Duty::Unset | Duty::Untouched)
}
