//! The least token that is blamed.
ghost use Rattle.std.specs.Prelude.{◌≡◌, ◌∷◌, ◌++◌, ℕ, List, [], if◌then◌else◌};
ghost use Rattle.c_tree.specs.Form.{least_of};
ghost use Rattle.c_form.specs.Blames as blames;

/// Blames a token.
pub fn blame(least: &mut Option<usize>, at: usize)
    ensures { blames.Blames least.old least.new (at ∷ []) }
{
    *least = match *least {
        Some(token) => Some(token.min(at)),
        None => Some(at),
    };
}

/// Blames a token where something does not hold that should.
pub fn blame_unless(least: &mut Option<usize>, holds: bool, at: usize)
    ensures { blames.Blames least.old least.new (if holds then [] else at ∷ []) }
{
    if !holds {
        blame(least, at);
    }
}

fn lesser(first: Option<usize>, second: Option<usize>) -> Option<usize>
    ensures { result ≡ blames.lesser first second }
{
    match (first, second) {
        (Some(token), Some(other)) => Some(token.min(other)),
        (Some(token), None) => Some(token),
        (None, other) => other,
    }
}

/// The lesser of two tokens, where they are there: the least token of two lists, by the least one of each.
pub fn earlier(first: Option<usize>, second: Option<usize>) -> Option<usize>
    ensures { (left right : List ℕ) → first ≡ least_of left → second ≡ least_of right → result ≡ least_of (left ++ right) }
{
    lesser(first, second)
}
