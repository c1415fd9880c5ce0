//! What the words of a command line ask for.
ghost use Rattle.std.specs.Prelude.{◌≡◌, ◌∷◌, [], map, string_bytes, MatchOption};
ghost use Rattle.va_command.specs.Commands.{request_of};
ghost use Rattle.va_command.specs.Requests.{IsNoCommand, IsNoRequest, IsRequest};

/// What the words ask for.
#[derive(Clone, Copy, Debug)]
pub enum Command<'a> {
    /// The C text of this file.
    Compile(&'a str),
    /// The tables of this C file.
    Read(&'a str),
}

/// The file of a command, where the words are the command's and a file's.
fn file_of<'a>(words: &'a [String], command: &str) -> Option<&'a str>
    ensures { MatchOption result (IsNoCommand command.now (map string_bytes words.now))
        (λ file. map string_bytes words.now ≡ command.now ∷ file.now ∷ []) }
{
    if words.len() == 2 && words[0].as_str() == command {
        Some(words[1].as_str())
    } else {
        None
    }
}

/// The command that the words make.
#[tactic(auto, using(crate::proofs::Asking::no_request))]
pub fn command_of(words: &[String]) -> Option<Command<'_>>
    ensures { MatchOption result (IsNoRequest (map string_bytes words.now)) (λ command. IsRequest (map string_bytes words.now) (request_of command)) }
{
    if let Some(file) = file_of(words, "compile") {
        return Some(Command::Compile(file));
    }
    if let Some(file) = file_of(words, "read") {
        return Some(Command::Read(file));
    }
    None
}
