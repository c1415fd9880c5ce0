//! Tokens are read and given, one after another.
ghost use Rattle.std.specs.Prelude.{◌≡◌, length, None, IfOk};
ghost use Rattle.va_base.specs.declared.fault.Phase.TheVariants.{Expand};
ghost use Rattle.va_preproc.specs.declared.known.Known.{Known};
ghost use Rattle.va_preproc.specs.Reading as token_steps;
ghost use Rattle.va_preproc.specs.Reading.{read_some, give_where, own_place};
ghost use Rattle.va_preproc.specs.Values.{step_of, state_of, names_of, lexeme_in, lexemes_in};

use crate::answer::{Answer, given};
use crate::progress::Progress;
use va_base::{Fault, FaultCode, Phase, Place, Token, TokenKind};

/// The fault of this code at a place, after what was given so far.
pub fn fault_at(progress: &Progress, code: FaultCode, place: Place) -> Fault
    ensures { result ≡ record { phase = Expand; at = length progress.now.result.items; place = place; code = code } }
{
    Fault {
        phase: Phase::Expand,
        at: progress.result.len() as u32,
        place,
        code,
    }
}

/// One token is read, which is blamed at a place.
pub fn read_one(progress: &mut Progress, place: Place) -> Result<(), Fault>
    ensures { (k : Known) → token_steps.read_one place (state_of k progress.old) ≡ step_of (λ u. state_of k progress.new) (names_of k) result }
{
    if progress.unread == 0 {
        return Err(fault_at(progress, FaultCode::TokensMany, place));
    }
    progress.unread -= 1;
    Ok(())
}

/// The first `count` tokens of a list are read, each of which is blamed at its own place.
pub fn read_own(progress: &mut Progress, tokens: &[Token], count: usize) -> Result<(), Fault>
    ensures { (k : Known) →
        read_some own_place count (lexemes_in k.files.items tokens.now) (state_of k progress.old)
        ≡ step_of (λ u. state_of k progress.new) (names_of k) result }
{
    let count = count.min(tokens.len());
    let unread = progress.unread as usize;
    if unread < count {
        let place = tokens[unread].place;
        return Err(fault_at(progress, FaultCode::TokensMany, place));
    }
    progress.unread -= count as u32;
    Ok(())
}

/// The same, all of which are blamed at one place.
pub fn read_at(
    progress: &mut Progress,
    place: Place,
    tokens: &[Token],
    count: usize,
) -> Result<(), Fault>
    ensures { (k : Known) →
        read_some (λ t. place) count (lexemes_in k.files.items tokens.now) (state_of k progress.old)
        ≡ step_of (λ u. state_of k progress.new) (names_of k) result }
{
    let count = count.min(tokens.len());
    if (progress.unread as usize) < count {
        return Err(fault_at(progress, FaultCode::TokensMany, place));
    }
    progress.unread -= count as u32;
    Ok(())
}

/// A token is put at the end of the result, at a place. The result takes no more than it may, and no Bad one.
fn give_to_result(progress: &mut Progress, place: Place, token: &Token) -> Answer<()>
    ensures { (k : Known) → IfOk result (λ answer.
        give_where None progress.old.free (lexeme_in k.files.items token.now) place (state_of k progress.old)
        ≡ step_of (λ u. state_of k progress.new) (names_of k) answer) }
{
    if progress.free == 0 {
        return Ok(Err(fault_at(progress, FaultCode::TokensMany, place)));
    }
    if token.kind == TokenKind::Bad {
        return Ok(Err(fault_at(progress, FaultCode::BadToken, place)));
    }
    progress.free -= 1;
    progress.result.push(Token { place, ..*token })?;
    Ok(Ok(()))
}

/// A token is given to the argument that is expanded, or else to the result, where it has the place.
pub fn give(progress: &mut Progress, place: Place, token: &Token) -> Answer<()>
    ensures { (k : Known) → IfOk result (λ answer.
        token_steps.give place (lexeme_in k.files.items token.now) (state_of k progress.old)
        ≡ step_of (λ u. state_of k progress.new) (names_of k) answer) }
{
    let Some(mut given) = progress.argument.take() else {
        let answer = give_to_result(progress, place, token)?;
        return Ok(answer);
    };
    given.push(*token)?;
    progress.argument = Some(given);
    Ok(Ok(()))
}

/// Tokens that a formal gives: each is read and given.
pub fn give_all(progress: &mut Progress, place: Place, tokens: &[Token]) -> Answer<()>
    ensures { (k : Known) → IfOk result (λ answer.
        token_steps.give_all place (lexemes_in k.files.items tokens.now) (state_of k progress.old)
        ≡ step_of (λ u. state_of k progress.new) (names_of k) answer) }
{
    for token in tokens {
        given!(read_one(progress, place));
        given!(give(progress, place, token)?);
    }
    Ok(Ok(()))
}
