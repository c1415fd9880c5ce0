//! How far the settings of a declared local have come, and what is due of it in the open blocks.
ghost use Rattle.std.specs.Prelude.{◌≡◌, ◌-◌};
ghost use Rattle.c_form_settings.specs.States as states;

use crate::duty::Duty;

/// How far the settings of a local have come.
#[derive(Clone, Copy, Drop)]
pub enum State {
    /// It isn't set any more.
    Settled,
    /// It has no value yet, and waits for the next `if` of its block.
    AwaitsChoice,
    /// It is to be set in the first arm of that `if`.
    FirstArm,
    /// It was set there.
    FirstArmSet,
    /// It is to be set in the second arm.
    SecondArm,
    /// It was set there.
    SecondArmSet,
    /// It has its first value, and waits for the next `for` of its block.
    AwaitsLoop,
    /// The block of that `for` is open, before the `break`.
    BeforeBreak,
    /// It is to be set behind the `break`.
    BehindBreak,
    /// The block of its declaration has ended.
    Gone,
}

/// A declared local.
#[derive(Clone, Copy, Drop)]
pub struct Local {
    /// How many blocks are open around the block of its declaration.
    pub base: usize,
    pub state: State,
}

/// What the settings of locals depend on.
#[derive(Clone, Copy, Drop)]
pub enum Event {
    /// An `if` opens its two arms.
    Choice,
    /// A `for` opens its block.
    Loop,
    Break,
    /// A block ends.
    Close,
    /// The local is set.
    Set,
}

/// In how many of the open blocks, from that of the declaration on, something is due that is due in no block inside them.
fn size(state: State) -> usize
    ensures { result ≡ states.size state }
{
    match state {
        State::Settled | State::AwaitsChoice | State::AwaitsLoop => 1,
        State::FirstArm | State::FirstArmSet => 3,
        State::SecondArm | State::SecondArmSet => 2,
        State::BeforeBreak | State::BehindBreak => 2,
        State::Gone => 0,
    }
}

/// What is due in the innermost of these blocks.
fn inmost(state: State) -> Duty
    ensures { result ≡ states.inmost state }
{
    match state {
        State::AwaitsChoice => Duty::Join,
        State::FirstArm | State::SecondArm => Duty::Arm,
        State::FirstArmSet | State::SecondArmSet => Duty::Untouched,
        State::AwaitsLoop => Duty::Head,
        State::BeforeBreak => Duty::Turn,
        State::BehindBreak => Duty::Behind,
        State::Settled | State::Gone => Duty::Unset,
    }
}

/// What is due in the blocks inside these.
fn further(state: State) -> Duty
    ensures { result ≡ states.further state }
{
    match state {
        State::AwaitsChoice
        | State::FirstArm
        | State::FirstArmSet
        | State::SecondArm
        | State::SecondArmSet => Duty::Untouched,
        _ => Duty::Unset,
    }
}

fn behind_choice(state: State) -> State
    ensures { result ≡ states.at_choice state }
{
    match state {
        State::AwaitsChoice => State::FirstArm,
        _ => state,
    }
}

fn behind_loop(state: State) -> State
    ensures { result ≡ states.at_loop state }
{
    match state {
        State::AwaitsLoop => State::BeforeBreak,
        _ => state,
    }
}

fn behind_break(state: State) -> State
    ensures { result ≡ states.at_break state }
{
    match state {
        State::BeforeBreak => State::BehindBreak,
        _ => state,
    }
}

fn behind_end(state: State) -> State
    ensures { result ≡ states.at_end state }
{
    match state {
        State::Settled | State::AwaitsChoice | State::AwaitsLoop | State::Gone => State::Gone,
        State::FirstArm | State::FirstArmSet => State::SecondArm,
        State::SecondArm | State::SecondArmSet => State::Settled,
        State::BeforeBreak | State::BehindBreak => State::Settled,
    }
}

fn behind_setting(state: State) -> State
    ensures { result ≡ states.at_setting state }
{
    match state {
        State::FirstArm => State::FirstArmSet,
        State::SecondArm => State::SecondArmSet,
        State::BehindBreak => State::Settled,
        _ => state,
    }
}

/// The state behind something that happens in the innermost block in which something of its own is due.
fn becomes(event: Event, state: State) -> State
    ensures { result ≡ states.becomes event state }
{
    match event {
        Event::Choice => behind_choice(state),
        Event::Loop => behind_loop(state),
        Event::Break => behind_break(state),
        Event::Close => behind_end(state),
        Event::Set => behind_setting(state),
    }
}

/// The innermost of so many open blocks is the one in which something of its own is due.
fn is_here(local: Local, depth: usize) -> bool
    ensures { result ≡ states.here (depth - local.base) local.state }
{
    let opened = depth.saturating_sub(local.base);
    opened == size(local.state)
}

/// What is due in the innermost of so many open blocks.
pub fn duty_here(local: Local, depth: usize) -> Duty
    ensures { result ≡ states.due_here (depth - local.base) local.state }
{
    if is_here(local, depth) {
        inmost(local.state)
    } else {
        further(local.state)
    }
}

/// The local behind something that happens in the innermost of so many open blocks.
pub fn next(event: Event, depth: usize, local: Local) -> Local
    ensures { result ≡ states.next event depth local }
{
    if is_here(local, depth) {
        Local {
            base: local.base,
            state: becomes(event, local.state),
        }
    } else {
        local
    }
}
