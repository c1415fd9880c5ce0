//! The locals that statements declare.
ghost use Rattle.std.specs.Prelude.{◌≡◌, IfSome};
ghost use Rattle.c_form_settings.specs.States.{size};
ghost use Rattle.c_form_settings.specs.Walks.{start_of};

use crate::state::State;
use c_raw::RawSimple;

/// A local that a statement declares, and what its settings wait for.
#[derive(Clone, Copy, Drop)]
pub struct Start {
    pub number: u32,
    pub state: State,
}

/// The local that a statement declares, if it is a declaration.
pub fn declared(statement: &RawSimple) -> Option<Start>
    ensures start { result ≡ start_of statement.now }
    ensures fresh { IfSome result (λ start. size start.state ≡ 1) }
{
    let (local, state) = match statement {
        RawSimple::Constant { local, .. } => (local, State::Settled),
        RawSimple::Join { local, .. } => (local, State::AwaitsChoice),
        RawSimple::Head { local, .. } => (local, State::AwaitsLoop),
        _ => return None,
    };
    Some(Start {
        number: local.value,
        state,
    })
}
