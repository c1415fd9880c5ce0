//! The types of expressions.
use alg_laws::Ty;
use va_base::Items;

/// The type of each expression of a text, in pre-order: each before those in it, of natures, then disciplines, then modules, and
/// of each its attributes first. An expression that has no type is real here.
#[derive(Drop)]
pub struct Typed {
    pub exprs: Items<Ty>,
}
