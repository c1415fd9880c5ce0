//! The whole text, natures and disciplines.
use crate::expr::Arg;
use crate::module::Module;
use crate::name::NameAt;
use va_base::{Items, Name};

/// A text: its natures, its disciplines and its modules, each in the order of the text.
#[derive(Debug, Drop)]
pub struct Source {
    pub natures: Items<Nature>,
    pub disciplines: Items<Discipline>,
    pub modules: Items<Module>,
}

/// `nature name : parent; items endnature`, and the attributes before it. The parent and its `:` may be missing. `at` is the
/// index of the name (Natures).
#[derive(Debug, Drop)]
pub struct Nature {
    pub attributes: Items<AttributeGroup>,
    pub at: u32,
    pub name: Name,
    pub parent: Option<NameAt>,
    pub items: Items<NatureItem>,
}

/// `name = value;`. `at` is the index of the name.
#[derive(Debug, Drop)]
pub struct NatureItem {
    pub at: u32,
    pub name: Name,
    pub value: Arg,
}

/// `discipline name; items enddiscipline`, and the attributes before it. `at` is the index of the name (Disciplines).
#[derive(Debug, Drop)]
pub struct Discipline {
    pub attributes: Items<AttributeGroup>,
    pub at: u32,
    pub name: Name,
    pub items: Items<DisciplineItem>,
}

/// Which of its two natures a discipline speaks of.
#[derive(Clone, Copy, Debug, PartialEq, Eq)]
pub enum Quantity {
    Potential,
    Flow,
}

/// An item of a discipline (Disciplines). `at` is the index of its first token.
#[derive(Debug, Drop)]
pub enum DisciplineItem {
    /// `potential nature;` or `flow nature;`
    Binding {
        at: u32,
        quantity: Quantity,
        nature: NameAt,
    },
    /// `potential.name = value;` or `flow.name = value;`
    Override {
        at: u32,
        quantity: Quantity,
        name: NameAt,
        value: Arg,
    },
    /// `domain name;`
    Domain {
        at: u32,
        name: NameAt,
    },
}

/// What stands between one `(*` and its `*)`: one or more attributes.
#[derive(Debug, Drop)]
pub struct AttributeGroup {
    pub attributes: Items<Attribute>,
}

/// `name = value`, or a name alone. `at` is the index of the name.
#[derive(Debug, Drop)]
pub struct Attribute {
    pub at: u32,
    pub name: Name,
    pub value: Option<Arg>,
}
