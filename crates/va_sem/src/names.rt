//! The names of a text and what each of them means.
use va_base::{Items, Name};

/// The names of a text.
#[derive(Drop)]
pub struct Names {
    /// Of each module, in the order of `Source`.
    pub modules: Items<ModuleNames>,
    /// The names in natures and disciplines that have a meaning, in order of `at`.
    pub uses: Items<NameUse>,
}

/// The names of a module. A thing's number is its place in its list.
#[derive(Drop)]
pub struct ModuleNames {
    /// The ports in the order of the header, then the other nodes in order of declaration.
    pub nodes: Items<NodeName>,
    /// How many of the nodes are ports.
    pub ports: u32,
    /// In order of the token at which a named branch is declared, or an unnamed one is first used (Branches).
    pub branches: Items<BranchName>,
    /// The parameters, local ones too, in order of declaration (Parameters).
    pub params: Items<Name>,
    /// The variables of the module, of its blocks and of its functions in order of declaration. A function's result is one, at
    /// the function's name, and so is each argument, at its name after `input`.
    pub vars: Items<Name>,
    /// In order of declaration (User-defined analog functions).
    pub functions: Items<Name>,
    /// The names in the module that have a meaning, declared ones too, in order of `at`.
    pub uses: Items<NameUse>,
}

/// A node, and the number of its discipline in `Source`.
#[derive(Drop)]
pub struct NodeName {
    pub name: Name,
    pub discipline: u32,
}

/// A branch from a node to a node, or to the reference node where `minus` is missing. A branch without a name is that of its
/// pair of nodes, in the direction of its first use (Branches, Signal access functions).
#[derive(Drop)]
pub struct BranchName {
    pub plus: u32,
    pub minus: Option<u32>,
    pub name: Option<Name>,
}

/// The token at which a name stands, and what it means there.
#[derive(Clone, Copy, Debug, PartialEq, Eq)]
pub struct NameUse {
    pub at: u32,
    pub meaning: Meaning,
}

/// What a name means. The numbers of a nature, a discipline and a module are their places in the lists of `Source`, that of a
/// built-in function its row in the table of built-ins, from 1 on; each other one is a place in a list of `ModuleNames`.
#[derive(Clone, Copy, Debug, PartialEq, Eq)]
pub enum Meaning {
    Node(u32),
    Branch(u32),
    /// A parameter, under its own name or an alias.
    Param(u32),
    Var(u32),
    Function(u32),
    Discipline(u32),
    Nature(u32),
    Module(u32),
    Builtin(u32),
    /// The potential or the flow of a branch, with its sign turned where the access names the two nodes the other way round
    /// (Signal access functions).
    Access {
        branch: u32,
        turned: bool,
        flow: bool,
    },
}
