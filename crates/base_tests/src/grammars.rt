//! Three small grammars. `specs/Examples.antt` of `predict` has them as tables, with what shows their laws.
use predict::{Grammar, Symbol};

/// `E = S`, `S = a S b | .`
pub(crate) struct Pairs;

impl Grammar for Pairs {
    ghost use Rattle.std.specs.Prelude.{refl};
    ghost use Rattle.predict.specs.Table.{rules_of, table_open};
    ghost use Rattle.predict.specs.TableLaws.{table_no_left_recursion, table_no_dead_end};
    ghost use Rattle.predict.specs.Examples.{pairs, pairs_evidence};

    ghost rules = { λ _. rules_of pairs };

    ghost rank = { λ _. pairs_evidence.rank };

    ghost empty = { λ _. pairs_evidence.empty };

    ghost is_open = { λ _. table_open pairs pairs_evidence };

    ghost no_left_recursion = { λ _. table_no_left_recursion pairs pairs_evidence refl };

    ghost no_dead_end = { λ _. table_no_dead_end pairs pairs_evidence refl };

    fn start(&self) -> u16 {
        0
    }

    fn end_kind(&self) -> u16 {
        0
    }

    fn row(&self, left: u16, next: u16) -> Option<u16> {
        match (left, next) {
            (0, 0 | 1) => Some(0),
            (1, 1) => Some(1),
            (1, 0 | 2) => Some(2),
            _ => None,
        }
    }

    fn count(&self, row: u16) -> usize {
        match row {
            0 => 1,
            1 => 3,
            _ => 0,
        }
    }

    fn symbol(&self, row: u16, i: usize) -> Symbol {
        match (row, i) {
            (0, _) => Symbol::Left(1),
            (_, 0) => Symbol::Kind(1),
            (_, 1) => Symbol::Left(1),
            _ => Symbol::Kind(2),
        }
    }
}

/// `Stmt = if Stmt Else | ;`, `Else = else Stmt | .`
pub(crate) struct Branches;

impl Grammar for Branches {
    ghost use Rattle.std.specs.Prelude.{refl};
    ghost use Rattle.predict.specs.Table.{rules_of, table_open};
    ghost use Rattle.predict.specs.TableLaws.{table_no_left_recursion, table_no_dead_end};
    ghost use Rattle.predict.specs.Examples.{branches, branches_evidence};

    ghost rules = { λ _. rules_of branches };

    ghost rank = { λ _. branches_evidence.rank };

    ghost empty = { λ _. branches_evidence.empty };

    ghost is_open = { λ _. table_open branches branches_evidence };

    ghost no_left_recursion = { λ _. table_no_left_recursion branches branches_evidence refl };

    ghost no_dead_end = { λ _. table_no_dead_end branches branches_evidence refl };

    fn start(&self) -> u16 {
        0
    }

    fn end_kind(&self) -> u16 {
        0
    }

    fn row(&self, left: u16, next: u16) -> Option<u16> {
        match (left, next) {
            (0, 1) => Some(0),
            (0, 3) => Some(1),
            (1, 2) => Some(2),
            (1, 0) => Some(3),
            _ => None,
        }
    }

    fn count(&self, row: u16) -> usize {
        match row {
            0 => 3,
            1 => 1,
            2 => 2,
            _ => 0,
        }
    }

    fn symbol(&self, row: u16, i: usize) -> Symbol {
        match (row, i) {
            (0, 0) => Symbol::Kind(1),
            (0, 1) => Symbol::Left(0),
            (0, _) => Symbol::Left(1),
            (1, _) => Symbol::Kind(3),
            (_, 0) => Symbol::Kind(2),
            _ => Symbol::Left(0),
        }
    }
}

/// `L = A B c L | .`, `A = a | .`, `B = b A | .`
pub(crate) struct Groups;

impl Grammar for Groups {
    ghost use Rattle.std.specs.Prelude.{refl};
    ghost use Rattle.predict.specs.Table.{rules_of, table_open};
    ghost use Rattle.predict.specs.TableLaws.{table_no_left_recursion, table_no_dead_end};
    ghost use Rattle.predict.specs.Examples.{groups, groups_evidence};

    ghost rules = { λ _. rules_of groups };

    ghost rank = { λ _. groups_evidence.rank };

    ghost empty = { λ _. groups_evidence.empty };

    ghost is_open = { λ _. table_open groups groups_evidence };

    ghost no_left_recursion = { λ _. table_no_left_recursion groups groups_evidence refl };

    ghost no_dead_end = { λ _. table_no_dead_end groups groups_evidence refl };

    fn start(&self) -> u16 {
        0
    }

    fn end_kind(&self) -> u16 {
        0
    }

    fn row(&self, left: u16, next: u16) -> Option<u16> {
        match (left, next) {
            (0, 1 | 2 | 3) => Some(0),
            (0, 0) => Some(1),
            (1, 1) => Some(2),
            (1, 2 | 3) => Some(3),
            (2, 2) => Some(4),
            (2, 3) => Some(5),
            _ => None,
        }
    }

    fn count(&self, row: u16) -> usize {
        match row {
            0 => 4,
            2 => 1,
            4 => 2,
            _ => 0,
        }
    }

    fn symbol(&self, row: u16, i: usize) -> Symbol {
        match (row, i) {
            (0, 0) => Symbol::Left(1),
            (0, 1) => Symbol::Left(2),
            (0, 2) => Symbol::Kind(3),
            (0, _) => Symbol::Left(0),
            (2, _) => Symbol::Kind(1),
            (_, 0) => Symbol::Kind(2),
            _ => Symbol::Left(1),
        }
    }
}
