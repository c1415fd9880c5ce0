//! Each body of a raw tree is one block, as the rules need it.
ghost use Rattle.std.specs.Prelude.{◌≡◌, ◌<◌, ◌^◌};
ghost use Rattle.std.specs.List.{list_all};
ghost use Rattle.c_raw.specs.Blocks.{is_body};
ghost use Rattle.c_raw.specs.Views.{has_bodies, module_has_bodies};
ghost use Rattle.c_raw.specs.declared.file.RawFunction as spec_function;
ghost use Rattle.c_form.specs.OpenBlocks as open_blocks;

use c_raw::{RawFile, RawFunction, RawModule, RawStatement};

/// How many blocks are open behind a statement, where so many are open around the innermost one.
fn open_behind(around: u128, statement: &RawStatement) -> u128
    requires { around < 2 ^ 100 }
    ensures { result ≡ open_blocks.open_behind around statement.now }
{
    match statement {
        RawStatement::Simple(_) => around + 1,
        RawStatement::Leave { .. } => around + 1,
        RawStatement::If { .. } => around + 3,
        RawStatement::For => around + 2,
        RawStatement::End { .. } => around,
    }
}

fn is_one_block(list: &[RawStatement]) -> bool
    ensures { result ≡ is_body list.now }
{
    let mut blocks: u128 = 1;
    for statement in list {
        if blocks == 0 {
            return false;
        }
        blocks = open_behind(blocks - 1, statement);
    }
    blocks == 0
}

fn functions_closed(list: &[RawFunction]) -> bool
    ensures { result ≡ list_all (λ f. is_body (spec_function.RawFunction.body f)) list.now }
{
    for function in list {
        if !is_one_block(function.body.as_list()) {
            return false;
        }
    }
    true
}

fn module_closed(tree: &RawModule) -> bool
    ensures { result ≡ module_has_bodies tree.now }
{
    functions_closed(tree.functions.as_list())
        && is_one_block(tree.setup_model.as_list())
        && is_one_block(tree.setup_instance.as_list())
        && is_one_block(tree.eval.as_list())
}

/// Whether each body of a raw tree is one block, with nothing behind its end. The raw tree of a text has such bodies.
pub fn bodies_closed(raw: &RawFile) -> bool
    ensures { result ≡ has_bodies raw.now }
{
    for tree in raw.modules.as_list() {
        if !module_closed(tree) {
            return false;
        }
    }
    true
}
