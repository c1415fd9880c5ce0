//! Reading load functions.
ghost use Rattle.std.specs.Prelude.{◌≡◌, IfOk, map, [], ◌∷◌};
ghost use Rattle.c_raw.specs.Blocks.{at_view};
ghost use Rattle.c_raw.specs.Views.{load_view, loads_view};
ghost use Rattle.c_raw_build.specs.Due.{AreDueIn, IsDue, IsDueIn};
ghost use Rattle.c_raw_build.specs.Nonterminals as nonterminals;
ghost use Rattle.c_raw_build.specs.Reading.{Reads, ReadsSecond};
ghost use Rattle.c_raw_build.specs.RawTables as raw;

use crate::atoms::{field, node_number, number};
use crate::headers::instance;
use crate::reader::Reader;
use crate::row;
use crate::text::Text;
use c_raw::{At, RawLoad, RawLoads};
use c_tree::{LoadFactor, LoadSign, LoadTarget};
use std::alloc::{AllocError, Global};
use va_base::Items;

/// The matrix's place for an entry, in `* inst -> jr [ 1u ]`.
fn matrix_target(text: &Text<'_>, reader: &mut Reader<'_>) -> LoadTarget
    requires { IsDueIn text.now (nonterminals.matrix_target ∷ []) reader.old }
    ensures { Reads (raw.matrix_target text.now) reader.old reader.new result }
{
    let row = reader.row();
    reader.pass(2);
    let entry = number(text, reader);
    reader.pass(1);
    match row {
        row::RESIST_TARGET => LoadTarget::EntryResist(entry),
        row::REACT_TARGET => LoadTarget::EntryReact(entry),
        _ => unreachable!(),
    }
}

/// Where a load adds.
fn target(text: &Text<'_>, reader: &mut Reader<'_>) -> LoadTarget
    requires { IsDueIn text.now (nonterminals.load_target ∷ []) reader.old }
    ensures { Reads (raw.target_of text.now) reader.old reader.new result }
{
    match reader.row() {
        row::NODE_TARGET => {
            reader.pass(2);
            let node = node_number(text, reader);
            reader.pass(1);
            LoadTarget::Node(node)
        }
        row::MATRIX_TARGET => {
            reader.pass(3);
            matrix_target(text, reader)
        }
        _ => unreachable!(),
    }
}

/// `=`, `+=` or `-=`.
fn sign(reader: &mut Reader<'_>) -> LoadSign
    requires { IsDue (nonterminals.load_sign ∷ []) reader.old }
    ensures { Reads raw.sign_of reader.old reader.new result }
{
    let row = reader.row();
    reader.pass(1);
    match row {
        row::PUT => LoadSign::Put,
        row::ADD => LoadSign::Add,
        row::SUBTRACT => LoadSign::Subtract,
        _ => unreachable!(),
    }
}

/// A factor.
fn factor(text: &Text<'_>, reader: &mut Reader<'_>) -> LoadFactor
    requires { IsDueIn text.now (nonterminals.factor ∷ []) reader.old }
    ensures { Reads (raw.factor_of text.now) reader.old reader.new result }
{
    match reader.row() {
        row::ALPHA => {
            reader.pass(1);
            LoadFactor::Alpha
        }
        row::CELL_FACTOR => {
            reader.pass(2);
            let field = field(text, reader);
            LoadFactor::Cell(field)
        }
        row::SOLUTION_FACTOR => {
            reader.pass(2);
            let node = node_number(text, reader);
            reader.pass(1);
            LoadFactor::Solution(node)
        }
        _ => unreachable!(),
    }
}

/// A factor, with the index of its first token.
fn placed_factor(text: &Text<'_>, reader: &mut Reader<'_>) -> At<LoadFactor>
    requires { IsDueIn text.now (nonterminals.factor ∷ []) reader.old }
    ensures { Reads (raw.placed_factor text.now) reader.old reader.new (at_view result) }
{
    let at = reader.at();
    let value = factor(text, reader);
    At { at, value }
}

/// The factors behind the first.
fn more_factors(
    alloc: Global,
    text: &Text<'_>,
    reader: &mut Reader<'_>,
) -> Result<Vec<At<LoadFactor>>, AllocError>
    requires { IsDueIn text.now (nonterminals.more_factors ∷ []) reader.old }
    ensures { IfOk result (λ v. Reads (raw.more_factors text.now) reader.old reader.new (map at_view v.items)) }
{
    let mut list = Vec::new(alloc);
    loop {
        match reader.row() {
            row::MORE_FACTORS => {
                reader.pass(1);
                let next = placed_factor(text, reader);
                list.push(next)?;
            }
            row::NO_MORE_FACTORS => return Ok(list),
            _ => unreachable!(),
        }
    }
}

/// The statements of a load function.
fn load_statements(
    alloc: Global,
    text: &Text<'_>,
    reader: &mut Reader<'_>,
) -> Result<Vec<RawLoad>, AllocError>
    requires { IsDueIn text.now (nonterminals.load_statements ∷ []) reader.old }
    ensures { IfOk result (λ v. Reads (raw.load_statements text.now) reader.old reader.new (map load_view v.items)) }
{
    let mut list = Vec::new(alloc);
    loop {
        match reader.row() {
            row::LOAD => {
                let at = reader.at();
                let target = target(text, reader);
                let sign = sign(reader);
                let first = placed_factor(text, reader);
                let more = more_factors(alloc, text, reader)?;
                reader.pass(1);
                list.push(load(at, target, sign, first, more))?;
            }
            row::NO_LOAD => return Ok(list),
            _ => unreachable!(),
        }
    }
}

/// A statement of a load function, whose target begins at `at`.
fn load(
    at: u32,
    target: LoadTarget,
    sign: LoadSign,
    first: At<LoadFactor>,
    more: Vec<At<LoadFactor>>,
) -> RawLoad
    ensures target { (load_view result).target ≡ record { at = at; value = target } }
    ensures sign { (load_view result).sign ≡ sign }
    ensures first { (load_view result).first ≡ at_view first }
    ensures more { (load_view result).more ≡ map at_view more.items }
{
    RawLoad {
        target: At { at, value: target },
        sign,
        first,
        more: Items::new(more),
    }
}

/// What stands behind the opening brace of a load function: the instance, the statements, and the closing brace.
fn load_body(
    alloc: Global,
    text: &Text<'_>,
    reader: &mut Reader<'_>,
) -> Result<Vec<RawLoad>, AllocError>
    requires { AreDueIn text.now nonterminals.load_body reader.old }
    ensures { IfOk result (λ v. ReadsSecond (raw.load_statements text.now) reader.old reader.new (map load_view v.items)) }
{
    instance(reader);
    let list = load_statements(alloc, text, reader)?;
    reader.pass(1);
    Ok(list)
}

/// A load function.
fn load_function(
    alloc: Global,
    text: &Text<'_>,
    reader: &mut Reader<'_>,
) -> Result<Vec<RawLoad>, AllocError>
    requires { IsDueIn text.now nonterminals.load_functions reader.old }
    ensures { IfOk result (λ v. Reads (raw.load_function text.now) reader.old reader.new (map load_view v.items)) }
{
    match reader.row() {
        row::RESIDUAL_RESIST => {
            reader.pass(17);
            load_body(alloc, text, reader)
        }
        row::RESIDUAL_REACT => {
            reader.pass(17);
            load_body(alloc, text, reader)
        }
        row::JACOBIAN_RESIST => {
            reader.pass(13);
            load_body(alloc, text, reader)
        }
        row::JACOBIAN_REACT => {
            reader.pass(16);
            load_body(alloc, text, reader)
        }
        row::JACOBIAN_TRAN => {
            reader.pass(16);
            load_body(alloc, text, reader)
        }
        row::SPICE_RHS_DC => {
            reader.pass(21);
            load_body(alloc, text, reader)
        }
        row::SPICE_RHS_TRAN => {
            reader.pass(24);
            load_body(alloc, text, reader)
        }
        _ => unreachable!(),
    }
}

/// The load functions.
pub(crate) fn loads(
    alloc: Global,
    text: &Text<'_>,
    reader: &mut Reader<'_>,
) -> Result<RawLoads, AllocError>
    requires { IsDueIn text.now (nonterminals.loads ∷ []) reader.old }
    ensures { IfOk result (λ v. Reads (raw.loads text.now) reader.old reader.new (loads_view v)) }
{
    reader.take(row::LOADS);
    let residual_resist = load_function(alloc, text, reader)?;
    let residual_react = load_function(alloc, text, reader)?;
    let jacobian_resist = load_function(alloc, text, reader)?;
    let jacobian_react = load_function(alloc, text, reader)?;
    let jacobian_tran = load_function(alloc, text, reader)?;
    let spice_rhs_dc = load_function(alloc, text, reader)?;
    let spice_rhs_tran = load_function(alloc, text, reader)?;
    Ok(RawLoads {
        residual_resist: Items::new(residual_resist),
        residual_react: Items::new(residual_react),
        jacobian_resist: Items::new(jacobian_resist),
        jacobian_react: Items::new(jacobian_react),
        jacobian_tran: Items::new(jacobian_tran),
        spice_rhs_dc: Items::new(spice_rhs_dc),
        spice_rhs_tran: Items::new(spice_rhs_tran),
    })
}
