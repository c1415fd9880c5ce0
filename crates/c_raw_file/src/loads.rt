//! Load functions.
ghost use Rattle.std.specs.Prelude.{◌≡◌, IfOk, map};
ghost use Rattle.c_tree.specs.Raw as raw_tree;
ghost use Rattle.c_tree.specs.FileOf.{load_of, loads_of_raw};
ghost use Rattle.c_raw.specs.Blocks.{at_view};
ghost use Rattle.c_raw.specs.Views.{load_view, loads_view};

use c_raw::{At, RawLoad, RawLoads};
use c_tree::{CLoad, CLoads, LoadFactor};
use std::alloc::{AllocError, Global};
use va_base::Items;

fn factors(alloc: Global, raw: &[At<LoadFactor>]) -> Result<Items<LoadFactor>, AllocError>
    ensures { IfOk result (λ v. v ≡ map (λ factor. raw_tree.At.value factor) (map at_view raw.now)) }
{
    let mut list = Vec::new(alloc);
    for element in raw {
        list.push(element.value)?;
    }
    Ok(Items::new(list))
}

fn load(alloc: Global, raw: &RawLoad) -> Result<CLoad, AllocError>
    ensures { IfOk result (λ v. v ≡ load_of (load_view raw.now)) }
{
    let more = factors(alloc, raw.more.as_list())?;
    Ok(CLoad {
        target: raw.target.value,
        sign: raw.sign,
        first: raw.first.value,
        more,
    })
}

/// The statements of a load function.
fn statements(alloc: Global, raw: &[RawLoad]) -> Result<Items<CLoad>, AllocError>
    ensures { IfOk result (λ v. v ≡ map load_of (map load_view raw.now)) }
{
    let mut list = Vec::new(alloc);
    for element in raw {
        list.push(load(alloc, element)?)?;
    }
    Ok(Items::new(list))
}

/// The load functions of a module.
pub(crate) fn loads(alloc: Global, raw: &RawLoads) -> Result<CLoads, AllocError>
    ensures { IfOk result (λ v. v ≡ loads_of_raw (loads_view raw.now)) }
{
    let residual_resist = statements(alloc, raw.residual_resist.as_list())?;
    let residual_react = statements(alloc, raw.residual_react.as_list())?;
    let jacobian_resist = statements(alloc, raw.jacobian_resist.as_list())?;
    let jacobian_react = statements(alloc, raw.jacobian_react.as_list())?;
    let jacobian_tran = statements(alloc, raw.jacobian_tran.as_list())?;
    let spice_rhs_dc = statements(alloc, raw.spice_rhs_dc.as_list())?;
    let spice_rhs_tran = statements(alloc, raw.spice_rhs_tran.as_list())?;
    Ok(CLoads {
        residual_resist,
        residual_react,
        jacobian_resist,
        jacobian_react,
        jacobian_tran,
        spice_rhs_dc,
        spice_rhs_tran,
    })
}
