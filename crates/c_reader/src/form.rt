//! The least token at which any rule of form is broken.
ghost use Rattle.std.specs.Prelude.{◌≡◌, IfOk, true};
ghost use Rattle.c_tree.specs.Form.{least_blamed};
ghost use Rattle.c_raw.specs.Views.{file_view, has_bodies};

use c_form::blame::earlier;
use c_form::breaks::breaks_fault;
use c_form::calls::calls_fault;
use c_form::fields::fields_fault;
use c_form::locals::locals_fault;
use c_form::numbering::numbering_fault;
use c_form::tables::tables_fault;
use c_form_reach::reach_fault;
use c_form_settings::settings_fault;
use c_form_types::types_fault;
use c_raw::RawFile;
use std::alloc::Global;
use va_base::NoMemory;

/// The least token at which a rule of form is broken, by the raw tree of a text. None where each of the nine rules is kept.
pub fn form_fault(alloc: Global, raw: &RawFile) -> Result<Option<usize>, NoMemory>
    requires { has_bodies raw.now ≡ true }
    ensures { IfOk result (λ least. least ≡ least_blamed (file_view raw.now)) }
{
    let numbering = numbering_fault(raw);
    let fields = fields_fault(alloc, raw)?;
    let locals = locals_fault(alloc, raw)?;
    let settings = settings_fault(alloc, raw)?;
    let breaks = breaks_fault(alloc, raw)?;
    let types = types_fault(alloc, raw)?;
    let calls = calls_fault(alloc, raw)?;
    let reach = reach_fault(alloc, raw)?;
    let tables = tables_fault(alloc, raw)?;
    let two = earlier(numbering, fields);
    let three = earlier(two, locals);
    let four = earlier(three, settings);
    let five = earlier(four, breaks);
    let six = earlier(five, types);
    let seven = earlier(six, calls);
    let eight = earlier(seven, reach);
    Ok(earlier(eight, tables))
}
