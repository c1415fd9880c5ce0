//! The kinds of a module's parameters: their order, and how many there are of each.
ghost use Rattle.std.specs.Prelude.{◌≡◌, [], map};
ghost use Rattle.c_tree.specs.Text as text;
ghost use Rattle.c_tree.specs.rules.Tables as rule;
ghost use Rattle.c_raw.specs.Views.{param_view};
ghost use Rattle.c_form.specs.Blames.{Blames};

use crate::blame::blame_unless;
use c_raw::RawParam;
use c_tree::ParamKind;

fn rank(kind: ParamKind) -> usize
    ensures { result ≡ rule.rank kind }
{
    match kind {
        ParamKind::Inst => 0,
        ParamKind::Model => 1,
        ParamKind::Opvar => 2,
    }
}

/// Parameters of the instance stand first, then those of the model, then operating-point variables.
pub fn kinds_in_order(least: &mut Option<usize>, params: &[RawParam])
    ensures { Blames least.old least.new (rule.kinds_in_order [] (map param_view params.now)) }
{
    let mut highest = 0;
    for param in params {
        let place = rank(param.kind.value);
        blame_unless(least, highest <= place, param.kind.at as usize);
        highest = highest.max(place);
    }
}

fn is_instance_kind(kind: ParamKind) -> bool
    ensures { result ≡ text.is_instance_kind kind }
{
    matches!(kind, ParamKind::Inst)
}

fn is_parameter_kind(kind: ParamKind) -> bool
    ensures { result ≡ text.is_parameter_kind kind }
{
    matches!(kind, ParamKind::Inst | ParamKind::Model)
}

fn is_opvar_kind(kind: ParamKind) -> bool
    ensures { result ≡ text.is_opvar_kind kind }
{
    matches!(kind, ParamKind::Opvar)
}

/// How many parameters the instance has.
pub fn instance_count(params: &[RawParam]) -> usize
    ensures { result ≡ rule.count_params text.is_instance_kind (map param_view params.now) }
{
    let mut count = 0;
    for param in params {
        if is_instance_kind(param.kind.value) {
            count += 1;
        }
    }
    count
}

/// How many parameters the instance and the model have.
pub fn parameter_count(params: &[RawParam]) -> usize
    ensures { result ≡ rule.count_params text.is_parameter_kind (map param_view params.now) }
{
    let mut count = 0;
    for param in params {
        if is_parameter_kind(param.kind.value) {
            count += 1;
        }
    }
    count
}

/// How many operating-point variables there are.
pub fn opvar_count(params: &[RawParam]) -> usize
    ensures { result ≡ rule.count_params text.is_opvar_kind (map param_view params.now) }
{
    let mut count = 0;
    for param in params {
        if is_opvar_kind(param.kind.value) {
            count += 1;
        }
    }
    count
}
