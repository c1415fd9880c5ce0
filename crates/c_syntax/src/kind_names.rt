//! The names of the kinds of one token each, and of the names that end with a number.
ghost use Rattle.std.specs.Prelude.{◌≡◌, ◌<◌, map, length};
ghost use Rattle.c_tree.specs.Words.{include_words};
ghost use Rattle.c_syntax.specs.grammar.Names.{mark_names, word_names, field_names};
ghost use Rattle.c_syntax.specs.grammar.Kinds.{numbered_names, function_names};

/// The marks.
static MARKS: [&str; 27] = [
    "->", "&&", "<=", ">=", "==", "!=", "+=", "-=", "(", ")", "{", "}", "[", "]", ";", ",", "*",
    "=", "+", "-", "/", "%", "<", ">", "!", "&", "|",
];

/// The words that rows hold.
static WORDS: [&str; 70] = [
    "static",
    "void",
    "init_error",
    "OsdiInitInfo",
    "res",
    "uint32_t",
    "id",
    "OsdiInitError",
    "more",
    "realloc",
    "errors",
    "num_errors",
    "sizeof",
    "if",
    "INIT_ERR_OUT_OF_BOUNDS",
    "load_nothing",
    "ip",
    "mp",
    "double",
    "dst",
    "typedef",
    "struct",
    "tag",
    "node",
    "jr",
    "jq",
    "_Bool",
    "col",
    "temp",
    "int32_t",
    "return",
    "flags",
    "ACCESS_FLAG_INSTANCE",
    "ACCESS_FLAG_SET",
    "inst",
    "model",
    "handle",
    "OsdiSimParas",
    "sim",
    "temperature",
    "num_terminals",
    "OsdiSimInfo",
    "info",
    "const",
    "x",
    "prev_solve",
    "for",
    "break",
    "else",
    "lround",
    "alpha",
    "OsdiNode",
    "OsdiJacobianEntry",
    "OsdiNodePair",
    "OsdiParamOpvar",
    "offsetof",
    "UINT32_MAX",
    "JACOBIAN_ENTRY_RESIST",
    "JACOBIAN_ENTRY_REACT",
    "char",
    "PARA_TY_REAL",
    "PARA_TY_INT",
    "PARA_KIND_INST",
    "PARA_KIND_MODEL",
    "PARA_KIND_OPVAR",
    "OSDI_VERSION_MAJOR",
    "OSDI_VERSION_MINOR",
    "OSDI_NUM_DESCRIPTORS",
    "OsdiDescriptor",
    "OSDI_DESCRIPTORS",
];

/// The fields of tables' elements.
static FIELDS: [&str; 52] = [
    ".code",
    ".payload.parameter_id",
    ".name",
    ".units",
    ".residual_units",
    ".resist_residual_off",
    ".react_residual_off",
    ".resist_limit_rhs_off",
    ".react_limit_rhs_off",
    ".is_flow",
    ".nodes",
    ".react_ptr_off",
    ".flags",
    ".node_1",
    ".node_2",
    ".num_alias",
    ".description",
    ".len",
    ".num_nodes",
    ".num_terminals",
    ".num_jacobian_entries",
    ".jacobian_entries",
    ".num_collapsible",
    ".collapsible",
    ".collapsed_offset",
    ".noise_sources",
    ".num_noise_src",
    ".num_params",
    ".num_instance_params",
    ".num_opvars",
    ".param_opvar",
    ".node_mapping_offset",
    ".jacobian_ptr_resist_offset",
    ".num_states",
    ".state_idx_off",
    ".bound_step_offset",
    ".instance_size",
    ".model_size",
    ".access",
    ".setup_model",
    ".setup_instance",
    ".eval",
    ".load_noise",
    ".load_limit_rhs_resist",
    ".load_limit_rhs_react",
    ".load_residual_resist",
    ".load_residual_react",
    ".load_jacobian_resist",
    ".load_jacobian_react",
    ".load_jacobian_tran",
    ".load_spice_rhs_dc",
    ".load_spice_rhs_tran",
];

/// The names that end with one number, without it.
static NUMBERED: [&str; 27] = [
    "v",
    "a",
    "p",
    "g",
    "r",
    "q",
    "er",
    "eq",
    "o",
    "h",
    "model_",
    "inst_",
    "access_",
    "setup_model_",
    "setup_instance_",
    "eval_",
    "load_residual_resist_",
    "load_residual_react_",
    "load_jacobian_resist_",
    "load_jacobian_react_",
    "load_jacobian_tran_",
    "load_spice_rhs_dc_",
    "load_spice_rhs_tran_",
    "nodes_",
    "entries_",
    "collapse_",
    "params_",
];

/// The functions of C's library.
static FUNCTIONS: [&str; 21] = [
    "exp", "log", "log10", "sqrt", "sin", "cos", "tan", "asin", "acos", "atan", "sinh", "cosh",
    "tanh", "asinh", "acosh", "atanh", "floor", "ceil", "pow", "atan2", "hypot",
];

/// The includes, in their order.
static INCLUDES: [&str; 5] = [
    "#include \"osdi_0_3.h\"",
    "#include <math.h>",
    "#include <stddef.h>",
    "#include <stdint.h>",
    "#include <stdlib.h>",
];

/// The includes, in their order.
pub fn includes() -> &'static [&'static str]
    ensures names { map (λ name. name.now) result.now ≡ include_words }
    ensures few { length result.now < 1000 }
{
    &INCLUDES
}

/// The marks.
pub fn marks() -> &'static [&'static str]
    ensures names { map (λ name. name.now) result.now ≡ mark_names }
    ensures few { length result.now < 1000 }
{
    &MARKS
}

/// The words that rows hold.
pub fn words() -> &'static [&'static str]
    ensures names { map (λ name. name.now) result.now ≡ word_names }
    ensures few { length result.now < 1000 }
{
    &WORDS
}

/// The fields of tables' elements.
pub fn fields() -> &'static [&'static str]
    ensures names { map (λ name. name.now) result.now ≡ field_names }
    ensures few { length result.now < 1000 }
{
    &FIELDS
}

/// The names that end with one number, without it.
pub fn numbered() -> &'static [&'static str]
    ensures names { map (λ name. name.now) result.now ≡ numbered_names }
    ensures few { length result.now < 1000 }
{
    &NUMBERED
}

/// The functions of C's library.
pub fn functions() -> &'static [&'static str]
    ensures names { map (λ name. name.now) result.now ≡ function_names }
    ensures few { length result.now < 1000 }
{
    &FUNCTIONS
}
