//! Whole C texts that were written by hand, and a small module in which each case has its own lines.
use std::alloc::{AllocError, Global};

/// The headers that each C file begins with.
pub const INCLUDES: &str = r##"#include "osdi_0_3.h"
#include <math.h>
#include <stddef.h>
#include <stdint.h>
#include <stdlib.h>
"##;

/// The two functions that stand in front of the modules.
const HELP: &str = r##"static void init_error ( OsdiInitInfo * res , uint32_t id ) {
OsdiInitError * more = realloc ( res -> errors , ( res -> num_errors + 1u ) * sizeof ( OsdiInitError ) ) ;
if ( more ) {
more [ res -> num_errors ] = ( OsdiInitError ) {
.code = INIT_ERR_OUT_OF_BOUNDS , .payload.parameter_id = id }
;
res -> errors = more ;
res -> num_errors = res -> num_errors + 1u ;
}
}
static void load_nothing ( void * ip , void * mp , double * dst ) {
}
"##;

/// A module that has each part of the grammar.
const SAMPLE_MODULE: &str = r##"typedef struct {
uint32_t tag ;
double p1 ;
int32_t g1 ;
}
model_0 ;
typedef struct {
uint32_t node [ 2u ] ;
double * jr [ 3u ] ;
double * jq [ 3u ] ;
_Bool col [ 1u ] ;
double temp ;
double p0 ;
double p1 ;
int32_t g0 ;
double r0 ;
double q0 ;
double r1 ;
double q1 ;
double er0 ;
double eq1 ;
int32_t o0 ;
double h0 ;
}
inst_0 ;
static double fn_0_0 ( double a0 , int32_t a1 ) {
const double v0 = ( double ) a1 ;
const double v1 = pow ( v0 , a0 ) ;
return v1 ;
}
static int32_t fn_0_1 ( ) {
return 7 ;
}
static void * access_0 ( void * ip , void * mp , uint32_t id , uint32_t flags ) {
inst_0 * inst = ( inst_0 * ) ip ;
model_0 * model = ( model_0 * ) mp ;
if ( id == 0u && ( flags & ACCESS_FLAG_INSTANCE ) ) {
if ( flags & ACCESS_FLAG_SET ) {
inst -> g0 = 1 ;
}
return & inst -> p0 ;
}
if ( id == 1u ) {
if ( flags & ACCESS_FLAG_SET ) {
model -> g1 = 1 ;
}
return & model -> p1 ;
}
if ( id == 2u ) {
return & inst -> o0 ;
}
return 0 ;
}
static void setup_model_0 ( void * handle , void * mp , OsdiSimParas * sim , OsdiInitInfo * res ) {
model_0 * model = ( model_0 * ) mp ;
res -> flags = 0u ;
res -> num_errors = 0u ;
res -> errors = 0 ;
double v0 ;
if ( model -> g1 ) {
v0 = model -> p1 ;
}
else {
v0 = 15e-1 ;
}
model -> p1 = v0 ;
const int32_t v1 = v0 <= 0e0 ;
if ( v1 ) {
init_error ( res , 1u ) ;
}
else {
}
}
static void setup_instance_0 ( void * handle , void * ip , void * mp , double temperature , uint32_t num_terminals , OsdiSimParas * sim , OsdiInitInfo * res ) {
inst_0 * inst = ( inst_0 * ) ip ;
model_0 * model = ( model_0 * ) mp ;
res -> flags = 0u ;
res -> num_errors = 0u ;
res -> errors = 0 ;
inst -> temp = temperature ;
inst -> p1 = model -> p1 ;
inst -> col [ 0u ] = 1 ;
}
static uint32_t eval_0 ( void * handle , void * ip , void * mp , OsdiSimInfo * info ) {
inst_0 * inst = ( inst_0 * ) ip ;
model_0 * model = ( model_0 * ) mp ;
const double * x = info -> prev_solve ;
const double v0 = x [ inst -> node [ 0u ] ] ;
const double v1 = - v0 ;
const int32_t v2 = ( int32_t ) lround ( v1 ) ;
const int32_t v3 = ! v2 ;
int32_t v4 = 3 ;
for ( ;
;
) {
const int32_t v5 = v4 % 2 ;
if ( ! v4 ) {
break ;
}
if ( v5 ) {
}
else {
const int32_t v6 = fn_0_1 ( ) ;
}
const int32_t v7 = v4 - 1 ;
v4 = v7 ;
}
inst -> o0 = v4 ;
return 0u ;
}
static void load_residual_resist_0 ( void * ip , void * mp , double * dst ) {
inst_0 * inst = ( inst_0 * ) ip ;
dst [ inst -> node [ 0u ] ] += inst -> r0 ;
}
static void load_residual_react_0 ( void * ip , void * mp , double * dst ) {
inst_0 * inst = ( inst_0 * ) ip ;
}
static void load_jacobian_resist_0 ( void * ip , void * mp ) {
inst_0 * inst = ( inst_0 * ) ip ;
* inst -> jr [ 0u ] = inst -> er0 ;
}
static void load_jacobian_react_0 ( void * ip , void * mp , double alpha ) {
inst_0 * inst = ( inst_0 * ) ip ;
* inst -> jq [ 1u ] += alpha * inst -> eq1 ;
}
static void load_jacobian_tran_0 ( void * ip , void * mp , double alpha ) {
inst_0 * inst = ( inst_0 * ) ip ;
}
static void load_spice_rhs_dc_0 ( void * ip , void * mp , double * dst , double * x ) {
inst_0 * inst = ( inst_0 * ) ip ;
dst [ inst -> node [ 0u ] ] -= inst -> er0 * x [ inst -> node [ 1u ] ] ;
}
static void load_spice_rhs_tran_0 ( void * ip , void * mp , double * dst , double * x , double alpha ) {
inst_0 * inst = ( inst_0 * ) ip ;
}
OsdiNode nodes_0 [ ] = {
{
.name = "a" , .units = "V" , .residual_units = "A" , .resist_residual_off = offsetof ( inst_0 , r0 ) , .react_residual_off = offsetof ( inst_0 , q0 ) , .resist_limit_rhs_off = UINT32_MAX , .react_limit_rhs_off = UINT32_MAX , .is_flow = 0 }
, {
.name = "flow(b)" , .units = "A" , .residual_units = "V" , .resist_residual_off = offsetof ( inst_0 , r1 ) , .react_residual_off = offsetof ( inst_0 , q1 ) , .resist_limit_rhs_off = UINT32_MAX , .react_limit_rhs_off = UINT32_MAX , .is_flow = 1 }
, {
0 }
}
;
OsdiJacobianEntry entries_0 [ ] = {
{
.nodes = {
.node_1 = 0u , .node_2 = 0u }
, .react_ptr_off = UINT32_MAX , .flags = JACOBIAN_ENTRY_RESIST }
, {
.nodes = {
.node_1 = 0u , .node_2 = 1u }
, .react_ptr_off = offsetof ( inst_0 , jq [ 1u ] ) , .flags = JACOBIAN_ENTRY_REACT }
, {
.nodes = {
.node_1 = 1u , .node_2 = 1u }
, .react_ptr_off = offsetof ( inst_0 , jq [ 2u ] ) , .flags = JACOBIAN_ENTRY_RESIST | JACOBIAN_ENTRY_REACT }
, {
0 }
}
;
OsdiNodePair collapse_0 [ ] = {
{
.node_1 = 0u , .node_2 = UINT32_MAX }
, {
0 }
}
;
OsdiParamOpvar params_0 [ ] = {
{
.name = ( char * [ ] ) {
"area" , "ar" }
, .num_alias = 1u , .description = "" , .units = "" , .flags = PARA_TY_REAL | PARA_KIND_INST , .len = 0u }
, {
.name = ( char * [ ] ) {
"r" }
, .num_alias = 0u , .description = "in \042ohm\042 \134" , .units = "Ohm" , .flags = PARA_TY_REAL | PARA_KIND_MODEL , .len = 0u }
, {
.name = ( char * [ ] ) {
"n" }
, .num_alias = 0u , .description = "why\077" , .units = "" , .flags = PARA_TY_INT | PARA_KIND_OPVAR , .len = 0u }
, {
0 }
}
;
"##;

/// The version, which stands behind the modules.
const VERSION: &str = r##"const uint32_t OSDI_VERSION_MAJOR = 0u ;
const uint32_t OSDI_VERSION_MINOR = 3u ;
"##;

/// The descriptor of the sample.
const SAMPLE_DESCRIPTORS: &str = r##"const uint32_t OSDI_NUM_DESCRIPTORS = 1u ;
const OsdiDescriptor OSDI_DESCRIPTORS [ ] = {
{
.name = "m" , .num_nodes = 2u , .num_terminals = 1u , .nodes = nodes_0 , .num_jacobian_entries = 3u , .jacobian_entries = entries_0 , .num_collapsible = 1u , .collapsible = collapse_0 , .collapsed_offset = offsetof ( inst_0 , col ) , .noise_sources = 0 , .num_noise_src = 0u , .num_params = 2u , .num_instance_params = 1u , .num_opvars = 1u , .param_opvar = params_0 , .node_mapping_offset = offsetof ( inst_0 , node ) , .jacobian_ptr_resist_offset = offsetof ( inst_0 , jr ) , .num_states = 0u , .state_idx_off = 0u , .bound_step_offset = UINT32_MAX , .instance_size = sizeof ( inst_0 ) , .model_size = sizeof ( model_0 ) , .access = access_0 , .setup_model = setup_model_0 , .setup_instance = setup_instance_0 , .eval = eval_0 , .load_noise = 0 , .load_limit_rhs_resist = load_nothing , .load_limit_rhs_react = load_nothing , .load_residual_resist = load_residual_resist_0 , .load_residual_react = load_residual_react_0 , .load_jacobian_resist = load_jacobian_resist_0 , .load_jacobian_react = load_jacobian_react_0 , .load_jacobian_tran = load_jacobian_tran_0 , .load_spice_rhs_dc = load_spice_rhs_dc_0 , .load_spice_rhs_tran = load_spice_rhs_tran_0 }
, {
0 }
}
;
"##;

/// The list of no descriptors.
const NO_DESCRIPTORS: &str = r##"const uint32_t OSDI_NUM_DESCRIPTORS = 0u ;
const OsdiDescriptor OSDI_DESCRIPTORS [ ] = {
{
0 }
}
;
"##;

/// A file of one module that has each part of the grammar.
pub fn sample(alloc: Global) -> Result<String, AllocError> {
    format!(in alloc; "{INCLUDES}{HELP}{SAMPLE_MODULE}{VERSION}{SAMPLE_DESCRIPTORS}")
}

/// A file without modules.
pub fn no_modules(alloc: Global) -> Result<String, AllocError> {
    format!(in alloc; "{INCLUDES}{HELP}{VERSION}{NO_DESCRIPTORS}")
}

/// A module that keeps the rules of form. `$` stands for its number, and a word in angle brackets for the place of that name,
/// where a case has lines of its own.
const SMALL_MODULE: &str = r##"typedef struct {
uint32_t tag ;
int32_t p1 ;
}
model_$ ;
typedef struct {
uint32_t node [ 1u ] ;
double * jr [ 1u ] ;
double * jq [ 1u ] ;
_Bool col [ 1u ] ;
double temp ;
double r0 ;
int32_t h1 ;
int32_t o0 ;
}
inst_$ ;
<functions>
static double fn_$_0 ( double a0 , int32_t a1 ) {
<function>
return a0 ;
}
static void * access_$ ( void * ip , void * mp , uint32_t id , uint32_t flags ) {
inst_$ * inst = ( inst_$ * ) ip ;
model_$ * model = ( model_$ * ) mp ;
<access>
return 0 ;
}
static void setup_model_$ ( void * handle , void * mp , OsdiSimParas * sim , OsdiInitInfo * res ) {
model_$ * model = ( model_$ * ) mp ;
res -> flags = 0u ;
res -> num_errors = 0u ;
res -> errors = 0 ;
<setup_model>
}
static void setup_instance_$ ( void * handle , void * ip , void * mp , double temperature , uint32_t num_terminals , OsdiSimParas * sim , OsdiInitInfo * res ) {
inst_$ * inst = ( inst_$ * ) ip ;
model_$ * model = ( model_$ * ) mp ;
res -> flags = 0u ;
res -> num_errors = 0u ;
res -> errors = 0 ;
inst -> temp = temperature ;
<setup_instance>
}
static uint32_t eval_$ ( void * handle , void * ip , void * mp , OsdiSimInfo * info ) {
inst_$ * inst = ( inst_$ * ) ip ;
model_$ * model = ( model_$ * ) mp ;
const double * x = info -> prev_solve ;
<eval>
return 0u ;
}
static void load_residual_resist_$ ( void * ip , void * mp , double * dst ) {
inst_$ * inst = ( inst_$ * ) ip ;
<residual_resist>
}
static void load_residual_react_$ ( void * ip , void * mp , double * dst ) {
inst_$ * inst = ( inst_$ * ) ip ;
<residual_react>
}
static void load_jacobian_resist_$ ( void * ip , void * mp ) {
inst_$ * inst = ( inst_$ * ) ip ;
<jacobian_resist>
}
static void load_jacobian_react_$ ( void * ip , void * mp , double alpha ) {
inst_$ * inst = ( inst_$ * ) ip ;
<jacobian_react>
}
static void load_jacobian_tran_$ ( void * ip , void * mp , double alpha ) {
inst_$ * inst = ( inst_$ * ) ip ;
<jacobian_tran>
}
static void load_spice_rhs_dc_$ ( void * ip , void * mp , double * dst , double * x ) {
inst_$ * inst = ( inst_$ * ) ip ;
<spice_rhs_dc>
}
static void load_spice_rhs_tran_$ ( void * ip , void * mp , double * dst , double * x , double alpha ) {
inst_$ * inst = ( inst_$ * ) ip ;
<spice_rhs_tran>
}
OsdiNode nodes_$ [ ] = {
<nodes>
{
0 }
}
;
OsdiJacobianEntry entries_$ [ ] = {
<entries>
{
0 }
}
;
OsdiNodePair collapse_$ [ ] = {
<pairs>
{
0 }
}
;
OsdiParamOpvar params_$ [ ] = {
<params>
{
0 }
}
;
"##;

/// The end of a file of two modules that lacks their descriptors.
const TWO_WITHOUT_DESCRIPTORS: &str = r##"const uint32_t OSDI_NUM_DESCRIPTORS = 2u ;
const OsdiDescriptor OSDI_DESCRIPTORS [ ] = {
{
0 }
}
;
"##;

/// Puts a line behind a text, with a number for each `$` in it.
fn push_numbered(text: &mut String, line: &str, number: &str) -> Result<(), AllocError> {
    for (index, piece) in line.split('$').enumerate() {
        if index > 0 {
            text.push_str(number)?;
        }
        text.push_str(piece)?;
    }
    text.push_str("\n")
}

/// The small module with this number, and with lines of a case in one of its places.
fn small_module(
    alloc: Global,
    number: &str,
    place: &str,
    lines: &str,
) -> Result<String, AllocError> {
    let mut text = String::new(alloc);
    for line in SMALL_MODULE.lines() {
        if line == place {
            push_numbered(&mut text, lines, number)?;
        } else if !line.starts_with('<') {
            push_numbered(&mut text, line, number)?;
        }
    }
    Ok(text)
}

/// A file of two small modules, of which the second has lines of a case in one of its places. It lacks its descriptors, which the
/// rule on tables blames alone.
pub fn small(alloc: Global, place: &str, lines: &str) -> Result<String, AllocError> {
    let first = small_module(alloc, "0", "", "")?;
    let second = small_module(alloc, "1", place, lines)?;
    format!(in alloc; "{INCLUDES}{HELP}{first}{second}{VERSION}{TWO_WITHOUT_DESCRIPTORS}")
}
