//! An inductor, whose flow is an unknown.
ghost use Rattle.std.specs.Prelude.{◌≡◌};
ghost use Rattle.c_tree.specs.Text.{text_of};
ghost use Rattle.c_runs.specs.Forms.{WorkedForm};
ghost use Rattle.c_runs.specs.Inductor.{inductor_file, inductor_tables};
ghost use Rattle.c_runs.specs.InductorRuns.{WorkedEvaluations, WorkedLoads};

/// The text of the file.
pub fn text() -> &'static str
    ensures { result.now ≡ text_of inductor_file }
{
    r##"#include "osdi_0_3.h"
#include <math.h>
#include <stddef.h>
#include <stdint.h>
#include <stdlib.h>
static void init_error ( OsdiInitInfo * res , uint32_t id ) {
OsdiInitError * more = realloc ( res -> errors , ( res -> num_errors + 1u ) * sizeof ( OsdiInitError ) ) ;
if ( more ) {
more [ res -> num_errors ] = ( OsdiInitError ) {
.code = INIT_ERR_OUT_OF_BOUNDS , .payload.parameter_id = id }
;
res -> errors = more ;
res -> num_errors = res -> num_errors + 1u ;
}
}
static void load_nothing ( void * ip , void * mp , double * dst ) {
}
typedef struct {
uint32_t tag ;
double p0 ;
int32_t g0 ;
}
model_0 ;
typedef struct {
uint32_t node [ 3u ] ;
double * jr [ 5u ] ;
double * jq [ 5u ] ;
_Bool col [ 1u ] ;
double temp ;
double p0 ;
double r0 ;
double q0 ;
double r1 ;
double q1 ;
double r2 ;
double q2 ;
double er0 ;
double er1 ;
double er2 ;
double er3 ;
double eq4 ;
}
inst_0 ;
static void * access_0 ( void * ip , void * mp , uint32_t id , uint32_t flags ) {
inst_0 * inst = ( inst_0 * ) ip ;
model_0 * model = ( model_0 * ) mp ;
if ( id == 0u ) {
if ( flags & ACCESS_FLAG_SET ) {
model -> g0 = 1 ;
}
return & model -> p0 ;
}
return 0 ;
}
static void setup_model_0 ( void * handle , void * mp , OsdiSimParas * sim , OsdiInitInfo * res ) {
model_0 * model = ( model_0 * ) mp ;
res -> flags = 0u ;
res -> num_errors = 0u ;
res -> errors = 0 ;
double v0 ;
if ( model -> g0 ) {
v0 = model -> p0 ;
}
else {
v0 = 1e-6 ;
}
model -> p0 = v0 ;
}
static void setup_instance_0 ( void * handle , void * ip , void * mp , double temperature , uint32_t num_terminals , OsdiSimParas * sim , OsdiInitInfo * res ) {
inst_0 * inst = ( inst_0 * ) ip ;
model_0 * model = ( model_0 * ) mp ;
res -> flags = 0u ;
res -> num_errors = 0u ;
res -> errors = 0 ;
inst -> temp = temperature ;
inst -> p0 = model -> p0 ;
}
static uint32_t eval_0 ( void * handle , void * ip , void * mp , OsdiSimInfo * info ) {
inst_0 * inst = ( inst_0 * ) ip ;
model_0 * model = ( model_0 * ) mp ;
const double * x = info -> prev_solve ;
const double v0 = x [ inst -> node [ 0u ] ] ;
const double v1 = x [ inst -> node [ 1u ] ] ;
const double v2 = x [ inst -> node [ 2u ] ] ;
const double v3 = v0 - v1 ;
const double v4 = - v2 ;
const double v5 = inst -> p0 * v2 ;
const double v6 = - v5 ;
const double v7 = - 1e0 ;
const double v8 = - inst -> p0 ;
inst -> r0 = v2 ;
inst -> q0 = 0e0 ;
inst -> r1 = v4 ;
inst -> q1 = 0e0 ;
inst -> r2 = v3 ;
inst -> q2 = v6 ;
inst -> er0 = 1e0 ;
inst -> er1 = v7 ;
inst -> er2 = 1e0 ;
inst -> er3 = v7 ;
inst -> eq4 = v8 ;
return 0u ;
}
static void load_residual_resist_0 ( void * ip , void * mp , double * dst ) {
inst_0 * inst = ( inst_0 * ) ip ;
dst [ inst -> node [ 0u ] ] += inst -> r0 ;
dst [ inst -> node [ 1u ] ] += inst -> r1 ;
dst [ inst -> node [ 2u ] ] += inst -> r2 ;
}
static void load_residual_react_0 ( void * ip , void * mp , double * dst ) {
inst_0 * inst = ( inst_0 * ) ip ;
dst [ inst -> node [ 2u ] ] += inst -> q2 ;
}
static void load_jacobian_resist_0 ( void * ip , void * mp ) {
inst_0 * inst = ( inst_0 * ) ip ;
* inst -> jr [ 0u ] += inst -> er0 ;
* inst -> jr [ 1u ] += inst -> er1 ;
* inst -> jr [ 2u ] += inst -> er2 ;
* inst -> jr [ 3u ] += inst -> er3 ;
}
static void load_jacobian_react_0 ( void * ip , void * mp , double alpha ) {
inst_0 * inst = ( inst_0 * ) ip ;
* inst -> jq [ 4u ] += alpha * inst -> eq4 ;
}
static void load_jacobian_tran_0 ( void * ip , void * mp , double alpha ) {
inst_0 * inst = ( inst_0 * ) ip ;
* inst -> jr [ 0u ] += inst -> er0 ;
* inst -> jr [ 1u ] += inst -> er1 ;
* inst -> jr [ 2u ] += inst -> er2 ;
* inst -> jr [ 3u ] += inst -> er3 ;
* inst -> jr [ 4u ] += alpha * inst -> eq4 ;
}
static void load_spice_rhs_dc_0 ( void * ip , void * mp , double * dst , double * x ) {
inst_0 * inst = ( inst_0 * ) ip ;
dst [ inst -> node [ 0u ] ] += inst -> er0 * x [ inst -> node [ 2u ] ] ;
dst [ inst -> node [ 1u ] ] += inst -> er1 * x [ inst -> node [ 2u ] ] ;
dst [ inst -> node [ 2u ] ] += inst -> er2 * x [ inst -> node [ 0u ] ] ;
dst [ inst -> node [ 2u ] ] += inst -> er3 * x [ inst -> node [ 1u ] ] ;
dst [ inst -> node [ 0u ] ] -= inst -> r0 ;
dst [ inst -> node [ 1u ] ] -= inst -> r1 ;
dst [ inst -> node [ 2u ] ] -= inst -> r2 ;
}
static void load_spice_rhs_tran_0 ( void * ip , void * mp , double * dst , double * x , double alpha ) {
inst_0 * inst = ( inst_0 * ) ip ;
dst [ inst -> node [ 0u ] ] += inst -> er0 * x [ inst -> node [ 2u ] ] ;
dst [ inst -> node [ 1u ] ] += inst -> er1 * x [ inst -> node [ 2u ] ] ;
dst [ inst -> node [ 2u ] ] += inst -> er2 * x [ inst -> node [ 0u ] ] ;
dst [ inst -> node [ 2u ] ] += inst -> er3 * x [ inst -> node [ 1u ] ] ;
dst [ inst -> node [ 2u ] ] += alpha * inst -> eq4 * x [ inst -> node [ 2u ] ] ;
dst [ inst -> node [ 0u ] ] -= inst -> r0 ;
dst [ inst -> node [ 1u ] ] -= inst -> r1 ;
dst [ inst -> node [ 2u ] ] -= inst -> r2 ;
}
OsdiNode nodes_0 [ ] = {
{
.name = "a" , .units = "V" , .residual_units = "A" , .resist_residual_off = offsetof ( inst_0 , r0 ) , .react_residual_off = offsetof ( inst_0 , q0 ) , .resist_limit_rhs_off = UINT32_MAX , .react_limit_rhs_off = UINT32_MAX , .is_flow = 0 }
, {
.name = "c" , .units = "V" , .residual_units = "A" , .resist_residual_off = offsetof ( inst_0 , r1 ) , .react_residual_off = offsetof ( inst_0 , q1 ) , .resist_limit_rhs_off = UINT32_MAX , .react_limit_rhs_off = UINT32_MAX , .is_flow = 0 }
, {
.name = "flow(a,c)" , .units = "A" , .residual_units = "V" , .resist_residual_off = offsetof ( inst_0 , r2 ) , .react_residual_off = offsetof ( inst_0 , q2 ) , .resist_limit_rhs_off = UINT32_MAX , .react_limit_rhs_off = UINT32_MAX , .is_flow = 1 }
, {
0 }
}
;
OsdiJacobianEntry entries_0 [ ] = {
{
.nodes = {
.node_1 = 0u , .node_2 = 2u }
, .react_ptr_off = UINT32_MAX , .flags = JACOBIAN_ENTRY_RESIST }
, {
.nodes = {
.node_1 = 1u , .node_2 = 2u }
, .react_ptr_off = UINT32_MAX , .flags = JACOBIAN_ENTRY_RESIST }
, {
.nodes = {
.node_1 = 2u , .node_2 = 0u }
, .react_ptr_off = UINT32_MAX , .flags = JACOBIAN_ENTRY_RESIST }
, {
.nodes = {
.node_1 = 2u , .node_2 = 1u }
, .react_ptr_off = UINT32_MAX , .flags = JACOBIAN_ENTRY_RESIST }
, {
.nodes = {
.node_1 = 2u , .node_2 = 2u }
, .react_ptr_off = offsetof ( inst_0 , jq [ 4u ] ) , .flags = JACOBIAN_ENTRY_REACT }
, {
0 }
}
;
OsdiNodePair collapse_0 [ ] = {
{
0 }
}
;
OsdiParamOpvar params_0 [ ] = {
{
.name = ( char * [ ] ) {
"l" }
, .num_alias = 0u , .description = "" , .units = "H" , .flags = PARA_TY_REAL | PARA_KIND_MODEL , .len = 0u }
, {
0 }
}
;
const uint32_t OSDI_VERSION_MAJOR = 0u ;
const uint32_t OSDI_VERSION_MINOR = 3u ;
const uint32_t OSDI_NUM_DESCRIPTORS = 1u ;
const OsdiDescriptor OSDI_DESCRIPTORS [ ] = {
{
.name = "inductor" , .num_nodes = 3u , .num_terminals = 2u , .nodes = nodes_0 , .num_jacobian_entries = 5u , .jacobian_entries = entries_0 , .num_collapsible = 0u , .collapsible = collapse_0 , .collapsed_offset = offsetof ( inst_0 , col ) , .noise_sources = 0 , .num_noise_src = 0u , .num_params = 1u , .num_instance_params = 0u , .num_opvars = 0u , .param_opvar = params_0 , .node_mapping_offset = offsetof ( inst_0 , node ) , .jacobian_ptr_resist_offset = offsetof ( inst_0 , jr ) , .num_states = 0u , .state_idx_off = 0u , .bound_step_offset = UINT32_MAX , .instance_size = sizeof ( inst_0 ) , .model_size = sizeof ( model_0 ) , .access = access_0 , .setup_model = setup_model_0 , .setup_instance = setup_instance_0 , .eval = eval_0 , .load_noise = 0 , .load_limit_rhs_resist = load_nothing , .load_limit_rhs_react = load_nothing , .load_residual_resist = load_residual_resist_0 , .load_residual_react = load_residual_react_0 , .load_jacobian_resist = load_jacobian_resist_0 , .load_jacobian_react = load_jacobian_react_0 , .load_jacobian_tran = load_jacobian_tran_0 , .load_spice_rhs_dc = load_spice_rhs_dc_0 , .load_spice_rhs_tran = load_spice_rhs_tran_0 }
, {
0 }
}
;
"##
}

/// The file can be spelled and obeys the rules of form, and its tables are reported by lines that were written by hand.
pub fn form_worked_by_hand()
    ensures { WorkedForm inductor_file inductor_tables }
{}

/// Settings, set-ups and evaluations, with all that they leave behind.
pub fn evaluations_worked_by_hand()
    ensures { WorkedEvaluations }
{}

/// Each kind of load, and a whole run.
pub fn loads_worked_by_hand()
    ensures { WorkedLoads }
{}
