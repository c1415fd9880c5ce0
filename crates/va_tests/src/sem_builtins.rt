//! The functions and tasks that the language has by itself, with values of its table.
use alg_laws::{Fun2, Ty};
use va_sem::builtin::{builtin_at, builtin_row, system_name};
use va_sem::{Builtin, SystemFunction, SystemName};

#[test]
fn names_have_their_rows_and_meanings(rt: HostRuntime) {
    assert_eq!(rt; builtin_row(b"exp"), Some(1));
    assert_eq!(rt; builtin_row(b"hypot"), Some(21));
    assert_eq!(rt; builtin_row(b"ddt"), Some(26));
    assert_eq!(rt; builtin_row(b"analysis"), Some(49));
    assert_eq!(rt; builtin_row(b"erf"), None);
    assert_eq!(rt; builtin_at(0), None);
    assert_eq!(rt; builtin_at(20), Some(Builtin::Two(Fun2::Atan2)));
    assert_eq!(rt; builtin_at(27), Some(Builtin::LeftOut));
    assert_eq!(rt; builtin_at(50), None);
    let limit = Some(SystemName::Function(SystemFunction::Limit));
    assert_eq!(rt; system_name(b"$limit"), limit);
    assert_eq!(rt; system_name(b"$bound_step"), Some(SystemName::Task));
    assert_eq!(rt; system_name(b"$abstime"), None);
}

#[test]
fn functions_take_arguments_and_answer(rt: HostRuntime) {
    assert!(rt; Builtin::Min.takes(2));
    assert!(rt; !Builtin::Ddt.takes(2));
    assert!(rt; SystemFunction::ThermalVoltage.takes(0));
    assert!(rt; !SystemFunction::SimParam.takes(1));
    assert!(rt; Builtin::LimExp.is_constant());
    assert!(rt; !Builtin::Ddt.is_constant());
    assert!(rt; SystemFunction::Limit.looks_at(0));
    assert!(rt; !SystemFunction::Limit.looks_at(1));
    let integers = [Some(Ty::Integer), Some(Ty::Integer)];
    let mixed = [Some(Ty::Integer), Some(Ty::Real)];
    let string_first = [None, Some(Ty::Integer)];
    assert_eq!(rt; Builtin::Min.answer_type(&integers), Ty::Integer);
    assert_eq!(rt; Builtin::Max.answer_type(&mixed), Ty::Real);
    assert_eq!(rt; Builtin::Two(Fun2::Pow).answer_type(&integers), Ty::Real);
    assert_eq!(rt;
        SystemFunction::SimParam.answer_type(&string_first),
        Ty::Integer
    );
    assert_eq!(rt; SystemFunction::ParamGiven.answer_type(&mixed), Ty::Integer);
}
