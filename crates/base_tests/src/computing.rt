//! `alg_run`: values modulo 1000003, dual numbers over them, literals, and the operators on values of both types.
use alg_run::literals::{copies_of_one, literal, whole};
use alg_run::{Compute, Dual, Fun1, Fun2, Number, Reason, Residue, Ty, integers, operators};
use std::test::Fail;

type Pair = Dual<Residue>;

fn residue(n: i128) -> Residue {
    Residue::of(n)
}

/// A residue with its infinitesimal part.
fn pair(main: i128, part: i128) -> Pair {
    Dual {
        main: residue(main),
        part: residue(part),
    }
}

fn is_pair(x: &Pair, main: u64, part: u64) -> bool {
    x.main.value() == main && x.part.value() == part
}

#[test]
fn numbers_have_remainders(rt: HostRuntime) {
    let rows: [(i128, u64); 9] = [
        (0, 0),
        (1_000_002, 1_000_002),
        (1_000_003, 0),
        (2_000_007, 1),
        (-1, 1_000_002),
        (-1_000_003, 0),
        (-1_000_004, 1_000_002),
        (i128::MAX, 1512),
        (i128::MIN, 998_490),
    ];
    for (n, remainder) in rows {
        assert_eq!(rt; residue(n).value(), remainder);
    }
}

#[test]
fn residues_form_a_field(rt: HostRuntime) {
    // x, y, x + y, x * y, -x, 1 / x
    let rows: [(i128, i128, u64, u64, u64, u64); 6] = [
        (0, 7, 7, 0, 0, 0),
        (1, 1_000_002, 0, 1_000_002, 1_000_002, 1),
        (2, 500_002, 500_004, 1, 1_000_001, 500_002),
        (10, 300_001, 300_011, 1, 999_993, 300_001),
        (1_000_002, 1_000_002, 1_000_001, 1, 1, 1_000_002),
        (123_456, 654_321, 777_777, 611_039, 876_547, 414_894),
    ];
    for (x, y, sum, product, negative, reciprocal) in rows {
        let (x, y) = (residue(x), residue(y));
        x.known();
        assert_eq!(rt; x.add(&y).value(), sum);
        assert_eq!(rt; x.mul(&y).value(), product);
        assert_eq!(rt; x.neg().value(), negative);
        assert_eq!(rt; x.recip().value(), reciprocal);
        assert_eq!(rt; x.copy().value(), x.value());
    }
    assert_eq!(rt; Residue::zero().value(), 0);
    assert_eq!(rt; Residue::one().value(), 1);
}

#[test]
fn functions_of_residues_have_numbers(rt: HostRuntime) {
    let functions = [
        Fun1::Exp,
        Fun1::Ln,
        Fun1::Log,
        Fun1::Sqrt,
        Fun1::Sin,
        Fun1::Cos,
        Fun1::Tan,
        Fun1::Asin,
        Fun1::Acos,
        Fun1::Atan,
        Fun1::Sinh,
        Fun1::Cosh,
        Fun1::Tanh,
        Fun1::Asinh,
        Fun1::Acosh,
        Fun1::Atanh,
        Fun1::Floor,
        Fun1::Ceil,
    ];
    for (i, f) in functions.iter().enumerate() {
        assert_eq!(rt; residue(3).fun1(*f).value(), 10 + i as u64);
    }
    assert_eq!(rt; residue(1000).fun1(Fun1::Ceil).value(), 15);
    let (three, five) = (residue(3), residue(5));
    assert_eq!(rt; three.fun2(&five, Fun2::Pow).value(), 43);
    assert_eq!(rt; three.fun2(&five, Fun2::Atan2).value(), 44);
    assert_eq!(rt; three.fun2(&five, Fun2::Hypot).value(), 45);
    assert_eq!(rt; five.fun2(&three, Fun2::Hypot).value(), 61);
}

#[test]
fn residues_compare_by_the_value_nearest_to_zero(rt: HostRuntime) {
    let nearest: [(i128, i64); 5] = [
        (0, 0),
        (1, 1),
        (500_001, 500_001),
        (500_002, -500_001),
        (1_000_002, -1),
    ];
    for (x, near) in nearest {
        assert_eq!(rt; residue(x).near(), near);
    }
    // x, y, x < y, x <= y, x == y
    let rows: [(i128, i128, bool, bool, bool); 5] = [
        (1_000_002, 0, true, true, false),
        (500_001, 500_002, false, false, false),
        (500_002, 500_001, true, true, false),
        (7, 7, false, true, true),
        (7, 1_000_010, false, true, true),
    ];
    for (x, y, less, at_most, same) in rows {
        let (x, y) = (residue(x), residue(y));
        assert_eq!(rt; x.less(&y), less);
        assert_eq!(rt; x.at_most(&y), at_most);
        assert_eq!(rt; x.same(&y), same);
    }
}

#[test]
fn duals_move_by_the_rules_of_derivatives(rt: HostRuntime) {
    let (x, y) = (pair(3, 4), pair(5, 6));
    x.known();
    assert!(rt; is_pair(&Pair::zero(), 0, 0));
    assert!(rt; is_pair(&Pair::one(), 1, 0));
    assert!(rt; is_pair(&x.copy(), 3, 4));
    assert!(rt; is_pair(&x.add(&y), 8, 10));
    assert!(rt; is_pair(&x.neg(), 1_000_000, 999_999));
    assert!(rt; is_pair(&x.mul(&y), 15, 38));
    assert!(rt; is_pair(&x.recip(), 666_669, 111_111));
    assert!(rt; is_pair(&x.fun2(&y, Fun2::Pow), 43, 3638));
    assert!(rt; x.less(&y) && x.at_most(&y) && !x.same(&y));
    assert!(rt; x.same(&pair(3, 9)) && !x.less(&pair(3, 9)));
    assert_eq!(rt; pair(1_000_002, 5).near(), -1);
}

#[test]
fn functions_have_derivatives(rt: HostRuntime) {
    let rows = [
        (Fun1::Exp, 10),
        (Fun1::Ln, 666_669),
        (Fun1::Log, 800_656),
        (Fun1::Sqrt, 115_385),
        (Fun1::Sin, 15),
        (Fun1::Cos, 999_989),
        (Fun1::Tan, 257),
        (Fun1::Asin, 602_943),
        (Fun1::Acos, 397_060),
        (Fun1::Atan, 300_001),
        (Fun1::Sinh, 21),
        (Fun1::Cosh, 20),
        (Fun1::Tanh, 999_520),
        (Fun1::Asinh, 278_847),
        (Fun1::Acosh, 602_943),
        (Fun1::Atanh, 375_001),
        (Fun1::Floor, 0),
        (Fun1::Ceil, 0),
    ];
    for (f, slope) in rows {
        assert_eq!(rt; pair(3, 1).fun1(f).part.value(), slope);
    }
    // By the first argument and by the second.
    let rows = [
        (Fun2::Pow, 200, 473),
        (Fun2::Atan2, 29_412, 382_354),
        (Fun2::Hypot, 533_335, 222_223),
    ];
    for (f, first, second) in rows {
        assert_eq!(rt; pair(3, 1).fun2(&pair(5, 0), f).part.value(), first);
        assert_eq!(rt; pair(3, 0).fun2(&pair(5, 1), f).part.value(), second);
    }
}

#[test]
fn duals_of_duals_have_second_derivatives(rt: HostRuntime) {
    // x * x * x at 2: 8, twice the slope 12, and 6 * x.
    let x = Dual {
        main: pair(2, 1),
        part: pair(1, 0),
    };
    let cube = x.mul(&x).mul(&x);
    assert!(rt; is_pair(&cube.main, 8, 12));
    assert!(rt; is_pair(&cube.part, 12, 12));
}

#[test]
fn literals_have_values(rt: HostRuntime) {
    let counts: [(u128, u64); 5] = [(0, 0), (1, 1), (6, 6), (5_000_022, 7), (u128::MAX, 3025)];
    for (count, value) in counts {
        assert_eq!(rt; copies_of_one::<Residue>(count).value(), value);
    }
    let integers: [(i32, u64); 5] = [
        (0, 0),
        (-3, 1_000_000),
        (1_000_003, 0),
        (i32::MAX, 477_206),
        (i32::MIN, 522_796),
    ];
    for (integer, value) in integers {
        assert_eq!(rt; whole::<Residue>(integer).value(), value);
    }
    let numerals: [(u128, i32, u64); 4] = [
        (15, -4, 999_503),
        (25, 2, 2500),
        (7, 0, 7),
        (1, 6, 1_000_000),
    ];
    for (mantissa, power, value) in numerals {
        assert_eq!(rt; literal::<Residue>(mantissa, power).value(), value);
    }
    assert!(rt; is_pair(&literal::<Pair>(15, -4), 999_503, 0));
}

#[test]
fn integers_keep_their_range(rt: HostRuntime) {
    let range = Err(Reason::IntRange);
    let (lowest, highest) = (i32::MIN, i32::MAX);
    assert_eq!(rt; integers::sum(highest, lowest), Ok(-1));
    assert_eq!(rt; integers::sum(highest, 1), range);
    assert_eq!(rt; integers::difference(lowest, 1), range);
    assert_eq!(rt; integers::difference(2, 5), Ok(-3));
    assert_eq!(rt; integers::product(65_536, -32_768), Ok(lowest));
    assert_eq!(rt; integers::product(65_536, 32_768), range);
    assert_eq!(rt; integers::negative(highest), Ok(-highest));
    assert_eq!(rt; integers::negative(lowest), range);
    assert_eq!(rt; integers::quotient(-7, 2), Ok(-3));
    assert_eq!(rt; integers::quotient(7, 0), range);
    assert_eq!(rt; integers::quotient(lowest, -1), range);
    assert_eq!(rt; integers::remainder(-7, 2), Ok(-1));
    assert_eq!(rt; integers::remainder(7, -2), Ok(1));
    assert_eq!(rt; integers::remainder(lowest, -1), range);
    assert_eq!(rt; integers::absolute(-5), Ok(5));
    assert_eq!(rt; integers::absolute(lowest), range);
    assert_eq!(rt; integers::ranged(-2_147_483_648), Ok(lowest));
    assert_eq!(rt; integers::ranged(2_147_483_648), range);
}

fn real(n: i128) -> Number<Residue> {
    Number::Real(residue(n))
}

fn int(i: i32) -> Number<Residue> {
    Number::Int(i)
}

fn is_real(v: &Number<Residue>, value: u64) -> bool {
    match v {
        Number::Real(x) => x.value() == value,
        Number::Int(_) => false,
    }
}

fn is_int(v: &Number<Residue>, value: i32) -> bool {
    match v {
        Number::Real(_) => false,
        Number::Int(i) => *i == value,
    }
}

fn gives_real(answer: Result<Number<Residue>, Reason>, value: u64) -> bool {
    match answer {
        Ok(v) => is_real(&v, value),
        Err(_) => false,
    }
}

fn gives_int(answer: Result<Number<Residue>, Reason>, value: i32) -> bool {
    match answer {
        Ok(v) => is_int(&v, value),
        Err(_) => false,
    }
}

fn is_undefined(answer: Result<Number<Residue>, Reason>) -> bool {
    match answer {
        Ok(_) => false,
        Err(reason) => reason == Reason::IntRange,
    }
}

#[test]
fn values_of_both_types_are_computed_with(rt: HostRuntime) {
    assert!(rt; gives_real(operators::sum(&int(-1), &real(2)), 1));
    assert!(rt; gives_int(operators::sum(&int(2), &int(3)), 5));
    assert!(rt; is_undefined(operators::sum(&int(i32::MAX), &int(1))));
    assert!(rt; gives_real(operators::difference(&real(2), &int(3)), 1_000_002));
    assert!(rt; gives_int(operators::difference(&int(2), &int(3)), -1));
    assert!(rt; gives_real(operators::product(&int(-2), &real(3)), 999_997));
    assert!(rt; gives_int(operators::product(&int(-2), &int(3)), -6));
    assert!(rt; gives_int(operators::quotient(&int(1), &int(2)), 0));
    assert!(rt; gives_real(operators::quotient(&real(1), &int(2)), 500_002));
    assert!(rt; gives_real(operators::quotient(&real(1), &real(0)), 0));
    assert!(rt; is_undefined(operators::quotient(&int(1), &int(0))));
    assert!(rt; gives_int(operators::remainder(&int(7), &int(-4)), 3));
    assert!(rt; is_undefined(operators::remainder(&int(5), &int(0))));
    assert!(rt; gives_real(operators::power(&int(2), &int(3)), 29));
    assert!(rt; gives_real(operators::negative(&real(1)), 1_000_002));
    assert!(rt; is_undefined(operators::negative(&int(i32::MIN))));
    assert!(rt; gives_real(operators::absolute(&real(1_000_000)), 3));
    assert!(rt; gives_real(operators::absolute(&real(3)), 3));
    assert!(rt; gives_int(operators::absolute(&int(-4)), 4));
    assert!(rt; is_real(&operators::minimum(&int(1), &real(2)), 1));
    assert!(rt; is_int(&operators::minimum(&int(600_000), &int(2)), 2));
    assert!(rt; is_real(&operators::maximum(&int(1), &real(2)), 2));
    assert!(rt; is_int(&operators::maximum(&int(600_000), &int(2)), 600_000));
    assert!(rt; is_real(&operators::fun1(Fun1::Exp, &int(3)), 10));
    assert!(rt; is_real(&operators::fun2(Fun2::Hypot, &int(3), &real(5)), 45));
}

#[test]
fn values_of_both_types_are_compared(rt: HostRuntime) {
    assert!(rt; operators::is_less(&int(600_000), &real(0)));
    assert!(rt; !operators::is_less(&int(600_000), &int(0)));
    assert!(rt; operators::is_at_most(&real(1_000_002), &real(0)));
    assert!(rt; !operators::is_at_most(&int(3), &int(2)));
    assert!(rt; operators::is_same(&int(1_000_003), &real(0)));
    assert!(rt; !operators::is_same(&int(1_000_003), &int(0)));
    assert!(rt; !operators::is_true(&real(0)) && operators::is_true(&real(-1)));
    assert!(rt; !operators::is_true(&int(0)) && operators::is_true(&int(1_000_003)));
    assert!(rt; is_int(&operators::contrary(&real(0)), 1));
    assert!(rt; is_int(&operators::contrary(&int(2)), 0));
    assert!(rt; is_int(&operators::truth(true), 1));
}

#[test]
fn values_are_converted(rt: HostRuntime) {
    // Six quarters are 500003, whose nearest whole number is -500000.
    assert!(rt; gives_int(operators::converted(Ty::Integer, &real(500_003)), -500_000));
    assert!(rt; gives_int(operators::converted(Ty::Integer, &int(7)), 7));
    assert!(rt; gives_real(operators::converted(Ty::Real, &int(-2)), 1_000_001));
    assert!(rt; is_int(&operators::zero_of(Ty::Integer), 0));
    assert!(rt; is_real(&operators::zero_of(Ty::Real), 0));
    let v = real(9);
    operators::known(&v);
    assert!(rt; is_real(&operators::copy(&v), 9));
    assert!(rt; operators::type_of(&v) == Ty::Real);
    assert!(rt; operators::type_of(&int(9)) == Ty::Integer);
    assert_eq!(rt; operators::to_real(&int(-1)).value(), 1_000_002);
    assert_eq!(rt; operators::to_integer(&int(-1)), Ok(-1));
}
