//! Dual numbers over an algebra whose operations a program can call.
use crate::compute::Compute;
use crate::derivative::{derivative, derivative_in_first, derivative_in_second};
use alg_laws::{Dual, Fun1, Fun2};

impl<A: Compute> Compute for Dual<A> {
    fn zero() -> Self {
        Dual {
            main: A::zero(),
            part: A::zero(),
        }
    }

    fn one() -> Self {
        Dual {
            main: A::one(),
            part: A::zero(),
        }
    }

    fn copy(&self) -> Self {
        Dual {
            main: self.main.copy(),
            part: self.part.copy(),
        }
    }

    fn add(&self, y: &Self) -> Self {
        Dual {
            main: self.main.add(&y.main),
            part: self.part.add(&y.part),
        }
    }

    fn neg(&self) -> Self {
        Dual {
            main: self.main.neg(),
            part: self.part.neg(),
        }
    }

    fn mul(&self, y: &Self) -> Self {
        Dual {
            main: self.main.mul(&y.main),
            part: self.main.mul(&y.part).add(&self.part.mul(&y.main)),
        }
    }

    fn recip(&self) -> Self {
        let main = self.main.recip();
        let part = self.part.neg().mul(&main).mul(&main);
        Dual { main, part }
    }

    fn fun1(&self, f: Fun1) -> Self {
        Dual {
            main: self.main.fun1(f),
            part: derivative(f, &self.main).mul(&self.part),
        }
    }

    fn fun2(&self, y: &Self, f: Fun2) -> Self {
        let by_first = derivative_in_first(f, &self.main, &y.main).mul(&self.part);
        let by_second = derivative_in_second(f, &self.main, &y.main).mul(&y.part);
        Dual {
            main: self.main.fun2(&y.main, f),
            part: by_first.add(&by_second),
        }
    }

    fn less(&self, y: &Self) -> bool {
        self.main.less(&y.main)
    }

    fn at_most(&self, y: &Self) -> bool {
        self.main.at_most(&y.main)
    }

    fn same(&self, y: &Self) -> bool {
        self.main.same(&y.main)
    }

    fn near(&self) -> i64 {
        self.main.near()
    }

    fn known(&self) {
        self.main.known();
        self.part.known();
    }
}
