// The polynomials of both rings.
ghost use Rattle.std.specs.Prelude.{◌≡◌, ◌<◌, List, ℤ, IfOk};

use mix_base::Memory;
use std::alloc::Global;
use std::marker::Model;

/// A polynomial modulo 4591: 761 coefficients from -2295 to 2295, that of x^k at place k. Contracts see the list
/// of them.
#[derive(Drop)]
pub struct PolyQ {
    pub(crate) coefficients: Vec<i16>,
}

impl Model for PolyQ {
    ghost use Rattle.std.specs.Prelude.{ℤ, List};
    ghost use Rattle.ntru_ring.specs.Polynomials.{IsPolynomial};

    ghost Value = { List ℤ };

    ghost view = { λ p. p.coefficients.items };

    ghost invariant = { λ p. IsPolynomial 2295 p.coefficients.items };
}

impl PolyQ {
    ghost use Rattle.ntru_ring.specs.Polynomials.{IsPolynomial, coefficient};

    /// The polynomial with these coefficients. Asks 761 of them, from -2295 to 2295.
    pub fn from_list(alloc: Global, list: &[i16]) -> Result<PolyQ, Memory>
        requires { IsPolynomial 2295 list.now }
        ensures { IfOk result (λ p. p ≡ list.now) }
    {
        let coefficients = Vec::from_slice(alloc, list)?;
        Ok(PolyQ { coefficients })
    }

    /// The coefficient of x^i. Asks an i below 761.
    pub fn at(&self, i: usize) -> i16
        requires { i < 761 }
        ensures value { result ≡ coefficient self.now i }
        ensures in_range { IsPolynomial 2295 self.now }
    {
        self.coefficients[i]
    }

    /// Does nothing: it tells the caller's proof that there are 761 coefficients, from -2295 to 2295.
    pub fn known_in_range(&self)
        ensures in_range { IsPolynomial 2295 self.now }
    {
        let _known = &self.coefficients;
    }
}

/// A polynomial modulo 3: 761 coefficients from -1 to 1, that of x^k at place k. Contracts see the list of them.
#[derive(Drop)]
pub struct Poly3 {
    pub(crate) coefficients: Vec<i16>,
}

impl Model for Poly3 {
    ghost use Rattle.std.specs.Prelude.{ℤ, List};
    ghost use Rattle.ntru_ring.specs.Polynomials.{IsPolynomial};

    ghost Value = { List ℤ };

    ghost view = { λ p. p.coefficients.items };

    ghost invariant = { λ p. IsPolynomial 1 p.coefficients.items };
}

impl Poly3 {
    ghost use Rattle.ntru_ring.specs.Polynomials.{IsPolynomial, coefficient};

    /// The polynomial with these coefficients. Asks 761 of them, from -1 to 1.
    pub fn from_list(alloc: Global, list: &[i8]) -> Result<Poly3, Memory>
        requires { IsPolynomial 1 list.now }
        ensures { IfOk result (λ p. p ≡ list.now) }
    {
        let coefficients = list.iter().map(|c| i16::from(*c)).collect(alloc)?;
        Ok(Poly3 { coefficients })
    }

    /// The coefficient of x^i. Asks an i below 761.
    pub fn at(&self, i: usize) -> i8
        requires { i < 761 }
        ensures value { result ≡ coefficient self.now i }
        ensures in_range { IsPolynomial 1 self.now }
    {
        self.coefficients[i] as i8
    }

    /// Does nothing: it tells the caller's proof that there are 761 coefficients, from -1 to 1.
    pub fn known_in_range(&self)
        ensures in_range { IsPolynomial 1 self.now }
    {
        let _known = &self.coefficients;
    }
}
