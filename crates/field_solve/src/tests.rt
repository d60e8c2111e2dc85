// Inverses and divisors against values from outside, as a table.
ghost use Rattle.std.specs.Prelude.{◌/◌, IfOk};
ghost use Rattle.ntru_ring.specs.Centring.{IsWithin};
ghost use Rattle.ntru_ring.specs.Polynomials.{IsPolynomial};
ghost use Rattle.field_solve.specs.Moduli.{prime_of};

use super::*;
use mix_base::Memory;
use ntru_ring::{PolyQ, mul_q};
use std::alloc::Global;
use std::test::Fail;

// The coefficients other than 0, with their places.
type Terms<'a> = &'a [(usize, i16)];

fn at(terms: Terms<'_>, place: usize) -> i16 {
    for (here, c) in terms {
        if *here == place {
            return *c;
        }
    }
    0
}

fn within(modulus: Modulus, c: i16) -> i16
    ensures { IsWithin (prime_of modulus / 2) result }
{
    match modulus {
        Modulus::Three => c.clamp(-1, 1),
        Modulus::Q => c.clamp(-2295, 2295),
    }
}

fn polynomial(alloc: Global, modulus: Modulus, terms: Terms<'_>) -> Result<Vec<i16>, Memory>
    ensures { IfOk result (λ p. IsPolynomial (prime_of modulus / 2) p.items) }
{
    let mut list = Vec::new(alloc);
    for place in 0..761 {
        list.push(within(modulus, at(terms, place)))?;
    }
    Ok(list)
}

// A factor of x^761 - x - 1 modulo 3.
const FACTOR: [(usize, i16); 17] = [
    (0, 1),
    (1, 1),
    (3, 1),
    (4, 1),
    (5, 1),
    (6, -1),
    (7, 1),
    (8, -1),
    (9, 1),
    (11, 1),
    (12, -1),
    (13, -1),
    (14, -1),
    (15, -1),
    (16, 1),
    (18, -1),
    (19, -1),
];

// Terms of the inverse, or none where there is a divisor of zero.
#[test]
fn inverses_and_divisors(rt: HostRuntime) -> Result<(), Fail> {
    let alloc = rt.alloc();
    let cases: [(Modulus, Terms, Option<Terms>); 10] = [
        (
            Modulus::Three,
            &[(1, 1)],
            Some(&[(0, -1), (1, 0), (759, 0), (760, 1)]),
        ),
        (
            Modulus::Q,
            &[(1, 1)],
            Some(&[(0, -1), (1, 0), (759, 0), (760, 1)]),
        ),
        (Modulus::Three, &[], None),
        (Modulus::Q, &[], None),
        (
            Modulus::Q,
            &[(2, 1)],
            Some(&[(0, 1), (1, 0), (758, 0), (759, 1), (760, -1)]),
        ),
        (Modulus::Q, &[(0, 2)], Some(&[(0, -2295), (1, 0), (760, 0)])),
        (
            Modulus::Three,
            &[(0, 1), (759, 1)],
            Some(&[
                (0, -1),
                (1, 0),
                (2, -1),
                (3, 1),
                (757, 0),
                (758, -1),
                (759, 1),
                (760, 0),
            ]),
        ),
        (
            Modulus::Q,
            &[(0, 1), (759, 1)],
            Some(&[
                (0, -2295),
                (1, 0),
                (2, -2295),
                (3, 2295),
                (758, -2295),
                (759, 2295),
                (760, 0),
            ]),
        ),
        (Modulus::Three, &FACTOR, None),
        (
            Modulus::Q,
            &FACTOR,
            Some(&[
                (0, 997),
                (1, 431),
                (2, -1119),
                (757, -282),
                (758, 444),
                (759, 175),
                (760, 2009),
            ]),
        ),
    ];
    for (modulus, poly, expected) in cases {
        let inverse = match invert(alloc, modulus, &polynomial(alloc, modulus, poly)?)? {
            Solved::Inverse(u) => Some(u),
            Solved::Divisor(_) => None,
        };
        assert_eq!(rt;
            inverse.is_some(),
            expected.is_some(),
            "{modulus:?} {poly:?}"
        );
        if let (Some(u), Some(terms)) = (inverse, expected) {
            for (place, c) in terms {
                assert_eq!(rt;
                    u.get(*place).copied(),
                    Some(*c),
                    "x^{place} {modulus:?} {poly:?}"
                );
            }
        }
    }
    Ok(())
}

// What is found is multiplied out by the ring's own product.
#[test]
fn products_of_what_is_found(rt: HostRuntime) -> Result<(), Fail> {
    let alloc = rt.alloc();
    let cases: [(Terms, i16); 3] = [(&[(0, 7), (1, 2295), (760, -3)], 1), (&FACTOR, 1), (&[], 0)];
    for (poly, one) in cases {
        let poly = polynomial(alloc, Modulus::Q, poly)?;
        let found = match invert(alloc, Modulus::Q, &poly)? {
            Solved::Inverse(u) => u,
            Solved::Divisor(v) => v,
        };
        let product = mul_q(
            alloc,
            &PolyQ::from_list(alloc, &poly)?,
            &PolyQ::from_list(alloc, &found)?,
        )?;
        for place in 0..761 {
            assert_eq!(rt;
                product.at(place),
                if place == 0 { one } else { 0 },
                "x^{place}"
            );
        }
    }
    Ok(())
}
