// Products and roundings against an independent program's, and the smallest cases by hand, as tables.
ghost use Rattle.ntru_ring.specs.Centring.{IsWithin};

use super::*;
use mix_base::Memory;
use std::alloc::Global;
use std::process::Abort;
use std::test::Fail;

// Coefficients at some places.
type Terms<'a> = &'a [(usize, i16)];

// The polynomial with these terms, and the same coefficient at every other place.
fn polynomial(alloc: Global, terms: Terms<'_>, others: i16) -> Result<PolyQ, Memory> {
    let mut list = Vec::with_capacity(alloc, 761)?;
    for place in 0..761 {
        list.push(bounded(coefficient(terms, others, place)))?;
    }
    PolyQ::from_list(alloc, &list)
}

fn coefficient(terms: Terms<'_>, others: i16, place: usize) -> i16 {
    for (at, c) in terms {
        if *at == place {
            return *c;
        }
    }
    others
}

fn bounded(c: i16) -> i16
    ensures { IsWithin 2295 result }
{
    c.clamp(-2295, 2295)
}

// The terms, and at every other place the coefficient given, if any.
fn expect(rt: &impl Abort, found: &PolyQ, terms: Terms<'_>, others: Option<i16>) {
    for place in 0..761 {
        let unknown = found.at(place);
        assert_eq!(rt;
            found.at(place),
            coefficient(terms, others.unwrap_or(unknown), place),
            "x^{place}"
        );
    }
}

#[test]
fn products_modulo_4591(rt: HostRuntime) -> Result<(), Fail> {
    let alloc = rt.alloc();
    let cases: [(Terms, i16, Terms, i16, Terms, Option<i16>); 6] = [
        (&[(760, 1)], 0, &[(1, 1)], 0, &[(0, 1), (1, 1)], Some(0)),
        (
            &[(760, 1)],
            0,
            &[(760, 1)],
            0,
            &[(759, 1), (760, 1)],
            Some(0),
        ),
        (&[(0, 1)], 0, &[(3, 7)], -9, &[(3, 7)], Some(-9)),
        (&[(0, 2)], 0, &[(2, 2295)], 0, &[(2, -1)], Some(0)),
        (&[(0, 2)], 0, &[(2, 1148)], 1147, &[(2, -2295)], Some(2294)),
        (
            &[],
            2295,
            &[],
            -2295,
            &[
                (0, -1338),
                (1, -1528),
                (2, -380),
                (3, 768),
                (4, 1916),
                (5, -1527),
                (757, -1339),
                (758, -191),
                (759, 957),
                (760, 2105),
            ],
            None,
        ),
    ];
    for (a, a_others, b, b_others, terms, others) in cases {
        let a = polynomial(alloc, a, a_others)?;
        let b = polynomial(alloc, b, b_others)?;
        expect(&rt, &mul_q(alloc, &a, &b)?, terms, others);
    }
    Ok(())
}

#[test]
fn products_modulo_3(rt: HostRuntime) -> Result<(), Fail> {
    let alloc = rt.alloc();
    let cases: [(Terms, Terms, Terms); 4] = [
        (&[(760, 1)], &[(1, 1)], &[(0, 1), (1, 1)]),
        (&[(760, 1)], &[(760, -1)], &[(759, -1), (760, -1)]),
        (
            &[(0, 1), (1, 1)],
            &[(0, 1), (1, 1)],
            &[(0, 1), (1, -1), (2, 1)],
        ),
        (
            &[(0, 1), (760, 1)],
            &[(0, 1), (1, 1)],
            &[(0, -1), (1, -1), (760, 1)],
        ),
    ];
    for (a, b, terms) in cases {
        let a = reduce_3(alloc, &polynomial(alloc, a, 0)?)?;
        let b = reduce_3(alloc, &polynomial(alloc, b, 0)?)?;
        expect(&rt, &lift(alloc, &mul_3(alloc, &a, &b)?)?, terms, Some(0));
    }
    Ok(())
}

#[test]
fn each_coefficient(rt: HostRuntime) -> Result<(), Fail> {
    let alloc = rt.alloc();
    // A coefficient, tripled, modulo 3, rounded.
    let cases: [[i16; 4]; 14] = [
        [0, 0, 0, 0],
        [1, 3, 1, 0],
        [2, 6, -1, 3],
        [-2, -6, 1, -3],
        [765, 2295, 0, 765],
        [766, -2293, 1, 765],
        [2084, 1661, -1, 2085],
        [-183, -549, 0, -183],
        [1215, -946, 0, 1215],
        [-941, 1768, 1, -942],
        [-2165, -1904, 1, -2166],
        [2293, 2288, 1, 2292],
        [2295, 2294, 0, 2295],
        [-2294, -2291, 1, -2295],
    ];
    for [c, tripled, reduced, rounded] in cases {
        let a = polynomial(alloc, &[(5, c), (760, c)], 0)?;
        let in_both = |c| [(5, c), (760, c)];
        expect(&rt, &triple(alloc, &a)?, &in_both(tripled), Some(0));
        expect(&rt, &round_q(alloc, &a)?, &in_both(rounded), Some(0));
        let small = reduce_3(alloc, &a)?;
        expect(&rt, &lift(alloc, &small)?, &in_both(reduced), Some(0));
        assert_eq!(rt; weight(&small), if reduced == 0 { 0 } else { 2 });
    }
    Ok(())
}

#[test]
fn small_coefficients(rt: HostRuntime) -> Result<(), Fail> {
    let ones = Poly3::from_list(rt.alloc(), &[-1; 761])?;
    assert_eq!(rt; ones.at(760), -1);
    assert_eq!(rt; weight(&ones), 761);
    Ok(())
}
