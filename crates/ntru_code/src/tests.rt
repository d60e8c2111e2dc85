// Bytes of an independent program in each form, read and written again, and the fields that are refused.
use super::*;
use ntru_ring::round_q;
use std::test::Fail;

// The pattern repeated, with other bytes at the beginning and at the end.
fn bytes<const N: usize>(pattern: &[u8], first: &[u8], last: &[u8]) -> [u8; N] {
    let mut bytes = [0; N];
    for (i, byte) in bytes.iter_mut().enumerate() {
        *byte = if i < first.len() {
            first[i]
        } else if N - i <= last.len() {
            last[last.len() - (N - i)]
        } else if pattern.is_empty() {
            0
        } else {
            pattern[i % pattern.len()]
        };
    }
    bytes
}

#[test]
fn small_form(rt: HostRuntime) -> Result<(), Fail> {
    let alloc = rt.alloc();
    let zero = bytes::<191>(b"\x55", b"", b"\x01");
    let some = bytes::<191>(b"\x55", b"\x85\x65", b"\x00");
    let cases: [(&[u8; 191], [i8; 9]); 2] = [
        (&zero, [0; 9]),
        (&some, [0, 0, -1, 1, 0, 0, 1, 0, -1]),
    ];
    for (spelled, coefficients) in cases {
        let polynomial = decode_small(alloc, spelled)?;
        let mut out = [0xff; 191];
        encode_small(&polynomial, &mut out);
        assert_eq!(rt; out, *spelled);
        for place in 0..8 {
            assert_eq!(rt; polynomial.at(place), coefficients[place]);
        }
        assert_eq!(rt; polynomial.at(760), coefficients[8]);
    }
    let faults: [([u8; 191], usize); 4] = [
        (bytes::<191>(b"\x55", b"\x03", b"\x55"), 0),
        (bytes::<191>(b"\x55", b"", b"\x05"), 761),
        (bytes::<191>(b"\x55", b"", b"\x07"), 760),
        (bytes::<191>(b"\x55", b"\x55\xd5", b"\x05"), 7),
    ];
    for (spelled, index) in faults {
        assert_eq!(rt;
            decode_small(alloc, &spelled).err(),
            Some(CodeFault::Range(Range { index }))
        );
    }
    Ok(())
}

#[test]
fn forms_modulo_4591(rt: HostRuntime) -> Result<(), Fail> {
    let alloc = rt.alloc();
    let pattern = b"\xf7\x30\x97\x2c\x2e\x54\x64\x2d";
    let zero = bytes::<1218>(pattern, b"", b"\xf7\x08");
    let some = bytes::<1218>(pattern, b"\x66\x8d\x5e\x4f\x7c\x2d\xd8\x14", b"\xe1\x0a");
    let cases: [(&[u8; 1218], [i16; 8]); 2] = [
        (&zero, [0; 8]),
        (&some, [-913, -604, -212, -1928, -1241, 0, 0, 490]),
    ];
    for (spelled, coefficients) in cases {
        let polynomial = decode_q(alloc, spelled)?;
        let mut out = [0xff; 1218];
        encode_q(&polynomial, &mut out);
        assert_eq!(rt; out, *spelled);
        for place in 0..6 {
            assert_eq!(rt; polynomial.at(place), coefficients[place]);
        }
        assert_eq!(rt; polynomial.at(759), coefficients[6]);
        assert_eq!(rt; polynomial.at(760), coefficients[7]);
    }
    let faults: [([u8; 1218], usize); 2] = [
        (bytes::<1218>(pattern, b"", b"\xef\x11"), 760),
        (
            bytes::<1218>(pattern, b"\x66\x8d\x5e\x4f\x7c\x3d\xca\x5a", b""),
            4,
        ),
    ];
    for (spelled, index) in faults {
        assert_eq!(rt;
            decode_q(alloc, &spelled).err(),
            Some(CodeFault::Range(Range { index }))
        );
    }
    Ok(())
}

#[test]
fn rounded_form(rt: HostRuntime) -> Result<(), Fail> {
    let alloc = rt.alloc();
    let pattern = b"\xfd\xf0\xa5\x6b";
    let zero = bytes::<1015>(pattern, b"", b"\xfd\xf0\x11");
    let some = bytes::<1015>(
        pattern,
        b"\xcd\x39\xa5\x61\x7a\x3a\xb0\x0c",
        b"\x84\xc0\x15",
    );
    let cases: [(&[u8; 1015], [i16; 9]); 2] = [
        (&zero, [0; 9]),
        (
            &some,
            [-912, -603, -213, -1929, -1242, -2025, 0, -1899, 489],
        ),
    ];
    for (spelled, coefficients) in cases {
        let polynomial = decode_rounded(alloc, spelled)?;
        let mut out = [0xff; 1015];
        let multiples = round_q(alloc, &polynomial)?;
        encode_rounded(&multiples, &mut out);
        assert_eq!(rt; out, *spelled);
        for place in 0..6 {
            assert_eq!(rt; polynomial.at(place), coefficients[place]);
        }
        for place in 758..761 {
            assert_eq!(rt; polynomial.at(place), coefficients[place - 752]);
        }
    }
    let faults: [([u8; 1015], usize); 2] = [
        (
            bytes::<1015>(pattern, b"\xfb\x05\x00\x00", b"\xfd\xf0\x11"),
            0,
        ),
        (bytes::<1015>(pattern, b"", b"\xfd\xf0\xff"), 760),
    ];
    for (spelled, index) in faults {
        assert_eq!(rt;
            decode_rounded(alloc, &spelled).err(),
            Some(CodeFault::Range(Range { index }))
        );
    }
    Ok(())
}
