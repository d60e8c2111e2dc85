// SUITE HOPS BODY: a suite and the sizes of its packets, as a line of words names them.
ghost use Rattle.std.specs.Prelude.{◌≡◌, ◌≤◌, IfSome, option_map};
ghost use Rattle.lab_text.specs.Sizes.{AreSizesInRange, geometry_of, sizes_in};
ghost use Rattle.lab_text.specs.Words.{words_of};

use crate::{next_number, next_word, read_suite};
use packet_form::Geometry;

/// A suite and the sizes of its packets.
#[derive(Clone, Copy, Debug, PartialEq, Eq)]
pub struct SizesLine {
    /// Whether the suite is `ntru` and not `lab`.
    pub ntru: bool,
    /// The greatest number of hops, 1 to 5.
    pub hops: usize,
    /// The bytes of a body, 1 to 4096.
    pub body: usize,
}

impl SizesLine {
    /// The geometry of these sizes, where a ciphertext has `ct` bytes. Asks at most 4,096, and sizes in their ranges.
    pub fn geometry(&self, ct: usize) -> Geometry
        requires ciphertext { ct ≤ 4096 }
        requires in_range { AreSizesInRange self.now }
        ensures { result ≡ geometry_of ct self.now }
    {
        let Ok(geometry) = Geometry::new(ct, self.hops, self.body) else {
            unreachable!()
        };
        geometry
    }
}

/// SUITE HOPS BODY as the first words, and what stands behind them.
pub fn next_sizes(rest: &[u8]) -> Option<(SizesLine, &[u8])>
    ensures exact { option_map (λ x. (x.0, words_of x.1.now)) result
        ≡ sizes_in (words_of rest.now) }
    ensures in_range { IfSome result (λ x. AreSizesInRange x.0) }
{
    let (name, rest) = next_word(rest)?;
    let ntru = read_suite(name)?;
    let (hops, rest) = next_number(rest, 1, 5)?;
    let (body, rest) = next_number(rest, 1, 4096)?;
    let sizes = SizesLine {
        ntru,
        hops: hops as usize,
        body: body as usize,
    };
    Some((sizes, rest))
}
