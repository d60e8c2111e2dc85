// The first lines of the requests: the suite and the sizes of a geometry, and for `make` a seed.
ghost use Rattle.std.specs.Prelude.{◌≡◌, IfSome};
ghost use Rattle.lab_text.specs.Sizes.{AreSizesInRange};
ghost use Rattle.lab_text.specs.Words.{words_of};
ghost use Rattle.mix_tools.specs.FirstLines.{layout_of, seed_line, sizes_line};

use crate::requests::{Layout, SeedLine};
use lab_text::{SizesLine, next_sizes, one_word, read_32, without_words};
use mix_base::Kem;
use ntru_prime::NtruKem;
use prim_std::LabKem;

/// The suite, the sizes and a seed.
pub fn read_seed_line(rest: &[u8]) -> Option<SeedLine>
    ensures exact { result ≡ seed_line (words_of rest.now) }
    ensures in_range { IfSome result (λ line. AreSizesInRange line.sizes) }
{
    let (sizes, rest) = next_sizes(rest)?;
    let seed = read_32(one_word(rest)?)?;
    Some(SeedLine { sizes, seed })
}

/// The suite and the sizes alone.
pub fn read_sizes_line(rest: &[u8]) -> Option<SizesLine>
    ensures exact { result ≡ sizes_line (words_of rest.now) }
    ensures in_range { IfSome result AreSizesInRange }
{
    let (sizes, rest) = next_sizes(rest)?;
    without_words(sizes, rest)
}

/// The suite and the geometry of a line of sizes. Asks sizes in their ranges.
pub fn layout(line: &SizesLine) -> Layout
    requires { AreSizesInRange line.now }
    ensures { result ≡ layout_of line.now }
{
    let ntru = line.ntru;
    let geometry = if ntru {
        line.geometry(NtruKem::CT)
    } else {
        line.geometry(LabKem::CT)
    };
    Layout { ntru, geometry }
}
