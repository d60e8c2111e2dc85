// The polynomials that drawn words make.
ghost use Rattle.std.specs.Prelude.{◌≡◌, length, map, IfOk};
ghost use Rattle.ntru_ring.specs.Polynomials.{weight};
ghost use Rattle.ntru_prime.specs.Drawing.{carried_coefficient, drawn_coefficient, drawn_polynomial, even, marked, one_of_four, sorted, weight_polynomial};

use mix_base::Memory;
use ntru_ring::Poly3;
use std::alloc::Global;

// The polynomial of 761 words, a coefficient from each.
#[tactic(auto, using(crate::proofs::Coefficients::drawn_is_polynomial))]
pub(crate) fn drawn_polynomial(alloc: Global, words: &[u32]) -> Result<Poly3, Memory>
    requires { length words.now ≡ 761 }
    ensures { IfOk result (λ p. p ≡ drawn_polynomial words.now) }
{
    let list = drawn_coefficients(alloc, words)?;
    Poly3::from_list(alloc, &list)
}

fn drawn_coefficients(alloc: Global, words: &[u32]) -> Result<Vec<i8>, Memory>
    ensures { IfOk result (λ list. list.items ≡ drawn_polynomial words.now) }
{
    Ok(
        words
            .iter()
            .map(|word| drawn_coefficient(*word))
            .collect(alloc)?,
    )
}

// The coefficient of the low 30 bits of a word.
fn drawn_coefficient(word: u32) -> i8
    ensures { result ≡ drawn_coefficient word }
{
    (word % (1 << 30) * 3 / (1 << 30)) as i8 - 1
}

// The polynomial of weight 286 of 761 words.
#[tactic(auto, using(crate::proofs::Coefficients::weight_is_286, crate::proofs::Coefficients::weight_is_polynomial))]
pub(crate) fn weight_polynomial(alloc: Global, words: &[u32]) -> Result<Poly3, Memory>
    requires { length words.now ≡ 761 }
    ensures value { IfOk result (λ p. p ≡ weight_polynomial words.now) }
    ensures weight { IfOk result (λ p. weight p ≡ 286) }
{
    let list = weight_coefficients(alloc, words)?;
    Poly3::from_list(alloc, &list)
}

fn weight_coefficients(alloc: Global, words: &[u32]) -> Result<Vec<i8>, Memory>
    requires { length words.now ≡ 761 }
    ensures { IfOk result (λ list. list.items ≡ weight_polynomial words.now) }
{
    let mut marked = marked(alloc, words)?;
    sort(&mut marked);
    carried_coefficients(alloc, &marked)
}

// The words with their marks: 286 for coefficients other than 0, and the others for zeros.
#[tactic(auto, unfolding(crate::specs::Drawing::marked))]
fn marked(alloc: Global, words: &[u32]) -> Result<Vec<u32>, Memory>
    requires { length words.now ≡ 761 }
    ensures { IfOk result (λ list. list.items ≡ marked words.now) }
{
    let (nonzero, zero) = words.split_at(286);
    let nonzero = nonzero.iter().map(|word| even(*word));
    let zero = zero.iter().map(|word| one_of_four(*word));
    Ok(nonzero.chain(zero).collect(alloc)?)
}

fn even(word: u32) -> u32
    ensures { result ≡ even word }
{
    word - word % 2
}

fn one_of_four(word: u32) -> u32
    ensures { result ≡ one_of_four word }
{
    word - word % 4 + 1
}

// Puts words in ascending order.
fn sort(words: &mut [u32])
    ensures { words.new ≡ sorted words.old }
{
    words.sort_unstable();
}

fn carried_coefficients(alloc: Global, words: &[u32]) -> Result<Vec<i8>, Memory>
    ensures { IfOk result (λ list. list.items ≡ map carried_coefficient words.now) }
{
    Ok(
        words
            .iter()
            .map(|word| carried_coefficient(*word))
            .collect(alloc)?,
    )
}

fn carried_coefficient(word: u32) -> i8
    ensures { result ≡ carried_coefficient word }
{
    (word % 4) as i8 - 1
}
