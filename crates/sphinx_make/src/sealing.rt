// Encapsulation to the hops of a path: to each with its own coins, in path order.
ghost use Rattle.std.specs.Prelude.{◌≡◌, ◌*◌, length, position, All, IfOk};
ghost use Rattle.std.specs.Option.{ok_or};
ghost use Rattle.mix_base.specs.Results.{Gives, GivesAs};
ghost use Rattle.sphinx_make.specs.Faults.{cause_of};
ghost use Rattle.sphinx_make.specs.Making.{checked, checked_count, is_late, sealed_hop, sealed_path};
ghost use Rattle.sphinx_make.specs.Sealing.{HasKeyLengths};
ghost use Rattle.sphinx_make.specs.declared.faults.MakeFault.TheVariants.{KeyForm};

use crate::path::SealedHop;
use crate::{HopSpec, MakeFault};
use mix_base::{Bytes, EncapFault, Kdf, Kem, Suite};
use packet_form::{Geometry, LONGEST_DELAY};
use std::alloc::Global;

// Whether a hop's delay is too long.
fn is_too_late(hop: &HopSpec) -> bool
    ensures { result ≡ is_late hop.now }
{
    match hop.delay {
        Some(delay) => delay > LONGEST_DELAY,
        None => false,
    }
}

// The first hop whose delay is too long.
fn first_late(path: &[HopSpec]) -> Option<usize>
    ensures { result ≡ position is_late path.now }
{
    path.iter().position(|hop| is_too_late(hop))
}

/// The refusal of a path of no hop, or of more than the geometry allows.
#[tactic(auto, unfolding(crate::specs::Making::checked_count))]
pub fn check_count(geo: &Geometry, path: &[HopSpec]) -> Result<(), MakeFault>
    ensures { result ≡ checked_count geo.now path.now }
{
    if path.is_empty() || path.len() > geo.hops() {
        return Err(MakeFault::PathLength);
    }
    Ok(())
}

/// The refusals that need no key: the path's length, and then the first delay that is too long.
#[tactic(auto, unfolding(crate::specs::Making::checked))]
pub fn check_path(geo: &Geometry, path: &[HopSpec]) -> Result<(), MakeFault>
    ensures { result ≡ checked geo.now path.now }
{
    check_count(geo, path)?;
    match first_late(path) {
        Some(hop) => Err(MakeFault::Delay { hop }),
        None => Ok(()),
    }
}

// A hop with what encapsulation to its key makes; its place is that of a refusal.
#[tactic(auto, unfolding(crate::specs::Making::sealed_hop))]
fn seal_hop<S: Suite>(
    alloc: Global,
    hop: &HopSpec,
    place: usize,
    coins: &[u32],
) -> Result<SealedHop, MakeFault>
    requires { length coins.now ≡ S.K.COINS }
    ensures exact { Gives cause_of result
        (ok_or (sealed_hop S.meaning hop.now coins.now) (KeyForm place)) }
    ensures lengths { IfOk result (HasKeyLengths S.K.CT) }
{
    if hop.key.as_slice().len() != S::K::PK {
        return Err(MakeFault::KeyForm { hop: place });
    }
    let mut ciphertext = vec![in alloc; 0; S::K::CT]?;
    let mut secret = [0; 32];
    match S::K::encap(
        alloc,
        hop.key.as_slice(),
        coins,
        &mut ciphertext,
        &mut secret,
    ) {
        Ok(()) => Ok(SealedHop {
            id: hop.id,
            delay: hop.delay,
            ciphertext: Bytes::of(ciphertext),
            keys: S::D::expand(&secret),
        }),
        Err(EncapFault::KeyForm) => Err(MakeFault::KeyForm { hop: place }),
        Err(EncapFault::Memory) => Err(MakeFault::Memory),
    }
}

/// Each hop of the path with what encapsulation to its key makes, or the first that isn't sealed. Asks as many coins
/// for each hop as the mechanism takes.
pub fn seal_path<S: Suite>(
    alloc: Global,
    path: &[HopSpec],
    coins: &[u32],
) -> Result<Vec<SealedHop>, MakeFault>
    requires { length coins.now ≡ length path.now * S.K.COINS }
    ensures exact { GivesAs cause_of (λ sealed. sealed.items) result
        (sealed_path S.meaning 0 path.now coins.now) }
    ensures lengths { IfOk result (λ sealed. All (HasKeyLengths S.K.CT) sealed.items) }
{
    let mut sealed = Vec::with_capacity(alloc, path.len())?;
    let mut rest = coins;
    'sealing: for (place, hop) in path.iter().enumerate() {
        let (own, others) = rest.split_at(S::K::COINS);
        let next = seal_hop::<S>(alloc, hop, place, own)?;
        sealed.push(next)?;
        rest = others;
    }
    Ok(sealed)
}
