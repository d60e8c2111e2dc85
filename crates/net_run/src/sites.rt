// The racks of a world are taken site by site, one for each node, and each is put back in its place.
ghost use Rattle.std.specs.Prelude.{◌≡◌, ◌+◌, ◌*◌, ◌++◌, ◌≤◌, All, IfNone, IfSome, length, reverse, vec_len, vec_capacity};
ghost use Rattle.net_run.specs.Sites.{HasSizes, IsEmptyFor, all_racks, racks_of};

use std::alloc::Global;

/// How many racks belong to a node.
const RACKS: u8 = 16;

/// The racks of a node: those of its shards, and the others of its sixteen.
#[derive(Drop)]
pub(crate) struct Site<R> {
    pub(crate) used: Vec<R>,
    pub(crate) idle: Vec<R>,
}

/// Takes so many racks from the end of a list into an empty one with room. Takes no memory.
fn pop_racks<R: Drop>(racks: &mut Vec<R>, mut taken: Vec<R>, count: u8) -> Vec<R>
    requires enough { count ≤ length racks.old.items }
    requires room { IsEmptyFor count taken }
    ensures taken { reverse racks.old.items ≡ result.items ++ reverse racks.new.items }
    ensures count { length result.items ≡ count }
    ensures len { vec_len racks.new + count ≡ vec_len racks.old }
    ensures capacity { vec_capacity racks.new ≡ vec_capacity racks.old }
{
    'racks: for _ in 0..count {
        match racks.pop() {
            Some(rack) => taken.push_reserved(rack),
            None => unreachable!(),
        }
    }
    taken
}

/// Puts racks behind the end of a list with room, the last of them first. Takes no memory.
fn push_racks<R: Drop>(racks: &mut Vec<R>, mut taken: Vec<R>)
    requires room { vec_len racks.old + vec_len taken ≤ vec_capacity racks.old }
    ensures put { reverse racks.new.items ≡ taken.items ++ reverse racks.old.items }
    ensures len { vec_len racks.new ≡ vec_len racks.old + vec_len taken }
    ensures capacity { vec_capacity racks.new ≡ vec_capacity racks.old }
{
    while let Some(rack) = taken.pop() {
        racks.push_reserved(rack);
    }
}

/// Takes a site from the end of a list of racks, whose last is the first of the site. On want of memory all stay.
fn take_site<R: Drop>(alloc: Global, racks: &mut Vec<R>, shards: u8) -> Option<Site<R>>
    requires enough { 16 ≤ length racks.old.items }
    requires shards { shards ≤ 16 }
    ensures taken { IfSome result (λ site.
        reverse racks.old.items ≡ racks_of site ++ reverse racks.new.items) }
    ensures sizes { IfSome result (HasSizes shards) }
    ensures len { IfSome result (λ site. vec_len racks.new + 16 ≡ vec_len racks.old) }
    ensures capacity { vec_capacity racks.new ≡ vec_capacity racks.old }
    ensures none { IfNone result (racks.new ≡ racks.old) }
{
    let Ok(used) = Vec::with_capacity(alloc, shards as usize) else {
        return None;
    };
    let Ok(idle) = Vec::with_capacity(alloc, (RACKS - shards) as usize) else {
        return None;
    };
    let used = pop_racks(racks, used, shards);
    let idle = pop_racks(racks, idle, RACKS - shards);
    Some(Site { used, idle })
}

/// Puts the racks of sites behind the end of a list, so that the last is the first of the first site. Takes no memory.
fn push_sites<R: Drop>(racks: &mut Vec<R>, mut sites: Vec<Site<R>>)
    requires { vec_len racks.old + length (all_racks sites.items) ≤ vec_capacity racks.old }
    ensures { reverse racks.new.items ≡ all_racks sites.items ++ reverse racks.old.items }
{
    while let Some(site) = sites.pop() {
        push_racks(racks, site.idle);
        push_racks(racks, site.used);
    }
}

/// Takes so many sites from the front of the racks, each with so many racks of shards. On want of memory all stay.
pub(crate) fn take_sites<R: Drop>(
    alloc: Global,
    racks: &mut Vec<R>,
    count: u8,
    shards: u8,
) -> Option<Vec<Site<R>>>
    requires enough { 16 * count ≤ length racks.old.items }
    requires shards { shards ≤ 16 }
    ensures taken { IfSome result (λ sites.
        racks.old.items ≡ all_racks sites.items ++ racks.new.items) }
    ensures count { IfSome result (λ sites. length sites.items ≡ count) }
    ensures sizes { IfSome result (λ sites. All (HasSizes shards) sites.items) }
    ensures room { IfSome result (λ sites.
        vec_len racks.new + length (all_racks sites.items) ≤ vec_capacity racks.new) }
    ensures none { IfNone result (racks.new.items ≡ racks.old.items) }
{
    let Ok(mut sites) = Vec::with_capacity(alloc, count as usize) else {
        return None;
    };
    racks.reverse();
    'sites: for _ in 0..count {
        match take_site(alloc, racks, shards) {
            Some(site) => sites.push_reserved(site),
            None => {
                push_sites(racks, sites);
                racks.reverse();
                return None;
            }
        }
    }
    racks.reverse();
    Some(sites)
}

/// Puts the racks of sites back in front of the others. Takes no memory.
pub(crate) fn put_sites<R: Drop>(racks: &mut Vec<R>, sites: Vec<Site<R>>)
    requires { vec_len racks.old + length (all_racks sites.items) ≤ vec_capacity racks.old }
    ensures { racks.new.items ≡ all_racks sites.items ++ racks.old.items }
{
    racks.reverse();
    push_sites(racks, sites);
    racks.reverse();
}
