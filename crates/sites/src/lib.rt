// A set of sites, of which the lowest is found in constant time. A site is a target below 32 and a slot below 33, as a number target * 33 + slot.
// The set is 33 numbers: for each target a row, with a binary digit for each slot in the set, and last a digit for each target whose row is not 0.
#![tactic(auto)]

ghost use Rattle.std.specs.Prelude.{◌≡◌, List, ℕ, ◌+◌, ◌*◌, ◌<◌, replicate};
ghost use Rattle.sites.specs.Sites.{Has, Sites, Inserted, Removed, Lowest};

use std::marker::Model;

// A site.
#[derive(Clone, Copy)]
pub struct Site {
    pub target: usize,
    pub slot: usize,
}

// Puts the site of target t and slot s into the set.
pub fn insert(rows: &mut [u64], t: usize, s: usize)
    requires t_bound { (t < 32) × (s < 33) }
    requires sites { Sites rows.old }
    ensures { Inserted rows.old (t * 33 + s) rows.new }
{
    rows[t] |= 1u64 << s;
    rows[32] |= 1u64 << t;
}

// Takes the site of target t and slot s out of the set.
pub fn remove(rows: &mut [u64], t: usize, s: usize)
    requires t_bound { (t < 32) × (s < 33) }
    requires sites { Sites rows.old }
    requires has { Has rows.old (t * 33 + s) }
    ensures { Removed rows.old (t * 33 + s) rows.new }
{
    rows[t] ^= 1u64 << s;
    if rows[t] == 0 {
        rows[32] ^= 1u64 << t;
    }
}

// The lowest site in the set.
pub fn lowest(rows: &[u64]) -> Site
    requires sites { Sites rows.now }
    requires by_index { (x : ℕ) × (x < 1056) × Has rows.now x }
    ensures { Lowest rows.now result.target result.slot }
{
    let target = rows[32].trailing_zeros() as usize;
    let slot = rows[target].trailing_zeros() as usize;
    Site { target, slot }
}

// A set of sites of its own. Contracts see its 33 numbers.
#[derive(Drop)]
pub struct SiteSet {
    rows: [u64; 33],
}

impl Model for SiteSet {
    ghost Value = { List ℕ };

    ghost view = { λ s. s.rows };

    ghost invariant = { λ s. Sites s.rows };
}

impl SiteSet {
    // The set with no site.
    pub fn new() -> Self
        ensures { result ≡ replicate 33 0 }
    {
        SiteSet { rows: [0; 33] }
    }

    // Puts a site into the set.
    pub fn insert(&mut self, site: Site)
        requires site_bound { (site.target < 32) × (site.slot < 33) }
        ensures { Inserted self.old (site.target * 33 + site.slot) self.new }
    {
        insert(&mut self.rows, site.target, site.slot);
    }

    // Takes a site out of the set.
    pub fn remove(&mut self, site: Site)
        requires site_bound { (site.target < 32) × (site.slot < 33) }
        requires has { Has self.old (site.target * 33 + site.slot) }
        ensures { Removed self.old (site.target * 33 + site.slot) self.new }
    {
        remove(&mut self.rows, site.target, site.slot);
    }

    // The lowest site in the set.
    pub fn lowest(&self) -> Site
        requires { (x : ℕ) × (x < 1056) × Has self.now x }
        ensures { Lowest self.now result.target result.slot }
    {
        lowest(&self.rows)
    }
}
