// The expansion of a NOT with controls, written as numbers of gates into a lent list.
#![tactic(auto)]

ghost use Rattle.std.specs.Prelude.{◌≡◌, ◌∷◌, [], ◌++◌, ◌+◌, ◌-◌, ◌/◌, ◌≤◌, ◌<◌, length, get_or, drop};
ghost use Rattle.std.proofs.Math.Seq.{slice};
ghost use Rattle.gates.specs.Code.{AllCodes, gates as gates_of};
ghost use Rattle.gates.specs.Inverse.{inverse};
ghost use Rattle.cascades.specs.Expansion.{v, v⁺, cn, ◌⨾◌, expand_with, expansion, Expandable, counts};
ghost use Rattle.cascades.specs.LineSets.{unpacked};
ghost use Rattle.cascades.specs.Signs.{nots as nots_on, between_nots};
ghost use Rattle.cascades.specs.Cascade.{Below};
ghost use Rattle.spares.specs.Spares.{listed, Lists};
ghost use Rattle.expansion.specs.Spares.{SparesOf};
ghost use Rattle.expansion.specs.Written.{Written};

use gates::{Gate, encode};
use spares::Spares;

// Gates for k = 0 to 15 controls.
const COUNTS: [u16; 16] = [
    1, 1, 5, 16, 24, 46, 68, 84, 100, 144, 188, 232, 276, 308, 340, 372,
];

// How many gates the expansion of a gate with k controls has.
pub fn count(k: usize) -> usize
    requires { k ≤ 15 }
    ensures { result ≡ get_or counts k 0 }
{
    usize::from(COUNTS[k])
}

// The spares of M0: t in the place of s, the remaining spares, then C1.
fn m0_spares(mut spares: Spares, target: u8, c1: &[u8]) -> Spares
    requires { (spares.first < spares.end) × (spares.end + length c1.now ≤ 32) }
    ensures { Lists result spares.first (spares.end + length c1.now) (target ∷ (drop 1 (listed spares) ++ c1.now)) }
{
    spares.lines[spares.first] = target;
    spares.followed(c1)
}

// The spares of M1: the remaining spares, then C0.
fn m1_spares(mut spares: Spares, c0: &[u8]) -> Spares
    requires { (spares.first < spares.end) × (spares.end + length c0.now ≤ 32) }
    ensures { Lists result (spares.first + 1) (spares.end + length c0.now) (drop 1 (listed spares) ++ c0.now) }
{
    spares.first += 1;
    spares.followed(c0)
}

// Writes one gate, and says where the next one goes.
fn put(list: &mut [u16], at: usize, g: Gate) -> usize
    requires { at < length list.old }
    ensures { Written (g ∷ []) list.old at list.new result }
{
    list[at] = encode(g);
    at + 1
}

// Writes the inverse of the gates that stand from `from` up to `to`: reversed, with v and vp exchanged.
fn invert(list: &mut [u16], from: usize, to: usize, at: usize) -> usize
    requires from_le_to { (from ≤ to) × (to ≤ at) × (at + (to - from) ≤ length list.old) }
    requires all_codes { AllCodes 32 (slice from to list.old) }
    ensures { Written (inverse (gates_of (slice from to list.old))) list.old at list.new result }
{
    let mut next = at;
    for i in (from..to).rev() {
        list[next] = gates::inverted(list[i]);
        next += 1;
    }
    next
}

// Writes the expansion of a NOT with the two controls a and b.
fn toffoli(list: &mut [u16], at: usize, a: u8, b: u8, target: u8) -> usize
    requires { at + 5 ≤ length list.old }
    ensures { Written (v b target ⨾ cn a b ⨾ v⁺ b target ⨾ cn a b ⨾ v a target) list.old at list.new result }
{
    let i = put(list, at, Gate::Powered(1, b, target));
    let j = put(list, i, Gate::Powered(2, a, b));
    let k = put(list, j, Gate::Powered(3, b, target));
    let l = put(list, k, Gate::Powered(2, a, b));
    put(list, l, Gate::Powered(1, a, target))
}

// Writes the expansion of a NOT with at most two controls, which takes no spare line.
fn expand_few(controls: &[u8], target: u8, list: &mut [u16], at: usize) -> usize
    requires controls_len_bound { length controls.now < 3 }
    requires target_in_bounds { at + length (expand_with [] controls.now target) ≤ length list.old }
    ensures { Written (expand_with [] controls.now target) list.old at list.new result }
{
    match controls {
        [] => put(list, at, Gate::Not(target)),
        [a] => put(list, at, Gate::Powered(2, *a, target)),
        [a, b, ..] => toffoli(list, at, *a, *b, target),
    }
}

// C0 is the first floor(k/2) controls.
fn half(k: usize) -> usize
    ensures { result ≡ k / 2 }
{
    k / 2
}

// Writes the expansion of a NOT with controls and an ordered list of spares from `at` on, and says where it ends. With three or more controls, in
// order: v s t; M0; vp s t; M1; v s t; M2; vp s t; M3, where s is the first of the spares, and M0 and M1 get lists of their own.
fn expand_with(spares: Spares, controls: &[u8], target: u8, list: &mut [u16], at: usize) -> usize
    requires spares_of { SparesOf controls.now target spares }
    requires target_in_bounds { at + length (expand_with (listed spares) controls.now target) ≤ length list.old }
    ensures { Written (expand_with (listed spares) controls.now target) list.old at list.new result }
{
    let k = controls.len();
    if k < 3 {
        return expand_few(controls, target, list, at);
    }
    let (c0, c1) = controls.split_at(half(k));
    let s = spares.as_slice()[0];
    let for_m0 = m0_spares(spares, target, c1);
    let for_m1 = m1_spares(spares, c0);
    let m0 = put(list, at, Gate::Powered(1, s, target));
    let m0_end = expand_with(for_m0, c0, s, list, m0);
    let m1 = put(list, m0_end, Gate::Powered(3, s, target));
    let m1_end = expand_with(for_m1, c1, s, list, m1);
    let m2 = put(list, m1_end, Gate::Powered(1, s, target));
    let m2_end = invert(list, m0, m0_end, m2);
    let m3 = put(list, m2_end, Gate::Powered(3, s, target));
    invert(list, m1, m1_end, m3)
}

// Writes the expansion of a NOT with controls, whose spares are all unnamed, unkept lines, rising.
pub fn expand(
    lines: u8,
    kept: u32,
    controls: &[u8],
    target: u8,
    list: &mut [u16],
    at: usize,
) -> usize
    requires lines_bound { lines ≤ 32 }
    requires expandable { Expandable lines (unpacked 32 0 kept) controls.now target }
    requires below { Below lines controls.now }
    requires target_in_bounds { at + length (expansion lines (unpacked 32 0 kept) controls.now target) ≤ length list.old }
    ensures { Written (expansion lines (unpacked 32 0 kept) controls.now target) list.old at list.new result }
{
    if controls.len() < 3 {
        return expand_few(controls, target, list, at);
    }
    expand_with(
        spares::unnamed(lines, kept, controls, target),
        controls,
        target,
        list,
        at,
    )
}

// Writes a NOT on each of the lines, in order.
fn nots(lines: &[u8], list: &mut [u16], at: usize) -> usize
    requires { at + length lines.now ≤ length list.old }
    ensures { Written (nots_on lines.now) list.old at list.new result }
{
    let mut next = at;
    for line in lines {
        next = put(list, next, Gate::Not(*line));
    }
    next
}

// Writes the expansion of a NOT with controls of which some are negated: a NOT on each negated line, then the expansion of the gate without
// signs, then the same NOTs again.
pub fn expand_signed(
    lines: u8,
    kept: u32,
    controls: &[u8],
    negated: &[u8],
    target: u8,
    list: &mut [u16],
    at: usize,
) -> usize
    requires lines_bound { lines ≤ 32 }
    requires expandable { Expandable lines (unpacked 32 0 kept) controls.now target }
    requires below { Below lines controls.now }
    requires target_in_bounds { at + length (between_nots negated.now (expansion lines (unpacked 32 0 kept) controls.now target)) ≤ length list.old }
    ensures { Written (between_nots negated.now (expansion lines (unpacked 32 0 kept) controls.now target)) list.old at list.new result }
{
    let first = nots(negated, list, at);
    let end = expand(lines, kept, controls, target, list, first);
    nots(negated, list, end)
}
