// A gate list as numbers: what a job hands over for it is written into it.
#![tactic(auto)]

ghost use Rattle.std.specs.Prelude.{◌≡◌, length};
ghost use Rattle.records.specs.Records.{Fits};
ghost use Rattle.storing.specs.Storing.{stored};

use records::Filling;

// Writes into a list what a job hands over for it, as `records::fill` does: its callers cite `stored`, those of `fill` cite `filled_by`.
pub fn store(f: Filling, list: &mut [u16])
    requires { Fits f (length list.old) }
    ensures { list.new ≡ stored f list.old }
{
    records::store(&mut list[..f.limit], &f.codes[..f.gates]);
}
