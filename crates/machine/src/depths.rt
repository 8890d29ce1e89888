// The depth of a depth code, numbers modulo it, and where logical entries lie.
ghost use Rattle.std.specs.Prelude.{◌≡◌, ◌%◌, min, ltb};
ghost use Rattle.machine.specs.Depths.{top_code, depth_of, physical_of};

// The largest depth code.
pub const TOP_CODE: u64 = 4;

// A depth code, or the largest where it is above it.
pub fn capped(code: u64) -> u64
    ensures { result ≡ min code top_code }
{
    code.min(TOP_CODE)
}

// The depth of a depth code.
#[tactic(auto, using(crate::proofs::DepthLaws::shifted), unfolding(crate::specs::Depths::depth_of))]
pub fn depth(code: u64) -> u64
    ensures { result ≡ depth_of code }
{
    16 << capped(code)
}

// x modulo the depth of a depth code.
#[tactic(auto, using(crate::proofs::DepthLaws::mask_at, crate::proofs::DepthLaws::depth_pos))]
pub fn wrapped(x: u64, code: u64) -> u64
    ensures { result ≡ x % depth_of code }
{
    x & (depth(code) - 1)
}

// Whether x is below the depth of a depth code.
pub fn in_depth(x: u64, code: u64) -> bool
    ensures { result ≡ ltb x (depth_of code) }
{
    x < depth(code)
}

// The physical entry of logical entry i.
#[tactic(auto, using(crate::proofs::DepthLaws::bounds), unfolding(crate::specs::Depths::physical_of))]
pub fn physical(code: u64, wrptr: u64, i: u64) -> u64
    ensures { result ≡ physical_of code wrptr i }
{
    wrapped(
        wrapped(wrptr, code) + (depth(code) - 1 - wrapped(i, code)),
        code,
    )
}
