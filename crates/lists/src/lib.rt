// Numbers in lent slices: a part copied, a part filled. What every room stands on, and nothing of the record.
#![tactic(auto)]

ghost use Rattle.std.specs.Prelude.{◌≡◌, ◌+◌, ◌≤◌, max, length, take, drop, replicate};
ghost use Rattle.std.proofs.lemmas.List.Edits.{sets};
ghost use Rattle.lists.specs.Lists.{zeros};

// All of src, into a slice of the same length. A loop: `copy_from_slice` becomes a call of memmove, which an archive for C would need
// from outside, and which costs more than the copy where few numbers are copied, as a node's 26 are.
pub fn copy_whole(src: &[u32], dst: &mut [u32])
    requires { length src.now ≡ length dst.old }
    ensures { dst.new ≡ src.now }
{
    for i in 0..src.len() {
        dst[i] = src[i];
    }
}

// n numbers of src from `from` on, into dst from `at` on. Parts are lent to the copy of the whole, which compiles to a
// block copy.
pub fn copy(src: &[u32], from: usize, n: usize, dst: &mut [u32], at: usize)
    requires { (from + n ≤ length src.now) × (at + n ≤ length dst.old) }
    ensures { dst.new ≡ sets dst.old at (take n (drop from src.now)) }
{
    copy_whole(&src[from..from + n], &mut dst[at..at + n]);
}

// The number v, n times from `at` on.
pub fn fill(dst: &mut [u32], at: usize, n: usize, v: u32)
    requires { at + n ≤ length dst.old }
    ensures { dst.new ≡ sets dst.old at (replicate n v) }
{
    dst[at..at + n].fill(v);
}

// Zeros everywhere: what refusal 6 leaves in an output, and success in a working store.
pub fn zero(dst: &mut [u32])
    ensures { dst.new ≡ zeros dst.old }
{
    dst.fill(0);
}
