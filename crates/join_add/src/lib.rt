// Numbers added to numbers, one to one, from one lent slice into another.
#![tactic(auto)]

ghost use Rattle.std.specs.Prelude.{◌≡◌, ◌+◌, ◌≤◌, length, take, drop};
ghost use Rattle.std.proofs.lemmas.List.Edits.{sets};
ghost use Rattle.join_add.specs.Promises.{AskAdd, AskAddAt, AskSum, AddsRest, sums, sum_of, four_set};

// The first m of the numbers `more` added to those of src from `from` on, into dst from `at` on.
pub fn add_at(src: &[u32], from: usize, m: usize, more: &[u32], dst: &mut [u32], at: usize)
    requires { AskAddAt src.now from m more.now dst.old at }
    ensures { dst.new ≡ sets dst.old at (sums (take m (drop from src.now)) more.now) }
{
    add_whole(&src[from..from + m], more, &mut dst[at..at + m]);
}

// The same for few numbers, one by one: `more` may be so new that four of it cannot be read at once without a wait.
pub fn add_few_at(src: &[u32], from: usize, m: usize, more: &[u32], dst: &mut [u32], at: usize)
    requires { AskAddAt src.now from m more.now dst.old at }
    ensures { dst.new ≡ sets dst.old at (sums (take m (drop from src.now)) more.now) }
{
    add_few(&src[from..from + m], more, &mut dst[at..at + m]);
}

// The numbers `more` added to those of src, into dst: four at a time, and then those that are left.
fn add_whole(src: &[u32], more: &[u32], dst: &mut [u32])
    requires { AskAdd src.now more.now dst.old }
    ensures { dst.new ≡ sums src.now more.now }
{
    let mut i: usize = 0;
    // A while: what is left decides, and after it the rest begins at i.
    while src.len() - i >= 4 {
        add_four(src, more, dst, i);
        i += 4;
    }
    add_rest(src, more, dst, i);
}

// The same, one by one.
fn add_few(src: &[u32], more: &[u32], dst: &mut [u32])
    requires { AskAdd src.now more.now dst.old }
    ensures { dst.new ≡ sums src.now more.now }
{
    add_rest(src, more, dst, 0);
}

// The four sums at i. All are made before one is stored, which lets them be made at once.
fn add_four(src: &[u32], more: &[u32], dst: &mut [u32], i: usize)
    requires { (AskAdd src.now more.now dst.old) × (i + 4 ≤ length src.now) }
    ensures { dst.new ≡ four_set src.now more.now dst.old i }
{
    let first = sum_at(src, more, i);
    let second = sum_at(src, more, i + 1);
    let third = sum_at(src, more, i + 2);
    let fourth = sum_at(src, more, i + 3);
    dst[i] = first;
    dst[i + 1] = second;
    dst[i + 2] = third;
    dst[i + 3] = fourth;
}

// The sums from i on, one by one.
fn add_rest(src: &[u32], more: &[u32], dst: &mut [u32], i: usize)
    requires { (AskAdd src.now more.now dst.old) × (i ≤ length src.now) }
    ensures { AddsRest src.now more.now dst.old i dst.new }
{
    for k in i..src.len() {
        dst[k] = sum_at(src, more, k);
    }
}

// The sum at k.
fn sum_at(src: &[u32], more: &[u32], k: usize) -> u32
    requires { AskSum src.now more.now k }
    ensures { result ≡ sum_of src.now more.now k }
{
    src[k] + more[k]
}
