// What is known before padding writes anything: the length, the rows of the result, whether the pad text lies in its pool.
#![tactic(auto)]

ghost use Rattle.std.specs.Prelude.{◌≡◌, min};
ghost use Rattle.pad_length.specs.Rounding.{rounded_up, largest_u64, RoundedLength};
ghost use Rattle.pad_length.specs.Target.{longest, length_by, text_inside, rows_with};
ghost use Rattle.record.specs.Passing.{NodesOf};
ghost use Rattle.record.specs.Tree.{Forest};

use pad_rows::PadToken;
use record::Encoding;

// The length to which a batch is padded: that of its longest encoding, windows not counted, or a given one.
#[derive(Clone, Copy)]
pub enum PaddingStrategy {
    BatchLongest,
    Fixed(u64),
}

// The least number not below the length that the multiple divides; the length itself for multiple 0. Where that number
// does not fit 64 bits, the largest one that does: no record is as long as either.
pub fn rounded_length(length: u64, multiple: u64) -> u64
    ensures value { result ≡ min (rounded_up length multiple) largest_u64 }
    ensures least { RoundedLength length multiple result }
{
    if multiple == 0 {
        return length;
    }
    let over = length % multiple;
    if over == 0 {
        return length;
    }
    let missing = multiple - over;
    length.saturating_add(missing)
}

// The length that the strategy gives, before it is rounded.
pub fn padding_length(nodes: &[u32], strategy: PaddingStrategy) -> u64
    requires { (f : Forest) × NodesOf nodes.now f }
    ensures { (f : Forest) → NodesOf nodes.now f → result ≡ length_by strategy f }
{
    match strategy {
        PaddingStrategy::BatchLongest => longest_top(nodes),
        PaddingStrategy::Fixed(length) => length,
    }
}

// The rows of the longest encoding at the top. Before the next of these, `pending` windows are still to come.
fn longest_top(nodes: &[u32]) -> u64
    requires { (f : Forest) × NodesOf nodes.now f }
    ensures { (f : Forest) → NodesOf nodes.now f → result ≡ longest f }
{
    let mut most: u32 = 0;
    let mut pending: u32 = 0;
    for n in 0..nodes.len() / Encoding::NODE_WIDTH {
        let i = n * Encoding::NODE_WIDTH;
        let size = nodes[i];
        let windows = nodes[i + 1];
        if pending == 0 {
            most = most.max(size);
            pending = windows;
        } else {
            pending = pending - 1 + windows;
        }
    }
    most as u64
}

// Whether the pad text lies within an added pool of so many bytes.
pub fn text_inside(token: PadToken, pool: usize) -> bool
    ensures { result ≡ text_inside token pool }
{
    token.text_start as usize + (token.text_length as usize) <= pool
}

// The rows of all nodes once none has fewer than the target.
pub fn padded_rows(nodes: &[u32], target: u32) -> usize
    requires { (f : Forest) × NodesOf nodes.now f }
    ensures { (f : Forest) → NodesOf nodes.now f → result ≡ rows_with target f }
{
    let mut total: usize = 0;
    for n in 0..nodes.len() / Encoding::NODE_WIDTH {
        total += nodes[n * Encoding::NODE_WIDTH].max(target) as usize;
    }
    total
}
