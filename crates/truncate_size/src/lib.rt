// Whether a cut is refused, and how much an encoding holds once it is cut (document 01, "Truncate").
#![tactic(auto)]

ghost use Rattle.std.specs.Prelude.{◌≡◌, ◌+◌};
ghost use Rattle.truncate_size.specs.Promises.{Fitting};
ghost use Rattle.truncate_size.specs.Size.{stride_refused, size_after};

use cut_plan::Decision;
use record_extent::Extent;

pub fn stride_refused(n: u32, max: u32, stride: u32) -> bool
    ensures { result ≡ stride_refused n max stride }
{
    0 < max && max < n && max <= stride
}

// How much an encoding of n rows holds once it is cut.
pub fn size_after(n: u32, max: u32, stride: u32, own: Extent) -> Extent
    requires { Fitting n own }
    ensures { result ≡ size_after n max stride own }
{
    match cut_plan::decide(n, max, stride) {
        Decision::Whole | Decision::StrideRefused => own,
        Decision::Emptied => Extent {
            nodes: own.nodes + 1,
            rows: own.rows,
            levels: own.levels + 1,
        },
        Decision::Windows(count) => Extent {
            nodes: count as usize,
            rows: n as usize + (count - 1) as usize * stride as usize,
            levels: 2,
        },
    }
}
