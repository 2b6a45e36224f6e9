// A run of a fold (document 01, `merge`): encodings without windows one after another.
#![tactic(auto)]

ghost use Rattle.fold_run.specs.Promises.{AskRunFrom, FindsRun};

use record::Encoding;

// How much a run holds: as many nodes as encodings, and their rows.
#[derive(Clone, Copy)]
pub struct Run {
    pub nodes: usize,
    pub rows: usize,
}

// The run that begins at node place i: it ends before the first encoding that has windows.
pub fn run_from(nodes: &[u32], i: usize) -> Run
    requires { AskRunFrom nodes.now i }
    ensures { FindsRun nodes.now i result }
{
    let left = (nodes.len() - i) / Encoding::NODE_WIDTH;
    let mut rows: usize = 0;
    for count in 0..left {
        let at = i + count * Encoding::NODE_WIDTH;
        if nodes[at + 1] != 0 {
            return Run { nodes: count, rows };
        }
        rows += nodes[at] as usize;
    }
    Run { nodes: left, rows }
}
