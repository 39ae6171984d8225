// The run at an edge of a capture (document 02, §5).
#![tactic(auto)]

ghost use Rattle.std.specs.Prelude.{◌≡◌};
ghost use Rattle.edges.specs.Steps.{step_at};

// The run from edge `at` of a capture to the next, in ticks, or that there is no next.
pub fn run_at(capture: &[u8], at: usize) -> Option<u16>
    ensures { result ≡ step_at capture.now at }
{
    let edges = capture.len() / 2;
    if edges <= at {
        return None;
    }
    if edges <= at + 1 {
        return None;
    }
    let last = edge_counts::count_at(capture, at);
    let count = edge_counts::count_at(capture, at + 1);
    Some(edge_counts::ticks(last, count))
}
