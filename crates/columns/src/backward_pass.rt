//! Backward over a column's records.
ghost use Rattle.std.specs.Prelude.{◌≡◌, slice_index_or};
ghost use Rattle.domain.specs.Doubles.{zero64};
ghost use Rattle.columns.specs.BackwardPass.{start_grad, back_def};

use crate::layout::Layout;
use backward::step::{StateGrad, step_backward};
use checks::tables::cell_or;
use forward::parameters::RuntimeParams;

/// From row n - 1 to row 0, adding into the 21 slots of `gw`, as the Rust's loops over `caches.iter().rev()`; `g_s` is the
/// gradient by the stability after row n - 1. A step gradient that is not lent is 0: those of a prefix are `&[]`.
#[tactic(auto, unfolding(crate::specs::BackwardPass::start_grad))]
pub fn column_backward<L: Layout>(
    p: &RuntimeParams,
    records: &[L::Cell],
    step_grads: &[f64],
    n: u32,
    g_s: f64,
    gw: &mut [f64],
)
    ensures { gw.new ≡ back_def p.now (λ i. L.load records.now i) (λ i. slice_index_or step_grads.now i zero64) n
        (start_grad g_s) gw.old }
{
    let mut g = StateGrad { s: g_s, d: 0.0 };
    for row in (0..n).rev() {
        let step = L::load(records, row);
        let g_r = cell_or(step_grads, row as usize, 0.0);
        g = step_backward(p, &step, g.s, g.d, g_r, gw);
    }
}
