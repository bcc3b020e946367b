// The filters of a string's loop (document 01: Thiran, the dispersion stages, the loss), in place on lent cells. Each
// is total: see `specs/Filter.antt` for what fewer cells than a filter holds mean.
#![tactic(auto)]

ghost use Rattle.std.specs.Prelude.{◌≡◌, ◌+◌, ◌≤◌, length};
ghost use Rattle.filter.specs.Steps.{finish_out, finish_cells};
ghost use Rattle.filter.specs.Filter.{stage_out, stage_cells, row_out, row_cells, loop_out, loop_cells};

// A string's four coefficients.
#[derive(Clone, Copy)]
pub struct LoopFilter {
    pub thiran_a: f64,
    pub ap_a: f64,
    pub loss_g: f64,
    pub loss_c: f64,
}

// One stage, on its two cells x1 and y1.
pub fn allpass(cells: &mut [f64], a: f64, x: f64) -> f64
    ensures { (result ≡ stage_out a cells.old x) × (cells.new ≡ stage_cells a cells.old x) }
{
    if cells.len() < 2 {
        return x;
    }
    let y = a * x + cells[0] - a * cells[1];
    cells[0] = x;
    cells[1] = y;
    y
}

// The row of stages, each on its own two cells. The cells are counted: of a slice that `chunks_exact_mut` cuts, a proof
// does not know what it holds afterwards, and the contract says every cell.
pub fn dispersion(cells: &mut [f64], a: f64, x: f64) -> f64
    ensures { (result ≡ row_out a cells.old x) × (cells.new ≡ row_cells a cells.old x) }
{
    let mut v = x;
    let mut j = 0usize;
    while j + 1 < cells.len() {
        v = allpass(&mut cells[j..j + 2], a, v);
        j += 2;
    }
    v
}

// All three on a string's filter cells: Thiran x1, y1, each stage's x1, y1, then loss_y1.
pub fn loop_filter(cells: &mut [f64], filter: LoopFilter, x: f64) -> f64
    ensures { (result ≡ loop_out filter cells.old x) × (cells.new ≡ loop_cells filter cells.old x) }
{
    if cells.len() < 3 {
        return x;
    }
    let u = allpass(&mut cells[0..2], filter.thiran_a, x);
    finish(cells, filter, 0, u)
}

// What is left of the loop filter once Thiran's stage and the first k cells of the row are done: the rest of the row, then the loss.
pub fn finish(cells: &mut [f64], filter: LoopFilter, k: usize, x: f64) -> f64
    requires { k + 3 ≤ length cells.old }
    ensures { (result ≡ finish_out filter k cells.old x) × (cells.new ≡ finish_cells filter k cells.old x) }
{
    let last = cells.len() - 1;
    let rest = 2 + k;
    let w = dispersion(&mut cells[rest..last], filter.ap_a, x);
    let z = filter.loss_g * (1.0 - filter.loss_c) * w + filter.loss_c * cells[last];
    cells[last] = z;
    z
}
