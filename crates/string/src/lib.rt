// One string on its own part of the work memory: its six delay lines, its loop filter and its bridge end.
#![tactic(auto)]

ghost use Rattle.std.specs.Prelude.{◌≡◌, ◌+◌, ◌*◌, ◌%◌, ◌≤◌, ◌<◌, ◌^◌, length};
ghost use Rattle.cells.specs.Line.{line_read, line_write};
ghost use Rattle.string.specs.String.{LaidOut, size_of, HasLines, IndicesAt};
ghost use Rattle.string.specs.String.{read_at, write_at, reads_of, v_in, filtered, point_writes, nut_write, bridge_write};
ghost use Rattle.string.specs.Steps.{u_in, started, finished_out, finished};

use filter::LoopFilter;

// The three cuts, the number of dispersion stages, the index of the string's key, and the filter's coefficients.
#[derive(Clone, Copy)]
pub struct StringDesign {
    pub na: usize,
    pub nb: usize,
    pub nc: usize,
    pub ap_count: usize,
    pub key: usize,
    pub filter: LoopFilter,
}

// The Rust's `idx` of a string's lines: one for the two lines of each cut, since every line is written once a sample.
#[derive(Clone, Copy)]
pub struct Indices {
    pub a: usize,
    pub b: usize,
    pub c: usize,
}

// A string at sample t, with its lines' indices there. t is for the contracts alone: no code reads it, and a ghost field holds a fact
// and no number.
#[derive(Clone, Copy)]
pub struct StringAt {
    pub design: StringDesign,
    pub indices: Indices,
    pub t: u64,
    pub ghost has_lines: { HasLines design },
    pub ghost indices_at: { IndicesAt design t indices },
}

// What a sample reads of a string's lines besides the loop filter's input.
#[derive(Clone, Copy)]
pub struct Reads {
    pub a: f64,
    pub b: f64,
    pub c: f64,
    pub d: f64,
    pub x_nut: f64,
}

// Where a string's lines, its filter's cells and what lies behind them start among its cells, and how many cells it has. The line a_r
// starts at 0 and a_l at na.
#[derive(Clone, Copy)]
pub struct Layout {
    pub b_r: usize,
    pub b_l: usize,
    pub c_r: usize,
    pub c_l: usize,
    pub filter: usize,
    // The cells of the dispersion stages, behind Thiran's two.
    pub row: usize,
    pub y_s: usize,
    pub memory: usize,
    pub size: usize,
}

impl StringDesign {
    // Each offset is computed here and nowhere else.
    pub fn layout(self) -> Layout
        requires { size_of self < 2 ^ 64 }
        ensures { LaidOut self result }
    {
        let b_r = self.na + self.na;
        let b_l = b_r + self.nb;
        let c_r = b_l + self.nb;
        let c_l = c_r + self.nc;
        let filter = c_l + self.nc;
        let y_s = filter + (2 * self.ap_count + 3);
        Layout {
            b_r,
            b_l,
            c_r,
            c_l,
            filter,
            row: filter + 2,
            y_s,
            memory: y_s + 1,
            size: y_s + 2,
        }
    }

    // The indices of its lines at sample t.
    pub fn indices_at(self, t: u64) -> Indices
        requires { HasLines self }
        ensures { IndicesAt self t result }
    {
        Indices {
            a: ring(t, self.na),
            b: ring(t, self.nb),
            c: ring(t, self.nc),
        }
    }

    // The last of the loop filter's three steps, once the first k cells of the row are done: what is left.
    pub fn finish_filter(self, part: &mut [f64], k: usize, v: f64) -> f64
        requires all_cells { length part.old ≡ size_of self }
        requires k_bound { k ≤ 2 * self.ap_count }
        ensures { (result ≡ finished_out self k v part.old) × (part.new ≡ finished self k v part.old) }
    {
        let at = self.layout();
        filter::finish(&mut part[at.filter..at.y_s], self.filter, k, v)
    }
}

// The cell of a line of len cells that sample t reads and writes, by division.
fn ring(t: u64, len: usize) -> usize
    requires { 0 < len }
    ensures { result ≡ t % len }
{
    (t % (len as u64)) as usize
}

// The same of the sample after t, carried on from t's. Here and below t is for the contract alone: no code reads it.
fn next_index(idx: usize, len: usize, t: u64) -> usize
    requires has_cells { 0 < len }
    requires idx_at_t { idx ≡ t % len }
    ensures { result ≡ (t + 1) % len }
{
    let next = idx + 1;
    if next == len { 0 } else { next }
}

// `Delay::read` and `Delay::write`, on the line's own cells.
fn read(line: &[f64], idx: usize, t: u64) -> f64
    requires has_cells { 0 < length line.now }
    requires idx_at_t { idx ≡ t % length line.now }
    ensures { result ≡ line_read t line.now }
{
    line[idx]
}

fn write(line: &mut [f64], idx: usize, t: u64, v: f64)
    requires has_cells { 0 < length line.old }
    requires idx_at_t { idx ≡ t % length line.old }
    ensures { line.new ≡ line_write t v line.old }
{
    line[idx] = v;
}

// The line of len cells from cell a of a string's part on.
fn read_line(part: &[f64], a: usize, len: usize, idx: usize, t: u64) -> f64
    requires has_cells { 0 < len }
    requires lies_in_part { a + len ≤ length part.now }
    requires idx_at_t { idx ≡ t % len }
    ensures { result ≡ read_at a len t part.now }
{
    let e = a + len;
    read(&part[a..e], idx, t)
}

fn write_line(part: &mut [f64], a: usize, len: usize, idx: usize, t: u64, v: f64)
    requires has_cells { 0 < len }
    requires lies_in_part { a + len ≤ length part.old }
    requires idx_at_t { idx ≡ t % len }
    ensures { part.new ≡ write_at a len t v part.old }
{
    let e = a + len;
    write(&mut part[a..e], idx, t, v);
}

impl StringAt {
    // The string's indices at the sample after t.
    pub fn next_indices(self) -> Indices
        ensures { IndicesAt self.design (self.t + 1) result }
    {
        let StringAt {
            design: d,
            indices: x,
            t,
        } = self;
        Indices {
            a: next_index(x.a, d.na, t),
            b: next_index(x.b, d.nb, t),
            c: next_index(x.c, d.nc, t),
        }
    }

    // Sample t's reads of the string.
    pub fn read(self, part: &[f64]) -> Reads
        requires all_cells { length part.now ≡ size_of self.design }
        ensures { result ≡ reads_of self.design self.t part.now }
    {
        let StringAt {
            design: d,
            indices: x,
            t,
        } = self;
        let at = d.layout();
        Reads {
            a: read_line(part, 0, d.na, x.a, t),
            b: read_line(part, at.b_l, d.nb, x.b, t),
            c: read_line(part, at.b_r, d.nb, x.b, t),
            d: read_line(part, at.c_l, d.nc, x.c, t),
            x_nut: read_line(part, d.na, d.na, x.a, t),
        }
    }

    // The writes behind the hammer's and the damper's point, and at the nut.
    pub fn write(self, part: &mut [f64], r: Reads, inject_h: f64, inject_d: f64)
        requires all_cells { length part.old ≡ size_of self.design }
        ensures { part.new ≡ nut_write self.design self.t r (point_writes self.design self.t r inject_h inject_d part.old) }
    {
        let StringAt {
            design: d,
            indices: x,
            t,
        } = self;
        let at = d.layout();
        write_line(part, at.b_r, d.nb, x.b, t, r.a + inject_h);
        write_line(part, d.na, d.na, x.a, t, r.b + inject_h);
        write_line(part, at.c_r, d.nc, x.c, t, r.c + inject_d);
        write_line(part, at.b_l, d.nb, x.b, t, r.d + inject_d);
        write_line(part, 0, d.na, x.a, t, -r.x_nut);
    }

    // The loop filter on what reaches the bridge.
    pub fn filter(self, part: &mut [f64]) -> f64
        requires all_cells { length part.old ≡ size_of self.design }
        ensures { (result ≡ v_in self.design self.t part.old) × (part.new ≡ filtered self.design self.t part.old) }
    {
        let at = self.design.layout();
        let v = read_line(part, at.c_r, self.design.nc, self.indices.c, self.t);
        filter::loop_filter(&mut part[at.filter..at.y_s], self.design.filter, v)
    }

    // The first of the loop filter's three steps: Thiran's stage on what reaches the bridge.
    pub fn start_filter(self, part: &mut [f64]) -> f64
        requires all_cells { length part.old ≡ size_of self.design }
        ensures { (result ≡ u_in self.design self.t part.old) × (part.new ≡ started self.design self.t part.old) }
    {
        let at = self.design.layout();
        let v = read_line(part, at.c_r, self.design.nc, self.indices.c, self.t);
        filter::allpass(&mut part[at.filter..at.row], self.design.filter.thiran_a, v)
    }

    // What the bridge sends back.
    pub fn send_back(self, part: &mut [f64], v: f64)
        requires all_cells { length part.old ≡ size_of self.design }
        ensures { part.new ≡ bridge_write self.design self.t v part.old }
    {
        let at = self.design.layout();
        write_line(part, at.c_l, self.design.nc, self.indices.c, self.t, v);
    }
}
