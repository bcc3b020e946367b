// The loop filters of all strings. The dispersion rows of up to four strings go together, a stage of each at a turn: a stage waits
// for the one before it in its own row alone, so the processor works on four at once.
#![tactic(auto)]

ghost use Rattle.std.specs.Prelude.{◌≡◌, ◌++◌, ◌+◌, ◌*◌, ◌^◌, ◌≤◌, ◌<◌, length, drop};
ghost use Rattle.string.specs.Table.{design_at};
ghost use Rattle.strings.specs.Strings.{AllFit, Indexed, cells_of, filtered_all, v_ins};
ghost use Rattle.rows.specs.Rows.{string_start, Few, Laid, Started, Staged, InRows, Finished, Filtered, FilteredTo};

use string::{Indices, StringAt, StringDesign};

// Of a few strings that go through their rows together: where each row starts among the part's cells, its coefficient, and
// how many stages all of them have.
#[derive(Clone, Copy)]
pub struct Rows {
    pub starts: [usize; 4],
    pub ap_a: [f64; 4],
    pub stages: usize,
}

// Where a walk over the strings stands: the next string, and the cell where its cells start.
#[derive(Clone, Copy)]
pub struct Place {
    pub i: usize,
    pub at: usize,
}

// The loops over l count by hand: the number of a string, here.i + l, and of its row, l, go in step through lists that are written.

// The rows of the next M strings.
fn rows_of<const M: usize>(designs: &[StringDesign], here: Place) -> Rows
    requires m_bound { (M ≤ 4) × (here.i + M ≤ length designs.now) }
    requires start { here.at ≡ string_start (design_at designs.now) here.i }
    requires end_bound { string_start (design_at designs.now) (here.i + M) < 2 ^ 64 }
    ensures { Laid (design_at designs.now) here.i M result }
{
    let mut starts = [0usize; 4];
    let mut ap_a = [0.0; 4];
    let mut stages = 66usize;
    let mut at = here.at;
    for l in 0..M {
        let d = designs[here.i + l];
        let layout = d.layout();
        starts[l] = at + layout.row;
        ap_a[l] = d.filter.ap_a;
        stages = stages.min(d.ap_count);
        at += layout.size;
    }
    Rows {
        starts,
        ap_a,
        stages,
    }
}

// What reaches the bridge enters their loop filters: what leaves Thiran's stage of each.
fn start_strings<const M: usize>(
    part: &mut [f64],
    designs: &[StringDesign],
    indices: &[Indices],
    here: Place,
    t: u64,
) -> [f64; 4]
    requires few { Few designs.now here M part.old }
    requires indexed { Indexed designs.now indices.now t }
    ensures { Started (design_at designs.now) here.i M t part.old part.new result }
{
    let mut v = [0.0; 4];
    let mut at = here.at;
    for l in 0..M {
        let d = designs[here.i + l];
        let end = at + d.layout().size;
        let s = StringAt {
            design: d,
            indices: indices[here.i + l],
            t,
        };
        v[l] = s.start_filter(&mut part[at..end]);
        at = end;
    }
    v
}

// Stage s of each row.
fn next_stage<const M: usize>(
    part: &mut [f64],
    v: &mut [f64; 4],
    designs: &[StringDesign],
    rows: Rows,
    here: Place,
    s: usize,
)
    requires few { Few designs.now here M part.old }
    requires laid { Laid (design_at designs.now) here.i M rows }
    requires s_lt_stages { (s < rows.stages) × (length v.old ≡ 4) }
    ensures { Staged (design_at designs.now) here.i M s v.old v.new part.old part.new }
{
    for l in 0..M {
        let z = rows.starts[l] + 2 * s;
        let e = z + 2;
        v[l] = filter::allpass(&mut part[z..e], rows.ap_a[l], v[l]);
    }
}

// The stages that all of the rows have.
fn run_rows<const M: usize>(
    part: &mut [f64],
    v: &mut [f64; 4],
    designs: &[StringDesign],
    rows: Rows,
    here: Place,
)
    requires few { Few designs.now here M part.old }
    requires laid { Laid (design_at designs.now) here.i M rows }
    requires v_len { length v.old ≡ 4 }
    ensures { InRows (design_at designs.now) here.i M rows.stages v.old v.new part.old part.new }
{
    for s in 0..rows.stages {
        next_stage::<M>(part, v, designs, rows, here, s);
    }
}

// What is left of each loop filter behind `stages` stages; each string's v_in goes to its cell of v_in. It returns where the strings' cells end.
fn finish_strings<const M: usize>(
    part: &mut [f64],
    v_in: &mut [f64],
    designs: &[StringDesign],
    rows: Rows,
    v: &[f64; 4],
    here: Place,
) -> usize
    requires few { Few designs.now here M part.old }
    requires laid { Laid (design_at designs.now) here.i M rows }
    requires has_v_in { here.i + M ≤ length v_in.old }
    ensures { Finished (design_at designs.now) here.i M (2 * rows.stages) v.now
        part.old part.new v_in.old v_in.new result }
{
    let k = 2 * rows.stages;
    let mut at = here.at;
    for l in 0..M {
        let d = designs[here.i + l];
        let end = at + d.layout().size;
        v_in[here.i + l] = d.finish_filter(&mut part[at..end], k, v[l]);
        at = end;
    }
    at
}

// The loop filters of M strings: the stages that all their rows have go in turns.
fn filter_together<const M: usize>(
    part: &mut [f64],
    v_in: &mut [f64],
    designs: &[StringDesign],
    indices: &[Indices],
    here: Place,
    t: u64,
) -> Place
    requires few { Few designs.now here M part.old }
    requires indexed { Indexed designs.now indices.now t }
    requires has_v_in { here.i + M ≤ length v_in.old }
    ensures next { result.i ≡ here.i + M }
    ensures filtered { Filtered (design_at designs.now) here.i M t
        part.old part.new v_in.old v_in.new result.at }
{
    let mut v = start_strings::<M>(part, designs, indices, here, t);
    let rows = rows_of::<M>(designs, here);
    run_rows::<M>(part, &mut v, designs, rows, here);
    let at = finish_strings::<M>(part, v_in, designs, rows, &v, here);
    Place { i: here.i + M, at }
}

// One string's loop filter.
fn filter_one(
    part: &mut [f64],
    v_in: &mut [f64],
    designs: &[StringDesign],
    indices: &[Indices],
    here: Place,
    t: u64,
) -> Place
    requires few { Few designs.now here 1 part.old }
    requires indexed { Indexed designs.now indices.now t }
    requires has_v_in { here.i + 1 ≤ length v_in.old }
    ensures next { result.i ≡ here.i + 1 }
    ensures filtered { Filtered (design_at designs.now) here.i 1 t
        part.old part.new v_in.old v_in.new result.at }
{
    let Place { i, at } = here;
    let d = designs[i];
    let end = at + d.layout().size;
    let s = StringAt {
        design: d,
        indices: indices[i],
        t,
    };
    v_in[i] = s.filter(&mut part[at..end]);
    Place { i: i + 1, at: end }
}

// The loop filters of the next few strings: four, or as many as are left; a string that has no stages goes by itself. Each
// number is a case of its own, so that the compiler keeps the rows' values in registers.
#[tactic(auto, using(crate::specs::Laws::next_few))]
fn filter_next(
    part: &mut [f64],
    v_in: &mut [f64],
    designs: &[StringDesign],
    indices: &[Indices],
    here: Place,
    t: u64,
) -> Place
    requires all_fit { AllFit designs.now }
    requires indexed { Indexed designs.now indices.now t }
    requires has_cells { cells_of designs.now ≤ length part.old }
    requires has_v_in { length designs.now ≤ length v_in.old }
    requires at_string { (here.at ≡ string_start (design_at designs.now) here.i) × (here.i < length designs.now) }
    ensures { FilteredTo (design_at designs.now) here.i (length designs.now) t
        part.old part.new v_in.old v_in.new result }
{
    let left = designs.len() - here.i;
    if left == 1 || designs[here.i].ap_count == 0 {
        return filter_one(part, v_in, designs, indices, here, t);
    }
    match left {
        2 => filter_together::<2>(part, v_in, designs, indices, here, t),
        3 => filter_together::<3>(part, v_in, designs, indices, here, t),
        _ => filter_together::<4>(part, v_in, designs, indices, here, t),
    }
}

// All loop filters; each string's v_in goes to its cell of v_in.
pub fn filter_strings(
    part: &mut [f64],
    v_in: &mut [f64],
    designs: &[StringDesign],
    indices: &[Indices],
    t: u64,
)
    requires all_fit { AllFit designs.now }
    requires indexed { Indexed designs.now indices.now t }
    requires has_cells { cells_of designs.now ≤ length part.old }
    requires has_v_in { length designs.now ≤ length v_in.old }
    ensures { (part.new ≡ filtered_all designs.now t part.old)
        × (v_in.new ≡ v_ins designs.now t part.old ++ drop (length designs.now) v_in.old) }
{
    let mut next = Place { i: 0, at: 0 };
    while next.i < designs.len() {
        next = filter_next(part, v_in, designs, indices, next, t);
    }
}
