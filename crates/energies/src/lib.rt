// Document 01, "The session": `key_energies` as in the Rust. A line's energy is the sum of its cells' squares, a string's that of its six
// lines, a key's that of its strings; each sum starts at +0 and goes in the Rust's order. Work memory is lent shared: nothing changes.
#![tactic(auto)]

ghost use Rattle.std.specs.Prelude.{◌≡◌, true, ◌+◌, ◌≤◌, length};
ghost use Rattle.cells.specs.Splice.{part};
ghost use Rattle.counting.specs.Below.{pad, tabulate};
ghost use Rattle.instrument.specs.Valid.{valid};
ghost use Rattle.instrument.specs.Work.{part_cells};
ghost use Rattle.string.specs.String.{Strung};
ghost use Rattle.strings.specs.Strings.{AllFit, cells_of};
ghost use Rattle.energies.specs.Energy.{line_energy, string_energy, no_energy, energies_of, EnergiesMeet};
ghost use Rattle.energies.specs.Steps.{sums_after, pair_of};

use instrument::Instrument;
use refusal::Refusal;
use session_record::Session;
use string::{Layout, StringDesign};

// A key's number and its energy.
#[derive(Clone, Copy)]
pub struct KeyEnergy {
    pub key: u8,
    pub energy: f64,
}

// The first `count` are the keys' in the file's order; zeros past them. An array with its count, since nothing here may allocate.
#[derive(Clone, Copy)]
pub struct Energies {
    pub keys: [KeyEnergy; 16],
    pub count: usize,
}

const NO_ENERGY: KeyEnergy = KeyEnergy {
    key: 0,
    energy: 0.0,
};

fn line_energy(line: &[f64]) -> f64
    ensures { result ≡ line_energy line.now }
{
    line.iter().fold(0.0, |sum, &v| sum + v * v)
}

// The line of len cells from cell a of a string's part on.
fn energy_at(cells: &[f64], a: usize, len: usize) -> f64
    requires { a + len ≤ length cells.now }
    ensures { result ≡ line_energy (part a len cells.now) }
{
    let e = a + len;
    line_energy(&cells[a..e])
}

// In the Rust's order, a line of the string at a time.
fn string_energy(cells: &[f64], d: StringDesign) -> f64
    requires { Strung d cells.now }
    ensures { result ≡ string_energy d cells.now }
{
    let Layout {
        b_r,
        b_l,
        c_r,
        c_l,
        ..
    } = d.layout();
    let mut sum = 0.0 + energy_at(cells, 0, d.na);
    sum += energy_at(cells, d.na, d.na);
    sum += energy_at(cells, b_r, d.nb);
    sum += energy_at(cells, b_l, d.nb);
    sum += energy_at(cells, c_r, d.nc);
    sum + energy_at(cells, c_l, d.nc)
}

// Each string's energy is added to its key's sum.
#[tactic(auto, using(strings::specs::Walk::at_fits))]
fn sum_strings(cells: &[f64], designs: &[StringDesign], sums: &mut [f64; 16])
    requires all_fit { AllFit designs.now }
    requires has_cells { cells_of designs.now ≤ length cells.now }
    ensures { sums.new ≡ sums_after designs.now cells.now sums.old }
{
    let mut at = 0;
    for d in designs {
        let end = at + d.layout().size;
        sums[d.key] += string_energy(&cells[at..end], *d);
        at = end;
    }
}

// One pair a key, and zeros up to 16.
fn pairs_of(instrument: Instrument, sums: &[f64; 16]) -> [KeyEnergy; 16]
    requires { instrument.key_count ≤ 16 }
    ensures { result ≡ pad 16 no_energy (tabulate instrument.key_count (pair_of instrument sums.now)) }
{
    let mut pairs = [NO_ENERGY; 16];
    for (k, key) in instrument.keys[..instrument.key_count].iter().enumerate() {
        pairs[k] = KeyEnergy {
            key: key.key,
            energy: sums[k],
        };
    }
    pairs
}

// The energies of one part of work memory.
pub fn part_energies(instrument: Instrument, cells: &[f64]) -> Energies
    requires { (valid instrument ≡ true) × (part_cells instrument ≤ length cells.now) }
    ensures { result ≡ energies_of instrument cells.now }
{
    let designs = sample_constants::string_table(&instrument);
    let mut sums = [0.0; 16];
    sum_strings(cells, &designs[..instrument.string_count], &mut sums);
    Energies {
        keys: pairs_of(instrument, &sums),
        count: instrument.key_count,
    }
}

// Each key's energy now: of the first part of work memory, and of nothing else there.
pub fn key_energies(
    instrument: Instrument,
    session: Session,
    work: &[f64],
) -> Result<Energies, Refusal>
    ensures { EnergiesMeet instrument session work.now result }
{
    session_record::record_refusal(instrument, session, work.len())?;
    let w = session_record::part_size(instrument);
    Ok(part_energies(instrument, &work[..w]))
}
