// Document 01, "Instrument file" and refusals 1 to 6: reading a file.
#![tactic(auto)]

ghost use Rattle.std.specs.Prelude.{◌≡◌, true, ◌-◌, ◌≤◌, ◌<◌, length};
ghost use Rattle.std.specs.List.{list_all, range_with_len};
ghost use Rattle.counting.specs.Below.{tabulate, pad};
ghost use Rattle.instrument_fields.specs.Fields.{key_of};
ghost use Rattle.little_endian.specs.Numbers.{u32_at};
ghost use Rattle.instrument_fields.specs.Ranges.{string_in_range};
ghost use Rattle.instrument_fields.specs.Unused.{no_key, no_string};
ghost use Rattle.instrument.specs.Valid.{string_sum};
ghost use Rattle.instrument_file.specs.File.{offset_of, length_of, section, key_section, headed, linked, chained, measured_key, measured};
ghost use Rattle.instrument_file.specs.File.{loop_in, fielded_key, fielded, keys_in, strings_in, instrument_of, no_instrument, instrument_in, read_of};

use instrument::{Instrument, keys_apart, string_sum};
use instrument_fields::{
    KeyDesign, LoopDesign, common_in_range, key_in_range, no_common, no_key, no_string,
    read_common, read_key, read_loop, string_in_range,
};
use little_endian::{byte_at, part, u32_at};
use refusal::Refusal;

// ---- refusal 1

fn is_headed(f: &[u8]) -> bool
    ensures { result ≡ headed f.now }
{
    let d = u32_at(f, 0) as usize;
    (4 <= f.len()) & (2 <= d) & (d <= 17) & (4 + 8 * d <= f.len())
}

// The number of keys: every section but the first is one.
fn key_count(f: &[u8]) -> usize
    requires { headed f.now ≡ true }
    ensures { (result ≡ u32_at f.now 0 - 1) × (1 ≤ result) × (result ≤ 16) }
{
    u32_at(f, 0) as usize - 1
}

// ---- a key's section

fn is_measured_key(b: &[u8]) -> bool
    ensures { result ≡ measured_key b.now }
{
    let s = usize::from(byte_at(b, 2));
    (1 <= s) & (s <= 3) & (b.len() == 36 + 44 * s)
}

fn loop_in(b: &[u8], j: usize) -> LoopDesign
    requires { j < 256 }
    ensures { result ≡ loop_in b.now j }
{
    read_loop(part(b, 36 + 44 * j, 44))
}

fn strings_fielded(b: &[u8], s: usize) -> bool
    requires { s < 256 }
    ensures { result ≡ list_all (λ j. string_in_range (loop_in b.now j)) (range_with_len 0 s) }
{
    (0..s).all(|j| string_in_range(loop_in(b, j)))
}

fn is_fielded_key(b: &[u8]) -> bool
    ensures { result ≡ fielded_key b.now }
{
    let s = usize::from(byte_at(b, 2));
    (byte_at(b, 1) <= 1) & (byte_at(b, 3) == 0) & key_in_range(read_key(b)) & strings_fielded(b, s)
}

// As many strings of a key's section as `out` has places.
fn read_strings(b: &[u8], out: &mut [LoopDesign])
    requires { length out.old < 256 }
    ensures { out.new ≡ tabulate (length out.old) (loop_in b.now) }
{
    for (j, string) in out.iter_mut().enumerate() {
        *string = loop_in(b, j);
    }
}

// ---- the sections

// A file of so many keys: every section but the first is one.
#[derive(Clone, Copy)]
struct Sections<'a> {
    file: &'a [u8],
    keys: usize,
    ghost few: { keys ≤ 16 },
}

impl<'a> Sections<'a> {
    // Offset and length of section i, as the table has them.
    fn pair(self, i: usize) -> (usize, usize)
        requires { i ≤ self.keys }
        ensures { (result.0 ≡ offset_of self.entry.file.now i) × (result.1 ≡ length_of self.entry.file.now i)
            × (result.0 < 0x1_0000_0000) × (result.1 < 0x1_0000_0000) }
    {
        let offset = u32_at(self.file, 4 + 8 * i);
        let length = u32_at(self.file, 8 + 8 * i);
        (offset as usize, length as usize)
    }

    fn section(self, i: usize) -> &'a [u8]
        requires { i ≤ self.keys }
        ensures { result.now ≡ section self.entry.file.now i }
    {
        let (offset, length) = self.pair(i);
        part(self.file, offset, length)
    }

    // ---- refusal 2

    fn is_linked(self, i: usize) -> bool
        requires { i < self.keys }
        ensures { result ≡ linked self.entry.file.now i }
    {
        let (offset, length) = self.pair(i);
        let (next, _) = self.pair(i + 1);
        next == offset + length
    }

    fn all_linked(self) -> bool
        ensures { result ≡ list_all (linked self.entry.file.now) (range_with_len 0 self.entry.keys) }
    {
        (0..self.keys).all(|i| self.is_linked(i))
    }

    fn is_chained(self) -> bool
        ensures { result ≡ chained self.entry.file.now self.entry.keys }
    {
        let (first, _) = self.pair(0);
        let (last, length) = self.pair(self.keys);
        (first == 4 + 8 * (self.keys + 1)) & self.all_linked() & (last + length == self.file.len())
    }

    // ---- refusal 3

    fn keys_measured(self) -> bool
        ensures { result ≡ list_all (λ k. measured_key (key_section self.entry.file.now k)) (range_with_len 0 self.entry.keys) }
    {
        (0..self.keys).all(|k| is_measured_key(self.section(k + 1)))
    }

    fn is_measured(self) -> bool
        ensures { result ≡ measured self.entry.file.now self.entry.keys }
    {
        let common = self.section(0);
        (common.len() == 76) & self.keys_measured()
    }

    // ---- refusal 4

    fn keys_fielded(self) -> bool
        ensures { result ≡ list_all (λ k. fielded_key (key_section self.entry.file.now k)) (range_with_len 0 self.entry.keys) }
    {
        (0..self.keys).all(|k| is_fielded_key(self.section(k + 1)))
    }

    fn is_fielded(self) -> bool
        ensures { result ≡ fielded self.entry.file.now self.entry.keys }
    {
        common_in_range(read_common(self.section(0))) & self.keys_fielded()
    }

    // ---- the record's keys and strings

    // As many keys as `out` has places.
    fn read_keys(self, out: &mut [KeyDesign])
        requires { length out.old ≤ self.keys }
        ensures { out.new ≡ tabulate (length out.old) (λ k. key_of (key_section self.entry.file.now k)) }
    {
        for (k, key) in out.iter_mut().enumerate() {
            *key = read_key(self.section(k + 1));
        }
    }

    fn keys_of(self) -> [KeyDesign; 16]
        ensures { result ≡ pad 16 no_key (keys_in self.entry.file.now self.entry.keys) }
    {
        let mut out = [no_key(); 16];
        self.read_keys(&mut out[..self.keys]);
        out
    }

    fn strings_of(self, keys: &[KeyDesign; 16]) -> [LoopDesign; 32]
        requires { (keys.now ≡ pad 16 no_key (keys_in self.file.now self.keys)) × (string_sum keys.now self.keys ≤ 32) }
        ensures { result ≡ pad 32 no_string (strings_in self.entry.file.now self.entry.keys) }
    {
        let mut out = [no_string(); 32];
        let mut m = 0;
        let used = &keys[..self.keys];
        for (k, key) in used.iter().enumerate() {
            let end = m + key.strings;
            read_strings(self.section(k + 1), &mut out[m..end]);
            m = end;
        }
        out
    }

    fn instrument_of(self, m: usize, keys: &[KeyDesign; 16]) -> Instrument
        requires { (keys.now ≡ pad 16 no_key (keys_in self.file.now self.keys)) × (m ≡ string_sum keys.now self.keys) × (m ≤ 32) }
        ensures { result ≡ instrument_of self.entry.file.now self.entry.keys }
    {
        let common = read_common(self.section(0));
        let strings = self.strings_of(keys);
        Instrument {
            common,
            key_count: self.keys,
            string_count: m,
            keys: *keys,
            strings,
        }
    }
}

// ---- reading

// The instrument of a file, or the first refusal of 1 to 6 that the whole file meets.
pub fn read(f: &[u8]) -> Result<Instrument, Refusal>
    ensures { result ≡ read_of f.now }
{
    if !is_headed(f) {
        return Err(Refusal::SectionCount);
    }
    let n = key_count(f);
    let sections = Sections { file: f, keys: n };
    if !sections.is_chained() {
        return Err(Refusal::Chain);
    }
    if !sections.is_measured() {
        return Err(Refusal::SectionLength);
    }
    if !sections.is_fielded() {
        return Err(Refusal::Field);
    }
    let keys = sections.keys_of();
    let m = string_sum(&keys[..n]);
    if m > 32 {
        return Err(Refusal::ManyStrings);
    }
    if !keys_apart(&keys[..n]) {
        return Err(Refusal::KeyTwice);
    }
    Ok(sections.instrument_of(m, &keys))
}

// ---- the record in an answer

fn no_instrument() -> Instrument
    ensures { result ≡ no_instrument }
{
    Instrument {
        common: no_common(),
        key_count: 0,
        string_count: 0,
        keys: [no_key(); 16],
        strings: [no_string(); 32],
    }
}

// What a program in C gets of it: the record, of zeros where the file is refused.
pub fn instrument_in(answer: Result<Instrument, Refusal>) -> Instrument
    ensures { result ≡ instrument_in answer }
{
    match answer {
        Ok(instrument) => instrument,
        Err(_) => no_instrument(),
    }
}
