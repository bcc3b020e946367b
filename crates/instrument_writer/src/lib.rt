// Document 02, W4, "Saving an instrument": the writer of document 01's instrument file. Reading what it wrote
// gives the same record, and writing what was read from an accepted file gives the same bytes (specs/Saving.antt).
#![tactic(auto)]

ghost use Rattle.std.specs.Prelude.{◌≡◌, true, ◌++◌, suc, ◌+◌, ◌*◌, ◌≤◌, ◌<◌, length};
ghost use Rattle.std.proofs.lemmas.List.Edits.{sets};
ghost use Rattle.counting.specs.Below.{gather};
ghost use Rattle.little_endian.specs.Numbers.{le16, le32, le_f64};
ghost use Rattle.instrument.specs.Valid.{string_at, valid};
ghost use Rattle.instrument_encoding.specs.Encode.{common_bytes, string_bytes, head_bytes, key_bytes, section_bytes, encode};
ghost use Rattle.instrument_writer.specs.Pieces.{pair_bytes, table_bytes, counted_length};
ghost use Rattle.instrument_writer.specs.Write.{length_in, WriteMeets};

use instrument::Instrument;
use instrument_encoding::is_given;
use instrument_fields::{Common, KeyDesign, LoopDesign};
use little_endian::{put_f64, put_u8, put_u16, put_u32};
use refusal::Refusal;

// No instrument's file is longer: 16 keys and 32 strings.
pub const LONGEST_FILE: usize = 2200;

// ---- the sections

fn put_four(b: &mut [u8], p: usize, x: f64, y: f64, z: f64, w: f64)
    requires { p + 32 ≤ length b.old }
    ensures { b.new ≡ sets b.old p (le_f64 x ++ (le_f64 y ++ (le_f64 z ++ le_f64 w))) }
{
    put_f64(b, p, x);
    put_f64(b, p + 8, y);
    put_f64(b, p + 16, z);
    put_f64(b, p + 24, w);
}

fn put_common(b: &mut [u8], p: usize, c: Common)
    requires { p + 76 ≤ length b.old }
    ensures { b.new ≡ sets b.old p (common_bytes c) }
{
    let hammer = c.hammer;
    let damper = c.damper;
    put_four(b, p, c.fs, c.z, hammer.mass, hammer.stiffness);
    put_four(b, p + 32, hammer.eps, hammer.tau, c.yz, damper.rho);
    put_f64(b, p + 64, damper.ramp_s);
    put_u32(b, p + 72, hammer.exponent);
}

// All of a number that is in range.
fn low_16(x: usize) -> u16
    ensures { le16 result ≡ le16 x }
{
    // Not `u16::try_from`: a premise that every n is in range would be asked of each string.
    (x % 0x1_0000) as u16
}

fn put_string(b: &mut [u8], p: usize, s: LoopDesign)
    requires { p + 44 ≤ length b.old }
    ensures { b.new ≡ sets b.old p (string_bytes s) }
{
    put_u16(b, p, low_16(s.n));
    put_u16(b, p + 2, low_16(s.ap_count));
    put_four(b, p + 4, s.phi, s.thiran_a, s.ap_a, s.loss_g);
    put_f64(b, p + 36, s.loss_c);
}

fn put_head(b: &mut [u8], p: usize, k: KeyDesign)
    requires { (p + 36 ≤ length b.old) × (k.strings ≤ 3) }
    ensures { b.new ≡ sets b.old p (head_bytes k) }
{
    put_u8(b, p, k.key);
    put_u8(b, p + 1, u8::from(k.has_damper));
    put_u8(b, p + 2, k.strings as u8);
    put_u8(b, p + 3, 0);
    put_four(
        b,
        p + 4,
        k.weight,
        k.damper_scale,
        k.strike_ratio,
        k.damper_ratio,
    );
}

fn put_strings(b: &mut [u8], p: usize, strings: &[LoopDesign])
    requires { p + 44 * length strings.now ≤ length b.old }
    ensures { b.new ≡ sets b.old p (gather (length strings.now) (λ j. string_bytes (string_at strings.now j))) }
{
    for (j, string) in strings.iter().enumerate() {
        put_string(b, p + 44 * j, *string);
    }
}

fn put_key(b: &mut [u8], p: usize, k: KeyDesign, strings: &[LoopDesign])
    requires { (p + 36 + 44 * k.strings ≤ length b.old) × (k.strings ≤ 3) × (length strings.now ≡ k.strings) }
    ensures { b.new ≡ sets b.old p (key_bytes k (λ j. string_at strings.now j)) }
{
    put_head(b, p, k);
    put_strings(b, p + 36, strings);
}

fn put_pair(b: &mut [u8], p: usize, offset: usize, size: usize)
    requires { (p + 8 ≤ length b.old) × (offset < 0x1_0000_0000) × (size < 0x1_0000_0000) }
    ensures { b.new ≡ sets b.old p (le32 offset ++ le32 size) }
{
    put_u32(b, p, offset as u32);
    put_u32(b, p + 4, size as u32);
}

// ---- the file

// A record that some accepted file gives. How many places its arrays have is said too, since a proof behind a `&`
// does not see it.
#[derive(Clone, Copy)]
struct ValidInstrument {
    instrument: Instrument,
    ghost valid: { valid instrument ≡ true },
    ghost places: { (length instrument.keys ≡ 16) × (length instrument.strings ≡ 32) },
}

impl ValidInstrument {
    // The keys' sections from p on; `rest` is the strings of the keys that are left.
    fn put_keys(&self, b: &mut [u8], p: usize)
        requires { p + 36 * self.now.instrument.key_count + 44 * self.now.instrument.string_count ≤ length b.old }
        ensures { b.new ≡ sets b.old p (gather self.now.instrument.key_count (λ k. section_bytes self.now.instrument (suc k))) }
    {
        let keys = &self.instrument.keys[..self.instrument.key_count];
        let mut rest = &self.instrument.strings[..];
        let mut at = p;
        for key in keys {
            let (strings, after) = rest.split_at(key.strings);
            put_key(b, at, *key, strings);
            at += 36 + 44 * key.strings;
            rest = after;
        }
    }

    fn put_sections(&self, b: &mut [u8], p: usize)
        requires { p + 76 + 36 * self.now.instrument.key_count + 44 * self.now.instrument.string_count ≤ length b.old }
        ensures { b.new ≡ sets b.old p (gather (self.now.instrument.key_count + 1) (section_bytes self.now.instrument)) }
    {
        let common = self.instrument.common;
        put_common(b, p, common);
        self.put_keys(b, p + 76);
    }

    // The keys' pairs in the table: each section starts where the one before it ends, the first key's behind table
    // and common section.
    fn put_pairs(&self, b: &mut [u8])
        requires { 12 + 8 * self.now.instrument.key_count ≤ length b.old }
        ensures { b.new ≡ sets b.old 12 (gather self.now.instrument.key_count (λ k. pair_bytes self.now.instrument (suc k))) }
    {
        let keys = &self.instrument.keys[..self.instrument.key_count];
        let mut offset = 88 + 8 * self.instrument.key_count;
        for (k, key) in keys.iter().enumerate() {
            let size = 36 + 44 * key.strings;
            put_pair(b, 12 + 8 * k, offset, size);
            offset += size;
        }
    }

    fn put_table(&self, b: &mut [u8])
        requires { 12 + 8 * self.now.instrument.key_count ≤ length b.old }
        ensures { b.new ≡ sets b.old 0 (table_bytes self.now.instrument) }
    {
        let n = self.instrument.key_count;
        put_u32(b, 0, (n + 1) as u32);
        put_pair(b, 4, 12 + 8 * n, 76);
        self.put_pairs(b);
    }

    fn put_file(&self, b: &mut [u8])
        requires { length (encode self.now.instrument) ≤ length b.old }
        ensures { b.new ≡ sets b.old 0 (encode self.now.instrument) }
    {
        self.put_table(b);
        self.put_sections(b, 12 + 8 * self.instrument.key_count);
    }
}

// The file's length; none for counts that no file has, so that the products cannot wrap.
fn file_length(keys: usize, strings: usize) -> usize
    ensures { result ≡ counted_length keys strings }
{
    if keys > 16 {
        return 0;
    }
    if strings > 32 {
        return 0;
    }
    88 + 44 * keys + 44 * strings
}

// Writes the instrument's file into the first bytes lent, or refuses as 7 or 20 and changes none.
#[tactic(auto, using(crate::proofs::Whole::refusals))]
pub fn write(i: Instrument, bytes: &mut [u8]) -> Result<usize, Refusal>
    ensures { WriteMeets i bytes.old result bytes.new }
{
    let given = is_given(i);
    let length = file_length(i.key_count, i.string_count);
    if !given {
        return Err(Refusal::Record);
    }
    if bytes.len() < length {
        return Err(Refusal::FileRoom);
    }
    ValidInstrument { instrument: i }.put_file(bytes);
    Ok(length)
}

// The length in an answer, as a program in C gets it: 0 where the record is refused.
pub fn length_in(answer: Result<usize, Refusal>) -> usize
    ensures { result ≡ length_in answer }
{
    match answer {
        Ok(length) => length,
        Err(_) => 0,
    }
}
