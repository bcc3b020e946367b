// The instrument's record. Refusal 7 on an instrument: the test of a handed-in record. "The session": S and W of a
// record.
#![tactic(auto)]

ghost use Rattle.std.specs.Prelude.{◌≡◌, true, not, ◌*◌, ◌^◌, ◌≤◌, ◌<◌, eqb, length, sum_by, position};
ghost use Rattle.std.specs.List.{list_all};
ghost use Rattle.instrument_fields.specs.Ranges.{key_in_range, string_in_range};
ghost use Rattle.instrument_fields.specs.Unused.{is_no_key, is_no_string};
ghost use Rattle.instrument.specs.Valid.{keys_in_range, keys_apart, counted, keys_valid, strings_valid, valid};
ghost use Rattle.instrument.specs.KeyIndex.{key_place};
ghost use Rattle.instrument.specs.Work.{counted_cells, counted_part};

use instrument_fields::{
    Common, KeyDesign, LoopDesign, common_in_range, is_no_key, is_no_string, key_in_range,
    string_in_range,
};

// The keys in the file's order, and their strings, key after key: key k's stand after those of the keys before it.
// Places past the counts hold zeros. The record crosses to C as it is, so that its counts stand open beside arrays.
#[repr(C)]
#[derive(Clone, Copy)]
pub struct Instrument {
    pub common: Common,
    pub key_count: usize,
    pub string_count: usize,
    pub keys: [KeyDesign; 16],
    pub strings: [LoopDesign; 32],
}

// ---- tests that a file's record and a handed-in record share

// How many strings the keys have.
pub fn string_sum(keys: &[KeyDesign]) -> usize
    requires { sum_by (λ k. k.strings) keys.now < 2 ^ 64 }
    ensures { result ≡ sum_by (λ k. k.strings) keys.now }
{
    keys.iter().map(|k| k.strings).sum()
}

fn is_new(keys: &[KeyDesign], number: u8) -> bool
    ensures { result ≡ list_all (λ k. not (eqb k.key number)) keys.now }
{
    keys.iter().all(|k| k.key != number)
}

// Whether no key has the number of one before it.
pub fn keys_apart(keys: &[KeyDesign]) -> bool
    ensures { result ≡ keys_apart keys.now (length keys.now) }
{
    let mut rest = keys;
    while let Some((last, before)) = rest.split_last() {
        if !is_new(before, last.key) {
            return false;
        }
        rest = before;
    }
    true
}

// ---- the key of a number

fn place_of(keys: &[KeyDesign], number: u8) -> Option<usize>
    ensures { result ≡ position (λ k. eqb k.key number) keys.now }
{
    keys.iter().position(|k| k.key == number)
}

// The index of the key of that number.
pub fn key_index(instrument: Instrument, key: u8) -> Option<usize>
    requires { instrument.key_count ≤ 16 }
    ensures { result ≡ key_place instrument key }
{
    place_of(&instrument.keys[..instrument.key_count], key)
}

// ---- refusal 7: an instrument handed in

fn keys_in_range(keys: &[KeyDesign]) -> bool
    ensures { result ≡ list_all key_in_range keys.now }
{
    keys.iter().all(|k| key_in_range(*k))
}

fn keys_unused(keys: &[KeyDesign]) -> bool
    ensures { result ≡ list_all is_no_key keys.now }
{
    keys.iter().all(|k| is_no_key(*k))
}

fn strings_in_range(strings: &[LoopDesign]) -> bool
    ensures { result ≡ list_all string_in_range strings.now }
{
    strings.iter().all(|s| string_in_range(*s))
}

fn strings_unused(strings: &[LoopDesign]) -> bool
    ensures { result ≡ list_all is_no_string strings.now }
{
    strings.iter().all(|s| is_no_string(*s))
}

fn is_counted(i: &Instrument) -> bool
    ensures { result ≡ counted i.now }
{
    (1 <= i.key_count) & (i.key_count <= 16) & (i.string_count <= 32)
}

fn keys_valid(i: &Instrument) -> bool
    requires { i.now.key_count ≤ 16 }
    ensures { result ≡ keys_valid i.now }
{
    let (keys, unused) = i.keys.split_at(i.key_count);
    keys_in_range(keys) & keys_apart(keys) & keys_unused(unused)
}

fn strings_valid(i: &Instrument) -> bool
    requires { (i.now.key_count ≤ 16) × (i.now.string_count ≤ 32) × (keys_in_range i.now.keys i.now.key_count ≡ true) }
    ensures { result ≡ strings_valid i.now }
{
    let (strings, unused) = i.strings.split_at(i.string_count);
    (string_sum(&i.keys[..i.key_count]) == i.string_count)
        & strings_in_range(strings)
        & strings_unused(unused)
}

// Whether some accepted file gives the record: where not, a call that it is handed to answers 7.
pub fn is_valid(i: Instrument) -> bool
    ensures { result ≡ valid i }
{
    if !common_in_range(i.common) {
        return false;
    }
    if !is_counted(&i) {
        return false;
    }
    if !keys_valid(&i) {
        return false;
    }
    strings_valid(&i)
}

// ---- S and W

// A string's cells; none for numbers that no file holds, so that the sum below cannot wrap.
fn string_cells(s: LoopDesign) -> usize
    ensures { (result ≡ counted_cells s) × (result ≤ 4137) }
{
    if s.n > 2000 || s.ap_count > 66 {
        return 0;
    }
    2 * s.n + 2 * s.ap_count + 5
}

fn cells_of(strings: &[LoopDesign]) -> usize
    requires { sum_by counted_cells strings.now < 2 ^ 64 }
    ensures { result ≡ sum_by counted_cells strings.now }
{
    strings.iter().map(|s| string_cells(*s)).sum()
}

// W, the cells of one part of work memory; 0 for a record of more than 32 strings.
pub fn part_cells(i: Instrument) -> usize
    ensures { (result ≡ counted_part i) × (result ≤ 132384) }
{
    if i.string_count > 32 {
        return 0;
    }
    cells_of(&i.strings[..i.string_count])
}

// The cells that work memory must have: five parts.
pub fn work_cells(i: Instrument) -> usize
    ensures { (result ≡ 5 * counted_part i) × (result ≤ 661920) }
{
    5 * part_cells(i)
}
