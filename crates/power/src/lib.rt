// The felt's power law in halves and in quarters, in the place of the Rust's `powf`.
#![tactic(auto)]

ghost use Rattle.std.specs.Prelude.{◌≡◌, ◌<◌};
ghost use Rattle.power.specs.Power.{quarters_above, power_of, quarters_of};

// x above 0 to the power of e quarters, where those are fewer than eight. For 5 and 7 the root of the root is taken, and
// for 7 the root serves twice.
fn few_quarters(x: f64, e: u32) -> f64
    requires { e < 8 }
    ensures { result ≡ quarters_above x e }
{
    if e <= 4 {
        return x;
    }
    let r = root::root(x);
    if e == 5 {
        x * root::root(r)
    } else if e == 6 {
        x * r
    } else {
        x * r * root::root(r)
    }
}

// x to the power that the file's word names: below 256 it counts halves, from 256 on the quarters above 256. An
// accepted instrument has a word from 2 to 10 or from 260 to 276. The sign is tested at each step: behind one test
// the compiler keeps x in memory, and the recursion takes about twice as long.
pub fn power(x: f64, word: u32) -> f64
    ensures { result ≡ power_of x word }
{
    if x > 0.0 {
        if word <= 2 {
            x
        } else if word == 3 {
            x * root::root(x)
        } else if word < 256 {
            power(x, word - 2) * x
        } else if word < 264 {
            few_quarters(x, word - 256)
        } else {
            power(x, word - 4) * x
        }
    } else if x.is_nan() {
        x
    } else {
        0.0
    }
}

// How many quarters the word names, for whoever estimates with the exponent.
pub fn quarters_of(word: u32) -> u32
    ensures { result ≡ quarters_of word }
{
    if word < 256 { 2 * word } else { word - 256 }
}
