// Document 01's row of the decimator: "Decimate 5 finite inputs by 2 with the only nonzero tap 1 at index 63: inputs 0, 2, 4."
use little_endian::bits_of;
use refusal::Refusal;
use std::io;

fn print_outputs(
    rt: &impl Print,
    answer: Result<(), Refusal>,
    outputs: &[f64; 3],
) -> io::Result<()> {
    let number = match answer {
        Ok(()) => 0,
        Err(refusal) => refusal.number(),
    };
    print!(rt; "decimate: refusal {number}, outputs")?;
    for output in outputs {
        print!(rt; " {:016x}", bits_of(*output))?;
    }
    println!(rt;)
}

pub fn print_row(rt: &impl Print) -> io::Result<()> {
    let inputs = [1.5, -2.25, 0.1, 1000000.0, -7.0];
    let mut taps = [0.0; 127];
    taps[63] = 1.0;
    let mut outputs = [0.0; 3];
    let answer = decimator::decimate(&inputs, &taps, 2, &mut outputs);
    print_outputs(rt, answer, &outputs)
}
