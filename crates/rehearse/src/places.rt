// The script, and where samples and forces go.
use program::arguments::Failure;
use program::input::Input;
use program::output::{InUse, Output};
use program::system::{Program, System};
use program::{input, kind, output, streams};

// `-` is standard input, and is called so.
pub fn is_standard_input(path: &str) -> bool {
    path == "-"
}

pub fn open_script(program: &Program<'_, impl System>, path: &str) -> Result<Input, Failure> {
    if !is_standard_input(path) {
        return input::open(program, path);
    }
    streams::check_input_open(program)?;
    input::standard(program)
}

// Forces are written where anybody asked for them.
#[derive(Drop)]
pub struct Places {
    pub wave: Output,
    pub forces: Option<Output>,
}

// The forces' file beside the samples'.
fn open_forces(
    program: &Program<'_, impl System>,
    path: &str,
    wave: &Output,
) -> Result<Output, Failure> {
    let forces = output::open(program, path)?;
    if kind::is_same(wave.file, forces.file) {
        let failure = program.complain(path, "samples and forces may not go into one file");
        output::withdraw(program.rt, path, forces);
        return Err(failure);
    }
    Ok(forces)
}

// Where the forces' file cannot be had, the samples' is not touched.
fn open_both(
    program: &Program<'_, impl System>,
    wave_path: &str,
    path: &str,
) -> Result<Places, Failure> {
    let wave = output::open(program, wave_path)?;
    match open_forces(program, path, &wave) {
        Ok(forces) => Ok(Places {
            wave,
            forces: Some(forces),
        }),
        Err(failure) => {
            output::withdraw(program.rt, wave_path, wave);
            Err(failure)
        }
    }
}

// Opens what is written, and empties nothing. Nothing is opened where either is in use.
pub fn open_places(
    program: &Program<'_, impl System>,
    wave: &str,
    forces: Option<&str>,
    inputs: &[InUse],
) -> Result<Places, Failure> {
    output::check_apart(program, wave, inputs, "the answers go")?;
    match forces {
        Some(forces) => {
            output::check_apart(program, forces, inputs, "the answers go")?;
            open_both(program, wave, forces)
        }
        None => Ok(Places {
            wave: output::open(program, wave)?,
            forces: None,
        }),
    }
}
