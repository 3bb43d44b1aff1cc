// `k4 judge FILE`: whether an image is accepted, and if not, why.
use crate::image_file::read_image;
use module::reading::judge;
use std::process::ExitCode;

// A refusal is the answer and no error: its one line goes where the answer goes.
pub(crate) fn judge_file(rt: &HostRuntime, path: &str) -> anyhow::Result<ExitCode> {
    let image = read_image(rt, path)?;
    match judge(image.as_slice()) {
        Ok(()) => {
            println!(rt; "accepted")?;
            Ok(ExitCode::SUCCESS)
        }
        Err(fault) => {
            println!(rt; "{fault}")?;
            Ok(ExitCode::FAILURE)
        }
    }
}
