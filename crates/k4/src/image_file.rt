// The image that stands in a file.
use anyhow::Context;
use module::module::Module;
use std::fs;
use std::io::Read;

// One byte more than the largest image has: a longer file is no image, and needs no more to be told so by the same number.
const MOST: u64 = 20_797;

pub(crate) fn read_image(rt: &HostRuntime, path: &str) -> anyhow::Result<Vec<u8>> {
    let file = fs::open(rt, path).context(format_args!("{path} can't be opened"))?;
    let mut image = Vec::new(rt.alloc());
    file.take(MOST)
        .read_to_end(&mut image)
        .context(format_args!("{path} can't be read"))?;
    Ok(image)
}

// Makes the module the one of the image, and says whether it is one; if not, why is told. Not by an error: it has room for so many bytes alone, and the path would take them. Into a module that stands, since one that is handed on is copied.
pub(crate) fn read_module(
    rt: &HostRuntime,
    path: &str,
    module: &mut Module,
) -> anyhow::Result<bool> {
    let image = read_image(rt, path)?;
    match module.read(image.as_slice()) {
        Ok(()) => Ok(true),
        Err(fault) => {
            eprintln!(rt; "k4: {path} is refused, {fault}")?;
            Ok(false)
        }
    }
}
