//! The judge of images, by number: what the board's firmware calls.
#![tactic(auto)]

ghost use Rattle.std.specs.Prelude.{◌≡◌};
ghost use Rattle.parts.specs.Content.{Content};
ghost use Rattle.module.specs.Follows.{Follows};
ghost use Rattle.judge.specs.Judged.{Judged};

use module::reading::judge;

// 0, or the number of the image's first fault: C is handed a number, and no `Result`.
#[tactic(auto, using(crate::proofs::Numbers::told, crate::proofs::Numbers::not_told))]
#[unsafe(no_mangle)]
pub extern "C" fn k4_judge(image: &[u8]) -> u32
    ensures answer { Judged image.now result }
    ensures exact { (c : Content) → Follows image.now c → result ≡ 0 }
{
    match judge(image) {
        Ok(()) => 0,
        Err(fault) => fault.refusal().number,
    }
}
